//! Matches in threads under a gate that says which line comes when, and races that are made up.
ghost use Rattle.std.specs.Prelude.{IfOk};
ghost use Rattle.match_script.specs.Ranges.{HasRanges};

use crate::gates::LineGate;
use kept_pair::MAX_KEPT_STEPS;
use match_script::{Script, parse};
use plain_race::plain_race;
use race_history::{Race, TickMoves};
use race_run::race;
use std::alloc::{AllocError, Global};
use std::process::Abort;
use std::sync::Wait;
use std::thread::Threads;
use threads_top::{FreeGate, Gate, Judgement, judge, run_threads, tell};
use tn_outside::MemSink;

/// More bytes than a text here has.
const ALL: usize = 65_536;

const EMPTY: &str = "tribes 1\nmatch 1 1 100 128 1000\ngo\n";

const PACK_INSIDE_TICK: &str = "tribes 1
match 1 2 100 128 1000
block 61
spawn clock 0 0 0 0
go
scan 0
pack 0
down 0 0
move 0 1 0 0 0
cpack 0
up 0 0
tick
pack 0
";

/// The place of its last line, which is done inside the tick.
const LAST_PACK: u32 = 7;

const PACK_INSIDE_TICK_TOLD: &str = "h 0 0 0 1
h 0 1 0
h 0 2 0
t 1 1,0,0,0 -
j 0 show 0 0 clock 0 0 0
j 0 pack
j 0 down 0
j 0 move 1 0 0 0
j 0 cpack
j 0 up 0 32
j 0 pack 0.0@1=1 0.1@0=0 0.2@0=0
m 0 0 1
m 1 0 7
show 0 events 0 sampled 1 accepted 1 taken 1 control - ghosts 0
show 1 events 0 sampled 0 accepted 0 taken 0 control - ghosts 0
";

const RAW_BESIDE_TICK: &str = "tribes 1
match 1 1 100 128 1000
go
raw 0 4000000000000000000000000040900800
raw 0 -
tick
raw 0 -
";

// The raw bytes are the client's first packet with one move, for which 32 places are free; 31 are free until the tick takes it.
const RAW_BESIDE_TICK_TOLD: &str = "t 1 1,0,0,0
j 0 raw 32 4000000000000000000000000040900800
j 0 raw 31 -
j 0 raw 32 -
show 0 events 0 sampled 0 accepted 1 taken 1 control - ghosts 0
";

const EVERY_LINE: &str = "tribes 1
match 1 1 100 128 1000
block 61
spawn clock 0 0 0 0
go
scan 0
post 0 g 6869
pack 0
down 0 0
move 0 1 0 0 0
cpost 0 u 62
cpack 0
up 0 0
raw 0 -
tick
show 0
world
";

// The client's lines and its pack come first, and then the messages: no tick takes the move, so it keeps its place.
const EVERY_LINE_TOLD_PLAINLY: &str = "h 0 0 0 1
h 0 1 0
h 0 2 0
t 1 -
j 0 pack
j 0 down 0
j 0 move 1 0 0 0
j 0 cpost u 62
j 0 cpack
j 0 up 0 32
j 0 raw 31 -
j 0 show 0 0 clock 0 0 0
j 0 post g 6869
show 0 events 0 sampled 1 accepted 1 taken 0 control - ghosts 0
";

/// A match with forged bytes from the second client, as in `examples/hostile.match`.
const HOSTILE: &str = "tribes 1
match 1 2 100 128 1000
block 6d6170
player 0 0 0 1000 1000
player 1 0 1 5000 5000
go
scan 0
scan 1
pack 0
pack 1
down 0 0
raw 1 -
raw 1 ffff
raw 1 40000000000000000000000000000000
raw 1 44000040020000000000000000000000
raw 1 4400000000000000000040010040f01f00
raw 1 44000000000000000000000000001002010000
raw 1 44000000000000000000000000000080
raw 1 44000040000040000000000000000000
raw 1 44000040000040000000000000000000
move 0 1 0 0 0
cpack 0
cpack 1
up 0 0
up 1 0
post 0 g 6869
pack 0
pack 1
down 0 1
down 1 1
raw 1 8400004000004000000000000040f01800
tick
scan 0
scan 1
pack 0
pack 1
down 0 2
down 1 2
show 0
show 1
world
";

// Its text where each line waits for the one before it. A client's first pack has its block alone; its player is read where the block
// is acknowledged, which forged bytes did for the second client. The tick moves both, and the second throws a disc.
const HOSTILE_IN_TURN: &str = "h 0 0 1000 1025
h 0 1 1000
h 0 2 100
h 0 3 20
h 0 4 0
h 1 0 5000 5175
h 1 1 5000
h 1 2 100
h 1 3 20 19
h 1 4 0
h 2 0 5175
h 2 1 5000
t 1 1,0,0,0 7,0,1,0
j 0 show 0 0 player 0 0 1
j 0 pack
j 0 down 0
j 0 move 1 0 0 0
j 0 cpack
j 0 up 0 32
j 0 post g 6869
j 0 pack 0.0@0=1000 0.1@0=1000 0.2@0=100 0.3@0=20 0.4@0=0
j 0 down 1
j 0 pack 0:1
j 0 down 2
j 1 show 0 1 player 0 0 1
j 1 pack
j 1 raw 32 -
j 1 raw 32 ffff
j 1 raw 32 40000000000000000000000000000000
j 1 raw 32 44000040020000000000000000000000
j 1 raw 32 4400000000000000000040010040f01f00
j 1 raw 32 44000000000000000000000000001002010000
j 1 raw 32 44000000000000000000000000000080
j 1 raw 32 44000040000040000000000000000000
j 1 raw 32 44000040000040000000000000000000
j 1 cpack
j 1 up 0 32
j 1 pack 0.0@0=5000 0.1@0=5000 0.2@0=100 0.3@0=20 0.4@0=0
j 1 down 1
j 1 raw 32 8400004000004000000000000040f01800
j 1 show 1 2 disc 0 0 0
j 1 pack 0:9 1.0@0=5175 1.1@0=5000
j 1 down 2
m 0 1 31
m 0 2 3
m 1 0 31
show 0 events 1 sampled 1 accepted 1 taken 1 control - ghosts 1 | 0 player 0 1000 1000 100 20 0
show 1 events 0 sampled 0 accepted 1 taken 1 control - ghosts 0
";

/// The script of a text that has one.
fn script_of<R: Abort>(rt: &R, alloc: Global, text: &[u8]) -> Script
    ensures { HasRanges result }
{
    match parse(alloc, text) {
        Ok(script) => script,
        Err(_) => panic!(rt; "the text is a script"),
    }
}

/// What a match in threads writes under a gate; `None` where its own race is not told.
fn written<R: Threads + Wait + Sync, G: Gate + Sync>(
    rt: &R,
    alloc: Global,
    script: &Script,
    gate: &G,
) -> Option<Vec<u8>>
    requires { HasRanges script.now }
{
    let mut sink = MemSink {
        bytes: Vec::new(alloc),
        most: ALL,
        failing: &[],
        calls: 0,
        faults: 0,
    };
    let mut judgement = Judgement::new();
    let ran = run_threads(rt, alloc, script, gate, &mut judgement, &mut sink);
    if ran.is_ok() && !judgement.is_refused() {
        Some(sink.bytes)
    } else {
        None
    }
}

#[test]
fn pack_inside_tick(rt: HostRuntime) {
    let script = script_of(&rt, rt.alloc(), PACK_INSIDE_TICK.as_bytes());
    let gate = LineGate::new(&rt, Some(LAST_PACK));
    let text = written(&rt, rt.alloc(), &script, &gate).expect(&rt, "no text");
    assert!(rt; !gate.gave_up() && text.as_slice() == PACK_INSIDE_TICK_TOLD.as_bytes());
}

#[test]
fn raw_bytes_under_a_gate(rt: HostRuntime) {
    for (text, told) in [
        (RAW_BESIDE_TICK, RAW_BESIDE_TICK_TOLD),
        (HOSTILE, HOSTILE_IN_TURN),
    ] {
        let script = script_of(&rt, rt.alloc(), text.as_bytes());
        let gate = LineGate::new(&rt, None);
        let text = written(&rt, rt.alloc(), &script, &gate).expect(&rt, "no text");
        assert!(rt; !gate.gave_up() && text.as_slice() == told.as_bytes());
    }
}

/// A race without the moves of its ticks, which is not legal where there is a tick.
fn without_moves(alloc: Global, race: Race) -> Race {
    let Race {
        values,
        moves: _,
        words,
        clients,
    } = race;
    Race {
        values,
        moves: TickMoves::new(alloc),
        words,
        clients,
    }
}

// No gate is known to bring about a race of threads that is not legal, so one is made up here, and judged.
#[test]
fn plainly(rt: HostRuntime) {
    let script = script_of(&rt, rt.alloc(), EVERY_LINE.as_bytes());
    let legal = race(&rt, rt.alloc(), &script, &FreeGate).expect(&rt, "memory");
    let mut judgement = Judgement::new();
    let judged = judge(rt.alloc(), &script, &legal, &mut judgement);
    assert!(rt; judged.is_ok() && !judgement.is_refused());
    let made_up = without_moves(rt.alloc(), legal);
    let mut judgement = Judgement::new();
    let text = judge(rt.alloc(), &script, &made_up, &mut judgement).expect(&rt, "memory");
    assert!(rt; judgement.is_refused() && text.as_slice() == EVERY_LINE_TOLD_PLAINLY.as_bytes());
}

/// One step more than is kept of a client, and a later one; and what is told of them.
fn fill(text: &mut String, told: &mut String) -> Result<(), AllocError> {
    text.push_str(EMPTY)?;
    for _ in 0..MAX_KEPT_STEPS {
        text.push_str("down 0 0\n")?;
        told.push_str("j 0 down 0\n")?;
    }
    text.push_str("down 0 0\ncpost 0 g 61\n")?;
    told.push_str(
        "j 0 full 65536\nshow 0 events 0 sampled 0 accepted 0 taken 0 control - ghosts 0\n",
    )?;
    Ok(())
}

/// What is told of a plain race.
fn plainly_told(alloc: Global, script: &Script) -> Option<Vec<u8>>
    requires { HasRanges script.now }
{
    let made = plain_race(alloc, script).ok()?;
    let mut text = Vec::new(alloc);
    if tell(alloc, script, &made, &mut text) == Ok(true) {
        Some(text)
    } else {
        None
    }
}

// The first line that has no room fills the client, and the rest is passed over.
#[test]
fn a_full_client(rt: HostRuntime) {
    let mut text = String::new(rt.alloc());
    let mut told = String::new(rt.alloc());
    fill(&mut text, &mut told).expect(&rt, "memory");
    let script = script_of(&rt, rt.alloc(), text.as_bytes());
    let in_threads = written(&rt, rt.alloc(), &script, &FreeGate).expect(&rt, "no text");
    assert!(rt; in_threads.as_slice() == told.as_bytes());
    let plain = plainly_told(rt.alloc(), &script).expect(&rt, "no text");
    assert!(rt; plain.as_slice() == told.as_bytes());
}

// A race that does one line after another is legal, and can't tell that text.
#[test]
fn threads_run_in_turn(rt: HostRuntime) {
    let script = script_of(&rt, rt.alloc(), PACK_INSIDE_TICK.as_bytes());
    let gate = LineGate::new(&rt, None);
    let made = race(&rt, rt.alloc(), &script, &gate).expect(&rt, "memory");
    let mut text = Vec::new(rt.alloc());
    assert!(rt; !gate.gave_up() && tell(rt.alloc(), &script, &made, &mut text) == Ok(true));
    assert!(rt; text.as_slice() != PACK_INSIDE_TICK_TOLD.as_bytes());
}

/// A script of forty rounds, in each of which a move comes up and a packet down.
fn rounds(alloc: Global) -> Result<String, AllocError> {
    let mut text = String::from_str(alloc, EMPTY)?;
    for i in 0..40 {
        let round = format!(in alloc;
            "move 0 1 0 0 0\ncpack 0\nup 0 {i}\ntick\npack 0\ndown 0 {i}\n"
        )?;
        text.push_str(round.as_str())?;
    }
    Ok(text)
}

#[test]
fn forty_rounds(rt: HostRuntime) {
    let text = rounds(rt.alloc()).expect(&rt, "memory");
    let script = script_of(&rt, rt.alloc(), text.as_bytes());
    let gate = LineGate::new(&rt, None);
    let told = written(&rt, rt.alloc(), &script, &gate).expect(&rt, "no text");
    let last = "\nshow 0 events 0 sampled 40 accepted 40 taken 40 control - ghosts 0\n";
    assert!(rt; !gate.gave_up() && told.as_slice().ends_with(last.as_bytes()));
}

const ONE_TICK: &str = "tribes 1\nmatch 1 1 100 128 1000\ngo\ntick\n";

#[test]
fn moves_are_missing(rt: HostRuntime) {
    let script = script_of(&rt, rt.alloc(), ONE_TICK.as_bytes());
    let legal = race(&rt, rt.alloc(), &script, &FreeGate).expect(&rt, "memory");
    let without = without_moves(rt.alloc(), legal);
    let mut out = Vec::from_slice(rt.alloc(), b"before").expect(&rt, "memory");
    assert!(rt; tell(rt.alloc(), &script, &without, &mut out) == Ok(false));
    assert!(rt; out.as_slice() == b"before".as_slice());
}
