//! The command `threads` on small scripts.

use commands::{Command, command_of};
use match_script::ScriptFault;
use script_input::Status;
use std::alloc::{AllocError, Global};
use std::sync::Wait;
use std::thread::Threads;
use threads_top::{Judgement, top_threads};
use tn_outside::{MemSink, MemSource, SteadySource};

const EMPTY: &str = "tribes 1\nmatch 1 1 100 128 1000\ngo\n";

const CLOCK: &str = "tribes 1\nmatch 1 1 100 128 1000\nblock 61\nspawn clock 0 0 0 0\ngo\n";

/// More bytes than a script or a text here has.
const ALL: usize = 65_536;

/// These words as a program is given them.
fn owned(alloc: Global, words: &[&str]) -> Result<Vec<String>, AllocError> {
    let mut all = Vec::new(alloc);
    for word in words {
        all.push(String::from_str(alloc, word)?)?;
    }
    Ok(all)
}

/// Whether a call with these words answers and writes this, and no race is refused.
fn writes<R: Threads + Wait + Sync>(
    rt: &R,
    alloc: Global,
    words: &[&str],
    text: &str,
    (status, told): (Status, &str),
) -> bool {
    let Ok(all) = owned(alloc, words) else {
        return false;
    };
    let mut source = MemSource {
        inner: SteadySource {
            rest: text.as_bytes(),
            most: ALL,
        },
        failing: &[],
        calls: 0,
        faults: 0,
    };
    let mut sink = MemSink {
        bytes: Vec::new(alloc),
        most: ALL,
        failing: &[],
        calls: 0,
        faults: 0,
    };
    let mut judgement = Judgement::new();
    let answer = match command_of(&all) {
        Ok(Command::Threads) => top_threads(rt, alloc, &mut source, &mut judgement, &mut sink),
        Ok(_) => Status::Usage(0),
        Err(place) => Status::Usage(place),
    };
    answer == status && sink.bytes.as_slice() == told.as_bytes() && !judgement.is_refused()
}

/// The script of a header and so many times these words.
fn script(alloc: Global, header: &str, times: u32, body: &str) -> Result<String, AllocError> {
    let mut text = String::from_str(alloc, header)?;
    for _ in 0..times {
        text.push_str(body)?;
    }
    Ok(text)
}

#[test]
fn texts_of_threads(rt: HostRuntime) {
    for (header, body, told) in [
        (
            EMPTY,
            "",
            "show 0 events 0 sampled 0 accepted 0 taken 0 control - ghosts 0\n",
        ),
        (
            EMPTY,
            "raw 0 -\nraw 0 ffff\nraw 0 4400000000000000000040010040f01f00\n",
            "j 0 raw 32 -
j 0 raw 32 ffff
j 0 raw 32 4400000000000000000040010040f01f00
show 0 events 0 sampled 0 accepted 0 taken 0 control - ghosts 0
",
        ),
        (
            EMPTY,
            "cpost 0 g 61\ncpack 0\nup 0 0\n",
            "j 0 cpost g 61
j 0 cpack
j 0 up 0 32
show 0 events 0 sampled 0 accepted 0 taken 0 control - ghosts 0
",
        ),
        (
            CLOCK,
            "scan 0\n",
            "h 0 0 0
h 0 1 0
h 0 2 0
j 0 show 0 0 clock 0 0 0
show 0 events 0 sampled 0 accepted 0 taken 0 control - ghosts 0
",
        ),
    ] {
        let text = script(rt.alloc(), header, 1, body).expect(&rt, "memory");
        let told = (Status::Done, told);
        assert!(rt; writes(&rt, rt.alloc(), &["threads"], text.as_str(), told));
    }
}

#[test]
fn one_tick_too_many(rt: HostRuntime) {
    let text = script(rt.alloc(), EMPTY, 4097, "tick\n").expect(&rt, "memory");
    let refused = (Status::Script(4100, ScriptFault::TooManyLines), "");
    assert!(rt; writes(&rt, rt.alloc(), &["threads"], text.as_str(), refused));
}

#[test]
fn usage(rt: HostRuntime) {
    for (words, place) in [
        ([].as_slice(), 0),
        (["thread"].as_slice(), 0),
        (["threads", "x"].as_slice(), 1),
    ] {
        assert!(rt; writes(&rt, rt.alloc(), words, EMPTY, (Status::Usage(place), "")));
    }
}
