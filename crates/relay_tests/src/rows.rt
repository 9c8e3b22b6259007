//! Whole reports of relays, worked out by hand or by a second program.
use relay_node::run_relay;
use relay_script::parse_relay;
use tn_outside::MemSink;

// Client 0 is shown a clock, and one spectator looks on.
const CLOCK: &str = "relay 0 1
tribes 1
match 1 1 100 128 1000
block 61
spawn clock 0 0 0 0
go
scan 0
pack 0
down 0 0
cpack 0
up 0 0
pack 0
down 0 1
r scan 0
r pack 0
r down 0 0
r cpack 0
r up 0 0
r pack 0
r down 0 1
r show 0
";

const CLOCK_REPORT: &str = "r scan 0 show 1
r pack 0 0 data 40000000000000000000000000800082300000
r down 0 0 ok
r cpack 0 0 data 40000040000040000000000000000000
r up 0 0 ok 0
r pack 0 1 data 800000400000400000000000000000010015000000000000
r down 0 1 ok
r show 0 events 0 ghosts 1 | 0 clock 0 0 0 0
";

// Client 0 has its player; client 1, far away, stands still.
const ALONE: &str = "relay 0 1
tribes 1
match 1 2 100 128 100
block 61
player 0 0 0 1000 1000
player 1 0 1 5000 5000
go
scan 0
pack 0
down 0 0
cpack 0
up 0 0
tick
pack 0
down 0 1
r scan 0
r pack 0
r down 0 0
r cpack 0
r up 0 0
r pack 0
r down 0 1
r show 0
";

// The same at client 0, where client 1 has a drone and moves.
const BESIDE: &str = "relay 0 1
tribes 1
match 1 2 100 128 100
block 61
player 0 0 0 1000 1000
player 1 0 1 5000 5000
spawn drone 0 1 5050 5000
go
scan 0
pack 0
down 0 0
cpack 0
up 0 0
move 1 3 0 1 0
cpack 1
up 1 0
tick
pack 0
down 0 1
r scan 0
r pack 0
r down 0 0
r cpack 0
r up 0 0
r pack 0
r down 0 1
r show 0
";

const PLAYER_REPORT: &str = "r scan 0 show 1
r pack 0 0 data 40000000000000000000000000800082300000
r down 0 0 ok
r cpack 0 0 data 40000040000040000000000000000000
r up 0 0 ok 0
r pack 0 1 data 800000400000400000000000000000010001803e803ef0ff00
r down 0 1 ok
r show 0 events 0 ghosts 1 | 0 player 0 1000 1000 100 20 0
";

/// What a relay script reports; nothing where it is none, and where memory was not to be had.
fn reported(rt: &HostRuntime, text: &str) -> Vec<u8> {
    let mut sink = MemSink {
        bytes: Vec::new(rt.alloc()),
        most: 1 << 20,
        failing: &[],
        calls: 0,
        faults: 0,
    };
    if let Ok(script) = parse_relay(rt.alloc(), text.as_bytes()) {
        let _ = run_relay(rt.alloc(), &script, &mut sink);
    }
    let MemSink {
        bytes,
        most: _,
        failing: _,
        calls: _,
        faults: _,
    } = sink;
    bytes
}

#[test]
fn clock_is_shown_on(rt: HostRuntime) {
    let report = reported(&rt, CLOCK);
    assert!(rt; report.as_slice() == CLOCK_REPORT.as_bytes());
}

// What happens out of the relay's sight changes nothing of what a spectator is sent.
#[test]
fn hidden_lines_change_nothing(rt: HostRuntime) {
    let alone = reported(&rt, ALONE);
    assert!(rt; alone.as_slice() == PLAYER_REPORT.as_bytes());
    let beside = reported(&rt, BESIDE);
    assert!(rt; beside.as_slice() == PLAYER_REPORT.as_bytes());
}
