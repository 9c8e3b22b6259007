//! Texts and their relay scripts or first faults, by the tables of docs/relay.md.
use match_script::{MAX_BODY_LINES, ParseFault, ScriptFault};
use relay_script::{RelayLine, parse_relay};
use std::alloc::{AllocError, Global};

// A header of two clients, after a first line.
const HEADER: &str = "tribes 1\nmatch 1 2 100 128 1000\nblock 61\nplayer 0 0 0 5 5\ngo\n";

fn first_fault(alloc: Global, text: &[u8]) -> Option<(u32, ScriptFault)> {
    match parse_relay(alloc, text) {
        Err(ParseFault::Bad { line, fault }) => Some((line, fault)),
        _ => None,
    }
}

// The header after this line.
fn first_line(alloc: Global, line: &str) -> Result<String, AllocError> {
    format!(in alloc; "{line}\n{HEADER}")
}

#[test]
fn first_lines(rt: HostRuntime) {
    for (line, fault) in [
        ("relay 0 1", None),
        ("relay 1 16", None),
        ("relay 2 1", Some(ScriptFault::BadHeader)),
        ("relay 0 0", Some(ScriptFault::BadHeader)),
        ("relay 0 17", Some(ScriptFault::BadHeader)),
        ("relay 00 1", Some(ScriptFault::BadHeader)),
        ("relay 0", Some(ScriptFault::BadHeader)),
        ("relay 0 1 ", Some(ScriptFault::BadHeader)),
        ("relays 0 1", Some(ScriptFault::BadHeader)),
        ("r scan 0", Some(ScriptFault::BadHeader)),
        ("relay\t0 1", Some(ScriptFault::NotText)),
    ] {
        let text = first_line(rt.alloc(), line).expect(&rt, "memory");
        let want = match fault {
            Some(fault) => Some((1, fault)),
            None => None,
        };
        assert!(rt; first_fault(rt.alloc(), text.as_bytes()) == want);
    }
}

#[test]
fn headers(rt: HostRuntime) {
    for (text, line) in [
        ("", 1),
        ("relay 0 1", 2),
        ("relay 0 1\ntribes 3\n", 2),
        // the third line says how many clients there are, also where the second one is at fault
        ("relay 1 1\ntribes 1\nmatch 1 1 100 128 1000\ngo\n", 1),
        ("relay 1 1\ntribes 3\nmatch 1 1 100 128 1000\ngo\n", 1),
        ("relay 0 1\ntribes 3\nmatch 1 1 100 128 1000\ngo\n", 2),
        // a third line that is no `match` line says nothing of it
        ("relay 15 1\ntribes 1\nmatch 1 1 100 127 1000\ngo\n", 3),
        ("relay 16 1\ntribes 1\nmatch 1 1 100 127 1000\ngo\n", 1),
        ("relay 15 1\ntribes 1\n", 3),
        // no relay line stands before `go`
        (
            "relay 0 1\nr scan 0\ntribes 1\nmatch 1 1 100 128 1000\ngo\n",
            2,
        ),
        (
            "relay 0 1\ntribes 1\nr scan 0\nmatch 1 1 100 128 1000\ngo\n",
            3,
        ),
        (
            "relay 0 1\ntribes 1\nmatch 1 1 100 128 1000\nr scan 0\ngo\n",
            4,
        ),
        (
            "relay 0 1\ntribes 1\nmatch 1 1 100 128 1000\nblock -\nr scan 0\ngo\n",
            5,
        ),
        ("relay 0 1\ntribes 1\nmatch 1 1 100 128 1000\nblock -\n", 5),
    ] {
        let want = Some((line, ScriptFault::BadHeader));
        assert!(rt; first_fault(rt.alloc(), text.as_bytes()) == want);
    }
}

// A text whose ninth line is this, and whose tenth is none.
fn body_line(alloc: Global, line: &str) -> Result<String, AllocError> {
    format!(in alloc; "relay 0 2\n{HEADER}tick\nr show 0\n{line}\nbad\n")
}

#[test]
fn lines_of_the_body(rt: HostRuntime) {
    for (line, fault) in [
        ("r scan 1", None),
        ("r pack 0", None),
        ("r cpack 0", None),
        ("r down 0 4294967295", None),
        ("r up 1 0", None),
        ("r show 1", None),
        ("r scan 2", Some(ScriptFault::OutOfRange)),
        ("r scan x", Some(ScriptFault::BadNumber)),
        ("r scan 01", Some(ScriptFault::BadNumber)),
        ("r down 0 4294967296", Some(ScriptFault::OutOfRange)),
        ("r down 2 x", Some(ScriptFault::OutOfRange)),
        ("r up x 4294967296", Some(ScriptFault::BadNumber)),
        ("r scan", Some(ScriptFault::UnknownWord)),
        ("r scan 0 0", Some(ScriptFault::UnknownWord)),
        ("r down 0", Some(ScriptFault::UnknownWord)),
        ("r tick", Some(ScriptFault::UnknownWord)),
        ("r post 9 g zz", Some(ScriptFault::UnknownWord)),
        ("r move 0 0 0 0 0", Some(ScriptFault::UnknownWord)),
        ("r raw 0 -", Some(ScriptFault::UnknownWord)),
        ("r world", Some(ScriptFault::UnknownWord)),
        ("r ", Some(ScriptFault::UnknownWord)),
        ("r", Some(ScriptFault::UnknownWord)),
        ("r  scan 0", Some(ScriptFault::UnknownWord)),
        (" r scan 0", Some(ScriptFault::UnknownWord)),
        ("R scan 0", Some(ScriptFault::UnknownWord)),
        ("r scan\t0", Some(ScriptFault::NotText)),
        ("show 1", None),
        ("show 2", Some(ScriptFault::OutOfRange)),
    ] {
        let text = body_line(rt.alloc(), line).expect(&rt, "memory");
        let want = match fault {
            Some(fault) => Some((9, fault)),
            None => Some((10, ScriptFault::UnknownWord)),
        };
        assert!(rt; first_fault(rt.alloc(), text.as_bytes()) == want);
    }
}

// So many lines after `go`, every second one the relay's.
fn long_text(alloc: Global, lines: u32) -> Result<Vec<u8>, AllocError> {
    let mut text = Vec::new(alloc);
    text.extend_from_slice(b"relay 0 1\n")?;
    text.extend_from_slice(HEADER.as_bytes())?;
    for k in 0..lines {
        let line = if k % 2 == 0 { "tick\n" } else { "r show 0\n" };
        text.extend_from_slice(line.as_bytes())?;
    }
    Ok(text)
}

// How many lines of both kinds a relay script has.
fn counts(alloc: Global, text: &[u8]) -> Option<[usize; 2]> {
    match parse_relay(alloc, text) {
        Ok(script) => Some([script.script.body.len(), script.lines.len()]),
        Err(_) => None,
    }
}

#[test]
fn lines_of_both_count(rt: HostRuntime) {
    let full = long_text(rt.alloc(), MAX_BODY_LINES).expect(&rt, "memory");
    assert!(rt; counts(rt.alloc(), full.as_slice()) == Some([50_000, 50_000]));
}

#[test]
fn one_line_too_many(rt: HostRuntime) {
    let long = long_text(rt.alloc(), MAX_BODY_LINES + 2).expect(&rt, "memory");
    let want = Some((100_007, ScriptFault::TooManyLines));
    assert!(rt; first_fault(rt.alloc(), long.as_slice()) == want);
}

// Four lines of the relay among four of the match.
fn mixed(alloc: Global) -> Result<String, AllocError> {
    format!(in alloc;
        "relay 1 3\n{HEADER}r show 2\nscan 0\npack 0\nr scan 0\nr pack 1\ndown 0 0\nworld\nr up 2 7"
    )
}

#[test]
fn each_line_stands_behind_its_own(rt: HostRuntime) {
    let text = mixed(rt.alloc()).expect(&rt, "memory");
    let script = parse_relay(rt.alloc(), text.as_bytes())
        .ok()
        .expect(&rt, "no relay script");
    assert!(rt; script.script.body.len() == 4 && script.client == 1 && script.spectators == 3);
    let want = [
        (0, RelayLine::Show { spectator: 2 }),
        (2, RelayLine::Scan { spectator: 0 }),
        (2, RelayLine::Pack { spectator: 1 }),
        (
            4,
            RelayLine::Up {
                spectator: 2,
                packet: 7,
            },
        ),
    ];
    assert!(rt; script.lines.len() == want.len());
    for (placed, (behind, line)) in script.lines.as_slice().iter().zip(want) {
        assert!(rt; placed.behind == behind && placed.line == line);
    }
}
