//! Of `match_script`: texts and their scripts or first faults, by the tables of docs/script.md.
use match_script::{MAX_THREAD_TICKS, ParseFault, ScriptFault, parse, parse_threads, print};
use std::alloc::{AllocError, Global};
use tn_types::NoMemory;

const MATCH: &str = "tribes 1\nmatch 1 1 100 128 1000\n";

fn first_fault(alloc: Global, text: &str) -> Option<(u32, ScriptFault)> {
    match parse(alloc, text.as_bytes()) {
        Err(ParseFault::Bad { line, fault }) => Some((line, fault)),
        _ => None,
    }
}

#[test]
fn header_faults(rt: HostRuntime) {
    for (text, line) in [
        ("", 1),
        ("tribes 3\n\t\n", 1),
        ("tribes 0\nmatch 1 1 100 128 1000\n", 1),
        ("tribes 12\nmatch 1 1 100 128 1000\n", 1),
        ("tribes 2\n", 2),
        ("tribes 1\n", 2),
        ("tribes 1\nmatch 4294967296 1 100 128 1000\n", 2),
        ("tribes 1\nmatch 1 0 100 128 1000\n", 2),
        ("tribes 1\nmatch 1 17 100 128 1000\n", 2),
        ("tribes 1\nmatch 1 1 0 128 1000\n", 2),
        ("tribes 1\nmatch 1 1 16777216 128 1000\n", 2),
        ("tribes 1\nmatch 1 1 100 127 1000\n", 2),
        ("tribes 1\nmatch 1 1 100 1201 1000\n", 2),
        ("tribes 1\nmatch 1 1 100 128 65536\n", 2),
        ("tribes 1\nmatch 1 1 100 128 1000", 3),
        ("tribes 1\nmatch 1 1 100 128 1000\nblock 6g\ngo\n", 3),
        (
            "tribes 1\nmatch 1 1 100 128 1000\nblock -\npost 0 u 61\n",
            4,
        ),
        (
            "tribes 1\nmatch 1 1 100 128 1000\nplayer 0 0 0 0 0\ngo\n",
            3,
        ),
        (
            "tribes 1\nmatch 1 1 100 128 1000\nblock -\nplayer 0 0 0 0 0\nplayer 0 0 0 0 0\ngo\n",
            5,
        ),
        (
            "tribes 1\nmatch 1 1 100 128 1000\nblock -\nspawn mine 0 0 0 0\nplayer 0 0 0 0 0\ngo\n",
            5,
        ),
        (
            "tribes 1\nmatch 1 1 100 128 1000\nblock -\nspawn disc 0 0 0 0\ngo\n",
            4,
        ),
        (
            "tribes 1\nmatch 1 1 100 128 1000\nblock -\nspawn mine 0 2 0 0\ngo\n",
            4,
        ),
        (
            "tribes 1\nmatch 1 1 100 128 1000\nblock -\nspawn mine 0 0 65536 0\ngo\n",
            4,
        ),
    ] {
        let want = Some((line, ScriptFault::BadHeader));
        assert!(rt; first_fault(rt.alloc(), text) == want);
    }
    for text in [
        "tribes 1\nmatch 0 1 1 128 0\ngo",
        "tribes 1\nmatch 4294967295 16 16777215 1200 65535\ngo\n",
        "tribes 2\nmatch 1 1 100 128 1000\ngo\n",
    ] {
        assert!(rt; first_fault(rt.alloc(), text).is_none());
    }
}

// A script with this body.
fn body_of(alloc: Global, line: &str) -> Result<String, AllocError> {
    let header = MATCH;
    format!(in alloc; "{header}go\n{line}")
}

#[test]
fn body_faults(rt: HostRuntime) {
    for (line, fault) in [
        ("pack\t0", ScriptFault::NotText),
        ("pack 0 ", ScriptFault::UnknownWord),
        ("post 99 x 6", ScriptFault::UnknownWord),
        ("tick 0", ScriptFault::UnknownWord),
        ("scan", ScriptFault::UnknownWord),
        ("scan 0 0", ScriptFault::UnknownWord),
        ("scan ", ScriptFault::BadNumber),
        ("scan 1", ScriptFault::OutOfRange),
        ("raw 0", ScriptFault::UnknownWord),
        ("raw 0 61 61", ScriptFault::UnknownWord),
        ("raw x 6", ScriptFault::BadNumber),
        ("raw 1 6", ScriptFault::OutOfRange),
        ("raw 0 ", ScriptFault::BadHex),
        ("raw 0 616", ScriptFault::BadHex),
        ("raw 0 --", ScriptFault::BadHex),
        ("down 0 00000000001", ScriptFault::BadNumber),
        ("down x 4294967296", ScriptFault::BadNumber),
        ("down 1 x", ScriptFault::OutOfRange),
        ("up 0 99999999999999999999999999", ScriptFault::OutOfRange),
        ("post 9 u 6", ScriptFault::OutOfRange),
        ("post 0 g 6", ScriptFault::BadHex),
        (
            "post 0 g x000000000000000000000000000000000000000000000000000",
            ScriptFault::BadHex,
        ),
        (
            "cpost 0 u 00000000000000000000000000000000000000000000000000",
            ScriptFault::OutOfRange,
        ),
        ("move 0 -9 x 0 0", ScriptFault::OutOfRange),
        ("move 0 -0 0 0 0", ScriptFault::BadNumber),
        ("move 0 0 8 x 0", ScriptFault::OutOfRange),
        ("move 0 0 0 0 2", ScriptFault::OutOfRange),
        ("pack 1\npack\t0", ScriptFault::OutOfRange),
    ] {
        let text = body_of(rt.alloc(), line).expect(&rt, "memory");
        let want = Some((4, fault));
        assert!(rt; first_fault(rt.alloc(), text.as_str()) == want);
    }
}

// A script whose only line hands the server so many bytes, of which the last is written like this.
fn raw_script(alloc: Global, count: usize, last: &str) -> Option<String> {
    let mut text = String::from_str(alloc, MATCH).ok()?;
    text.push_str("go\nraw 0 ").ok()?;
    for _ in 1..count {
        text.push_str("6a").ok()?;
    }
    text.push_str(last).ok()?;
    Some(text)
}

#[test]
fn bytes_of_a_datagram(rt: HostRuntime) {
    for (count, last, want) in [
        (1, "-", None),
        (1200, "fF", None),
        (1201, "fF", Some((4, ScriptFault::OutOfRange))),
        (1201, "fg", Some((4, ScriptFault::BadHex))),
        (1200, "f", Some((4, ScriptFault::BadHex))),
    ] {
        let text = raw_script(rt.alloc(), count, last).expect(&rt, "memory");
        assert!(rt; first_fault(rt.alloc(), text.as_str()) == want);
    }
}

const READ: &str = "tribes 1
match 1 1 100 128 1000
block 6A
block -
player 0 0 1 0 65535
spawn mine 1 0 1 2
spawn clock 0 1 0 0
go
tick
scan 0
world
post 0 g 6a6B
cpost 0 u -
pack 0
cpack 0
down 0 4294967295
up 0 0
raw 0 -
raw 0 00Ff7E
move 0 -8 7 1 0
show 0";

const PRINTED: &str = "tribes 1
match 1 1 100 128 1000
block 6a
block -
player 0 0 1 0 65535
spawn mine 1 0 1 2
spawn clock 0 1 0 0
go
tick
scan 0
world
post 0 g 6a6b
cpost 0 u -
pack 0
cpack 0
down 0 4294967295
up 0 0
raw 0 -
raw 0 00ff7e
move 0 -8 7 1 0
show 0
";

#[test]
fn printed_scripts_are_read_again(rt: HostRuntime) {
    let script = parse(rt.alloc(), READ.as_bytes())
        .ok()
        .expect(&rt, "no script");
    let got = print(rt.alloc(), &script).expect(&rt, "memory");
    let head = script.head.copy(rt.alloc()).expect(&rt, "memory");
    assert!(rt; got.as_slice() == PRINTED.as_bytes() && head.blocks.len() == 2);
}

// A text of the first header with so many lines `tick` and then this text.
fn behind_ticks(alloc: Global, ticks: u32, behind: &str) -> Result<Vec<u8>, AllocError> {
    let mut text = Vec::from_slice(alloc, MATCH.as_bytes())?;
    text.extend_from_slice("go\n".as_bytes())?;
    for _ in 0..ticks {
        text.extend_from_slice("tick\n".as_bytes())?;
    }
    text.extend_from_slice(behind.as_bytes())?;
    Ok(text)
}

// What a match in threads finds in a text.
fn found_in(alloc: Global, text: &[u8]) -> Result<Option<(u32, ScriptFault)>, NoMemory> {
    match parse_threads(alloc, text) {
        Ok(_) => Ok(None),
        Err(ParseFault::Bad { line, fault }) => Ok(Some((line, fault))),
        Err(ParseFault::NoMemory) => Err(NoMemory),
    }
}

#[test]
fn ticks_of_a_match_in_threads(rt: HostRuntime) {
    for (ticks, behind, fault) in [
        (MAX_THREAD_TICKS, "scan 0\n", None),
        (
            MAX_THREAD_TICKS + 1,
            "scan 1\n",
            Some((4100, ScriptFault::TooManyLines)),
        ),
        (
            MAX_THREAD_TICKS,
            "scan 1\ntick\n",
            Some((4100, ScriptFault::OutOfRange)),
        ),
    ] {
        let text = behind_ticks(rt.alloc(), ticks, behind).expect(&rt, "memory");
        assert!(rt; found_in(rt.alloc(), text.as_slice()) == Ok(fault));
    }
}
