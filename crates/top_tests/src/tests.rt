//! Whole calls: each command with what it writes and answers.

use crate::examples::EXAMPLES;
use crate::long_reports::LONG_REPORTS;
use crate::raw_rows::RAW_ROWS;
use crate::refusals::REFUSALS;
use crate::rows::ROWS;
use crate::served::{ALL, hold, served, writes, written_out};
use crate::version_examples::VERSION_EXAMPLES;
use crate::world_examples::WORLD_EXAMPLES;
use crate::world_rows::WORLD_ROWS;
use match_script::ScriptFault;
use script_input::{Status, exit_of};
use std::alloc::Global;

/// What the `pack 0` lines of both scripts of two clients print, whatever the other client does.
const PACKS_OF_CLIENT_0: &str = "pack 0 0 data 40000000000000000000000000800082300000
pack 0 1 data 800000400000400000000000000000010001803e803ef0ff00
";

/// The counts of a match of 8 clients, 60 objects and 5,000 lines, made of the number 7.
const LARGE_MATCH: &str = "big 7 8 5000
data 768
ping 0
down 668
old 273
events 207
moves 765
bytes 79075
";

// The same of all tables.
fn hold_all(rt: &HostRuntime) -> Result<(), &'static str> {
    hold(rt, &ROWS)?;
    hold(rt, &WORLD_ROWS)?;
    hold(rt, &RAW_ROWS)?;
    hold(rt, &VERSION_EXAMPLES)?;
    hold(rt, &EXAMPLES)?;
    hold(rt, &WORLD_EXAMPLES)
}

#[test]
fn reports(rt: HostRuntime) {
    hold_all(&rt).expect(&rt, "another report");
}

#[test]
fn long_reports(rt: HostRuntime) {
    for (_, script, report) in LONG_REPORTS {
        let script = written_out(rt.alloc(), script).expect(&rt, "memory");
        let report = written_out(rt.alloc(), report).expect(&rt, "memory");
        assert!(rt;
            writes(
                &rt,
                &["run"],
                script.as_bytes(),
                Status::Done,
                report.as_bytes()
            )
        );
    }
}

#[test]
fn refusals(rt: HostRuntime) {
    for (text, status) in REFUSALS {
        let text = written_out(rt.alloc(), text).expect(&rt, "memory");
        assert!(rt; writes(&rt, &["run"], text.as_bytes(), status, &[]));
    }
}

#[test]
fn isolation_of_two_clients(rt: HostRuntime) {
    for (_, script, _) in [WORLD_ROWS[6], WORLD_ROWS[7]] {
        let (text, packs) = (script.as_bytes(), PACKS_OF_CLIENT_0.as_bytes());
        assert!(rt; writes(&rt, &["alone", "0"], text, Status::Done, packs));
        assert!(rt; writes(&rt, &["alone", "5"], text, Status::Done, &[]));
    }
}

// Whether a call for which the first read and these writes fail answers and writes this.
fn answers(
    rt: &HostRuntime,
    words: &[&str],
    failing_writes: &[u64],
    status: Status,
    written: &[u8],
) -> bool {
    match served(rt, words, b"", ALL, &[0], failing_writes) {
        Ok((found, bytes)) => found == status && bytes.as_slice() == written,
        Err(_) => false,
    }
}

#[test]
fn large_match(rt: HostRuntime) {
    // No source is asked: it would fail.
    let counts = LARGE_MATCH.as_bytes();
    assert!(rt; answers(&rt, &["big", "7", "8", "5000"], &[], Status::Done, counts));
    assert!(rt; answers(&rt, &["big", "7", "8", "5"], &[0], Status::WriteFault, &[]));
}

#[test]
fn usage(rt: HostRuntime) {
    let cases: [(&[&str], u32); 18] = [
        (&[], 0),
        (&["walk"], 0),
        (&["--help"], 0),
        (&["run", "x"], 1),
        (&["alone"], 1),
        (&["alone", "16"], 1),
        (&["alone", "-1"], 1),
        (&["alone", "0", "x"], 2),
        (&["big"], 1),
        (&["big", "+7", "8", "9"], 1),
        (&["big", "4294967296", "8", "9"], 1),
        (&["big", "7", "08", "9"], 2),
        (&["big", "7", "0", "9"], 2),
        (&["big", "7", "17"], 2),
        (&["big", "7", "8"], 3),
        (&["big", "7", "8", "0"], 3),
        (&["big", "7", "8", "100001", "x"], 3),
        (&["big", "7", "8", "9", "x"], 4),
    ];
    for (words, place) in cases {
        assert!(rt; answers(&rt, words, &[0], Status::Usage(place), &[]));
    }
}

// Whether a status is told in these words.
fn is_told(alloc: Global, status: Status, words: &str) -> bool {
    match format!(in alloc; "{status}") {
        Ok(said) => said.as_str() == words,
        Err(_) => false,
    }
}

#[test]
fn exit_statuses_and_words(rt: HostRuntime) {
    for (status, exit, words) in [
        (Status::Done, 0, ""),
        (Status::Usage(1), 2, "usage 1"),
        (
            Status::Script(4, ScriptFault::NotText),
            3,
            "script 4 NotText",
        ),
        (
            Status::Script(100_067, ScriptFault::TooManyLines),
            3,
            "script 100067 TooManyLines",
        ),
        (Status::TooLong, 4, "toolong"),
        (Status::ReadFault, 5, "readfault"),
        (Status::WriteFault, 6, "writefault"),
        (Status::NoMemory, 7, "nomemory"),
    ] {
        assert!(rt; exit_of(status) == exit && is_told(rt.alloc(), status, words));
    }
}
