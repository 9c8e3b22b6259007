//! Lines that were worked out by hand, words that are no command, texts that are no script, and a source and a sink that fail.

use crate::served::served;
use match_script::ScriptFault;
use script_input::Status;

// A player is shown to its client, samples two moves, and the server takes both.
const TWO_MOVES: &str = "tribes 1
match 1 1 100 128 100
block 61
player 0 0 0 1000 1000
go
scan 0
pack 0
down 0 0
cpack 0
up 0 0
pack 0
down 0 1
cpack 0
up 0 1
show 0
pack 0
down 0 2
move 0 2 0 0 0
move 0 0 -1 1 0
show 0
cpack 0
up 0 2
tick
tick
show 0
world
";

// What is predicted of it.
const PREDICTED: &str = "predict 0 -
predict 0 1050 975 19 0 0
predict 0 1050 975 19 0 0
";

// Whether a call over a source and a sink of so many bytes a call, of which these calls fail, answers this and writes this.
fn writes(
    rt: &HostRuntime,
    words: &[&str],
    text: &str,
    (most, failing_reads, failing_writes): (usize, &[u64], &[u64]),
    (status, written): (Status, &[u8]),
) -> bool {
    if most == 0 {
        return false;
    }
    match served(
        rt,
        words,
        text.as_bytes(),
        most,
        failing_reads,
        failing_writes,
    ) {
        Ok((answer, bytes)) => answer == status && bytes.as_slice() == written,
        Err(_) => false,
    }
}

// Nothing fails.
const ALL: (usize, &[u64], &[u64]) = (4096, &[], &[]);

#[test]
fn predicted_as_accepted(rt: HostRuntime) {
    let told = (Status::Done, PREDICTED.as_bytes());
    assert!(rt; writes(&rt, &["predict", "0"], TWO_MOVES, ALL, told));
}

#[test]
fn nothing_for_nobody(rt: HostRuntime) {
    assert!(rt; writes(&rt, &["predict", "1"], TWO_MOVES, ALL, (Status::Done, &[])));
}

#[test]
fn words_that_are_no_command(rt: HostRuntime) {
    for (words, place) in [
        (&[] as &[&str], 0),
        (&["predicts"], 0),
        (&["predict"], 1),
        (&["predict", "16"], 1),
        (&["predict", "00"], 1),
        (&["predict", "+1"], 1),
        (&["predict", "x"], 1),
        (&["predict", "0", "0"], 2),
    ] {
        let usage = (Status::Usage(place), b"".as_slice());
        assert!(rt; writes(&rt, words, TWO_MOVES, (4096, &[0], &[0]), usage));
    }
}

#[test]
fn texts_that_are_no_script(rt: HostRuntime) {
    for (text, line, fault) in [
        ("", 1, ScriptFault::BadHeader),
        (
            "tribes 1\nmatch 1 1 100 128 100\ngo\nshow 1\n",
            4,
            ScriptFault::OutOfRange,
        ),
        (
            "tribes 1\nmatch 1 1 100 128 100\ngo\nshow 0\nshows 0\n",
            5,
            ScriptFault::UnknownWord,
        ),
    ] {
        let refused = (Status::Script(line, fault), b"".as_slice());
        assert!(rt; writes(&rt, &["predict", "0"], text, ALL, refused));
    }
}

#[test]
fn outside_that_fails(rt: HostRuntime) {
    let words = ["predict", "0"];
    // short reads and short writes change nothing
    let whole = (Status::Done, PREDICTED.as_bytes());
    assert!(rt; writes(&rt, &words, TWO_MOVES, (3, &[], &[]), whole));
    // a read in midstream
    let nothing = (Status::ReadFault, b"".as_slice());
    assert!(rt; writes(&rt, &words, TWO_MOVES, (100, &[2], &[]), nothing));
    // the second write, of 10 bytes
    let cut = (Status::WriteFault, b"predict 0 ".as_slice());
    assert!(rt; writes(&rt, &words, TWO_MOVES, (10, &[], &[1]), cut));
}
