//! Demos and replays whose bytes and texts were worked out by hand or by a second program.

ghost use Rattle.std.specs.Prelude.{◌<◌};

use crate::served::{ALL, served, writes};
use script_input::Status;

/// A script of one event for a client that takes it.
const FIRST_EVENT: &str = "tribes 1
match 1 1 100 128 1000
go
post 0 g 6869
pack 0
down 0 0
show 0
";

/// The demo of its client: the head, the datagram of `pack 0`, the end.
const FIRST_DEMO: [u8; 37] = [
    0x54, 0x4e, 0x44, 0x31, 0, 1, 100, 0, 0, 128, 0, 22, 0, 0x40, 0, 0, 0, 0, 0, 0, 0, 0, 0, 0, 0,
    0, 0, 8, 1, 0, 0, 4, 0x5a, 0x1a, 0, 0, 0,
];

/// The same in version 2, and its demo.
const FIRST_EVENT_2: &str = "tribes 2
match 1 1 100 128 1000
go
post 0 g 6869
pack 0
down 0 0
show 0
";

const FIRST_DEMO_2: [u8; 35] = [
    0x54, 0x4e, 0x44, 0x31, 0, 2, 100, 0, 0, 128, 0, 20, 0, 0x40, 0, 0, 0, 0, 0, 0, 0, 0, 0, 0, 0,
    0, 0, 8, 1, 2, 0x2d, 0x0d, 0, 0, 0,
];

/// A demo of a client that is shown two objects. A record is of another client, one comes twice, and one spells nothing.
const WHOLE: [u8; 195] = [
    84, 78, 68, 49, 0, 1, 100, 0, 0, 128, 0, 26, 0, 64, 0, 0, 0, 0, 0, 0, 0, 0, 0, 0, 0, 0, 128, 0,
    130, 48, 17, 0, 0, 64, 160, 165, 9, 7, 0, 26, 0, 68, 0, 0, 0, 0, 0, 0, 0, 0, 0, 0, 0, 0, 128,
    0, 130, 48, 17, 0, 0, 64, 160, 165, 9, 7, 0, 32, 0, 128, 0, 0, 64, 0, 0, 64, 0, 0, 0, 0, 0, 0,
    0, 0, 2, 0, 1, 128, 62, 128, 62, 240, 255, 0, 1, 9, 192, 68, 128, 62, 0, 32, 0, 128, 0, 0, 64,
    0, 0, 64, 0, 0, 0, 0, 0, 0, 0, 0, 2, 0, 1, 128, 62, 128, 62, 240, 255, 0, 1, 9, 192, 68, 128,
    62, 0, 1, 0, 2, 32, 0, 0, 1, 0, 0, 1, 0, 192, 3, 0, 0, 128, 0, 0, 64, 0, 8, 3, 0, 0, 128, 0,
    128, 16, 208, 7, 4, 18, 128, 137, 0, 125, 0, 19, 0, 64, 1, 0, 64, 1, 0, 192, 7, 0, 0, 128, 0,
    0, 64, 0, 0, 1, 1, 0, 0, 0,
];

/// The demo of a client of a match.
pub(crate) fn whole() -> &'static [u8] {
    WHOLE.as_slice()
}

/// So many bytes of the demo, the words, and the text.
const ROWS: [(usize, &[&str], &str); 8] = [
    (
        195,
        &["replay"],
        "take 0 ok g:6869 u:07\ntake 1 client 1\ntake 2 ok\ntake 3 old 2 2\ntake 4 bits 0 KindBits\ntake 5 ok g:-\ntake 6 ok\nend events 2 ghosts 2 | 0 player 0 1000 1000 100 20 0 | 2 mine 0 1100 1000 0\n",
    ),
    (
        194,
        &["replay"],
        "take 0 ok g:6869 u:07\ntake 1 client 1\ntake 2 ok\ntake 3 old 2 2\ntake 4 bits 0 KindBits\ntake 5 ok g:-\ntake 6 ok\ncut events 2 ghosts 2 | 0 player 0 1000 1000 100 20 0 | 2 mine 0 1100 1000 0\n",
    ),
    (
        60,
        &["replay"],
        "take 0 ok g:6869 u:07\ncut events 1 ghosts 0\n",
    ),
    (11, &["replay"], "cut events 0 ghosts 0\n"),
    (195, &["replay", "0"], "at events 0 ghosts 0\n"),
    (
        195,
        &["replay", "3"],
        "at events 1 ghosts 2 | 0 player 0 1000 1000 100 20 0 | 1 mine 0 1100 1000 0\n",
    ),
    (
        195,
        &["replay", "99"],
        "at events 2 ghosts 2 | 0 player 0 1000 1000 100 20 0 | 2 mine 0 1100 1000 0\n",
    ),
    (
        195,
        &["replay", "16777215"],
        "at events 2 ghosts 2 | 0 player 0 1000 1000 100 20 0 | 2 mine 0 1100 1000 0\n",
    ),
];

#[test]
fn demo_of_first_event(rt: HostRuntime) {
    let (first, second) = (FIRST_EVENT.as_bytes(), FIRST_EVENT_2.as_bytes());
    assert!(rt; writes(&rt, &["demo", "0"], first, Status::Done, &FIRST_DEMO));
    assert!(rt; writes(&rt, &["demo", "0"], second, Status::Done, &FIRST_DEMO_2));
    // the match has no such client
    assert!(rt; writes(&rt, &["demo", "1"], first, Status::Done, &[]));
}

#[test]
fn replay_of_first_event(rt: HostRuntime) {
    let text = b"take 0 ok g:6869\nend events 1 ghosts 0\n";
    assert!(rt; writes(&rt, &["replay"], &FIRST_DEMO, Status::Done, text));
    assert!(rt; writes(&rt, &["replay"], &FIRST_DEMO_2, Status::Done, text));
    let (front, _) = FIRST_DEMO.as_slice().split_at(20);
    assert!(rt;
        writes(
            &rt,
            &["replay"],
            front,
            Status::Done,
            b"cut events 0 ghosts 0\n"
        )
    );
}

#[test]
fn replays(rt: HostRuntime) {
    for (count, words, want) in ROWS {
        let (bytes, _) = WHOLE.as_slice().split_at(count.min(WHOLE.len()));
        assert!(rt; writes(&rt, words, bytes, Status::Done, want.as_bytes()));
    }
}

/// Bytes that begin with no head, and the place of their fault.
const HEADLESS: [(&[u8], u32); 8] = [
    (b"", 0),
    (b"TND2", 0),
    (b"TND1", 4),
    (b"TND1\x10\x01\x64\x00\x00\x80\x00", 4),
    (b"TND1\x0f", 5),
    (b"TND1\x0f\x03\x64\x00\x00\x80\x00", 5),
    (b"TND1\x0f\x02\x00\x00\x00\x80\x00", 6),
    (b"TND1\x0f\x02\x01\x00\x00\x7f\x00", 9),
];

#[test]
fn no_head(rt: HostRuntime) {
    for (bytes, place) in HEADLESS {
        let status = Status::Demo(place);
        assert!(rt; writes(&rt, &["replay"], bytes, status, &[]));
        assert!(rt; writes(&rt, &["replay", "7"], bytes, status, &[]));
    }
}

/// Words that are no command, and the place where they stop being one.
const USAGE: [(&[&str], u32); 9] = [
    (&[], 0),
    (&["demos"], 0),
    (&["demo"], 1),
    (&["demo", "16"], 1),
    (&["demo", "0", "x"], 2),
    (&["replay", "end"], 1),
    (&["replay", "16777216"], 1),
    (&["replay", "07"], 1),
    (&["replay", "7", "8"], 2),
];

#[test]
fn usage(rt: HostRuntime) {
    for (words, place) in USAGE {
        assert!(rt; writes(&rt, words, &FIRST_DEMO, Status::Usage(place), &[]));
    }
}

// Whether a call over a source and a sink of which these calls fail answers this and writes this.
fn fails(
    rt: &HostRuntime,
    words: &[&str],
    input: &[u8],
    most: usize,
    failing_reads: &[u64],
    failing_writes: &[u64],
    status: Status,
    text: &[u8],
) -> bool
    requires { 0 < most }
{
    match served(rt, words, input, most, failing_reads, failing_writes) {
        Ok((answer, bytes)) => answer == status && bytes.as_slice() == text,
        Err(_) => false,
    }
}

#[test]
fn faults_of_the_outside(rt: HostRuntime) {
    let (replay, demo) = (["replay"], ["demo", "0"]);
    assert!(rt; fails(&rt, &replay, &WHOLE, 7, &[3], &[], Status::ReadFault, &[]));
    // the third line can't be written
    let two = b"take 0 ok g:6869 u:07\ntake 1 client 1\n";
    assert!(rt;
        fails(
            &rt,
            &replay,
            &WHOLE,
            ALL,
            &[],
            &[2],
            Status::WriteFault,
            two
        )
    );
    // a demo's head is written first, then the one record, then the end
    let (front, _) = FIRST_DEMO.as_slice().split_at(11);
    let first = FIRST_EVENT.as_bytes();
    assert!(rt; fails(&rt, &demo, first, ALL, &[], &[1], Status::WriteFault, front));
    assert!(rt; fails(&rt, &demo, first, 5, &[], &[], Status::Done, &FIRST_DEMO));
}
