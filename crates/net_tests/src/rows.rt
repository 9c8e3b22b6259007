//! Rows of what comes over a link, and of what is sent and written.

use crate::served::{NONE, came, is_done, is_left, served, was_sent};
use script_input::{Status, exit_of};
use std::alloc::{AllocError, Global};
use tn_outside::{Arrival, Sending};

pub(crate) const HELLO: [u8; 5] = [2, 1, 0, 0, 0];

pub(crate) const OTHER_HELLO: [u8; 5] = [2, 2, 0, 0, 0];

/// The welcome of the first client for the first of these hellos.
pub(crate) const WELCOME: &str = "030100000000ffffff900101";

// The first datagram of client 0: it carries the guaranteed event `hi` and the unguaranteed one `no`.
const FIRST: [u8; 24] = [
    0x40, 0, 0, 0, 0, 0, 0, 0, 0, 0, 0, 0, 0, 0, 0x20, 0x02, 0, 0, 0x08, 0xb4, 0x34, 0xc2, 0xed,
    0x0d,
];

// Whether these datagrams were sent to peers from this to that number.
fn went_to(sent: &[Sending], first: u32, last: u32) -> bool {
    for sending in sent {
        if sending.peer.number < first || last < sending.peer.number {
            return false;
        }
    }
    true
}

#[test]
fn one_hello(rt: HostRuntime) {
    let arrivals = [came(5, &HELLO)];
    let s = served(&rt, &["serve", "7", "1", "1"], &arrivals, &[0], NONE).expect(&rt, "memory");
    assert!(rt; is_done(&s, b"go\ntick\nscan 0\npack 0\n", 2));
    assert!(rt; was_sent(rt.alloc(), &s.sent, 0, 5, WELCOME) && went_to(&s.sent, 5, 5));
}

#[test]
fn hello_comes_again(rt: HostRuntime) {
    let arrivals = [
        came(5, &HELLO),
        came(6, &OTHER_HELLO),
        came(5, &OTHER_HELLO),
    ];
    let s = served(&rt, &["serve", "7", "1", "1"], &arrivals, &[0], NONE).expect(&rt, "memory");
    assert!(rt; is_done(&s, b"", 3) && went_to(&s.sent, 5, 5));
    assert!(rt; was_sent(rt.alloc(), &s.sent, 0, 5, WELCOME));
    assert!(rt; was_sent(rt.alloc(), &s.sent, 1, 5, WELCOME));
}

// A hello of each of twenty peers.
fn twenty_hellos<'a>(alloc: Global) -> Result<Vec<Arrival<'a>>, AllocError> {
    let mut arrivals = Vec::new(alloc);
    for number in 100..120 {
        arrivals.push(came(number, &HELLO))?;
    }
    Ok(arrivals)
}

#[test]
fn many_hellos(rt: HostRuntime) {
    let arrivals = twenty_hellos(rt.alloc()).expect(&rt, "memory");
    let s = served(&rt, &["serve", "7", "16", "1"], &arrivals, &[0], NONE).expect(&rt, "memory");
    // a welcome and a datagram for each of sixteen
    assert!(rt; is_done(&s, b"", 32) && went_to(&s.sent, 100, 115));
}

#[test]
fn nobody_says_hello(rt: HostRuntime) {
    let s = served(&rt, &["serve", "7", "1", "3"], &[], &[0, 200], NONE).expect(&rt, "memory");
    assert!(rt; is_done(&s, b"go\ntick\ntick\ntick\n", 0));
}

// The datagrams are those of a model of the rules in Python.
#[test]
fn event_is_posted_on(rt: HostRuntime) {
    let arrivals = [
        came(5, &HELLO),
        came(6, &OTHER_HELLO),
        came(5, &FIRST),
        Arrival::Pause,
        came(7, &FIRST),
        came(5, &[3]),
        came(5, &[]),
        came(5, &FIRST),
    ];
    let times = [0, 10, 60, 60];
    let s = served(&rt, &["serve", "7", "2", "2"], &arrivals, &times, NONE).expect(&rt, "memory");
    let end =
        b"go\nraw 0 40000000000000000000000000002002000008b434c2ed0d\npost 1 g 6869\ntick\nscan 0\npack 0\nscan 1\npack 1\n\
raw 0 40000000000000000000000000002002000008b434c2ed0d\ntick\nscan 0\npack 0\nscan 1\npack 1\n";
    assert!(rt; is_done(&s, end, 6));
    for (place, number, hex) in [
        (0, 5, WELCOME),
        (1, 6, "030200000001ffffff900101"),
        (
            2,
            5,
            "400000400000400000000000000002100000000000000080000908080808080808101001010101010101810119181818181818180000",
        ),
        (
            3,
            6,
            "4400000000000000000000000000021000000000000000800009080808080808081010010101010101018101191818181818181808010000045a1a00",
        ),
        (4, 5, "80000040000040000000000000000000"),
        (5, 6, "84000000000000000000000000000000"),
    ] {
        assert!(rt; was_sent(rt.alloc(), &s.sent, place, number, hex));
    }
}

#[test]
fn usage(rt: HostRuntime) {
    let rows: [(&[&str], u32); 15] = [
        (&[], 0),
        (&["run"], 0),
        (&["join"], 1),
        (&["join", "0"], 1),
        (&["join", "100001"], 1),
        (&["join", "5", "5"], 2),
        (&["joins", "5"], 0),
        (&["serve"], 1),
        (&["serve", "07", "1", "1"], 1),
        (&["serve", "7", "0", "1"], 2),
        (&["serve", "7", "17", "1"], 2),
        (&["serve", "7", "1", "0"], 3),
        (&["serve", "7", "1", "100001"], 3),
        (&["serve", "7", "1"], 3),
        (&["serve", "7", "1", "1", "x"], 4),
    ];
    let arrivals = [came(5, &HELLO)];
    for (words, place) in rows {
        let s = served(&rt, words, &arrivals, &[0], NONE).expect(&rt, "memory");
        assert!(rt; is_left(&s, Status::Usage(place), b"", 0));
    }
}

// Whether a status is told in these words.
fn is_told(alloc: Global, status: Status, words: &str) -> bool {
    match format!(in alloc; "{status}") {
        Ok(said) => said.as_str() == words,
        Err(_) => false,
    }
}

#[test]
fn statuses_of_link_clock_and_demo(rt: HostRuntime) {
    for (status, exit, words) in [
        (Status::LinkFault, 8, "linkfault"),
        (Status::ClockFault, 9, "clockfault"),
        (Status::Demo(11), 10, "demo 11"),
    ] {
        assert!(rt; exit_of(status) == exit && is_told(rt.alloc(), status, words));
    }
}
