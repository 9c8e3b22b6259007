//! Rows of one who joins: hellos until a welcome comes, and then a client's own datagrams.

use crate::failing::{Part, failing};
use crate::served::{NONE, came, is_left, served, was_sent};
use script_input::Status;
use tn_outside::Arrival;

// A hello, where the clock stands at 0.
const HELLO: &str = "0200000000";

// The welcome of client 0 for it: LIFE 1,000, SIZE 400, version 1; and of version 2.
const WELCOME: [u8; 12] = [3, 0, 0, 0, 0, 0, 0xe8, 3, 0, 0x90, 1, 1];

const WELCOME_2: [u8; 12] = [3, 0, 0, 0, 0, 0, 0xe8, 3, 0, 0x90, 1, 2];

// The client's first two packets, each with all moves that were not acknowledged: (1, 5) and (1, -5), as the generator draws them.
const FIRST: &str = "4000000000000000000000000040900d00";

const SECOND: &str = "8000000000000000000000000080904d0e00";

// A first packet of the server with the guaranteed event `hi`, in either version.
const EVENT: [u8; 22] = [
    0x40, 0, 0, 0, 0, 0, 0, 0, 0, 0, 0, 0, 0, 0, 8, 1, 0, 0, 4, 0x5a, 0x1a, 0,
];

const EVENT_2: [u8; 20] = [
    0x40, 0, 0, 0, 0, 0, 0, 0, 0, 0, 0, 0, 0, 0, 8, 1, 2, 0x2d, 0x0d, 0,
];

/// What one tells who was welcomed and took no event.
const NO_EVENT: &[u8] = b"join 0 events 0 ghosts 0\n";

#[test]
fn nobody_welcomes(rt: HostRuntime) {
    let s = served(&rt, &["join", "1"], &[], &[0], NONE).expect(&rt, "memory");
    assert!(rt; is_left(&s, Status::Done, b"join none\n", 1));
    assert!(rt; was_sent(rt.alloc(), &s.sent, 0, 0, HELLO));
}

// The nonce is the clock's answer at the start, modulo 2^32.
#[test]
fn nonce_of_a_hello(rt: HostRuntime) {
    let times = [4_294_967_301, 4_294_967_400];
    let s = served(&rt, &["join", "2"], &[], &times, NONE).expect(&rt, "memory");
    assert!(rt; is_left(&s, Status::Done, b"join none\n", 2));
    assert!(rt; was_sent(rt.alloc(), &s.sent, 1, 0, "0205000000"));
}

#[test]
fn first_welcome_counts(rt: HostRuntime) {
    let arrivals = [came(0, &WELCOME), came(0, &WELCOME_2)];
    let s = served(&rt, &["join", "2"], &arrivals, &[0, 0, 50], NONE).expect(&rt, "memory");
    assert!(rt; is_left(&s, Status::Done, NO_EVENT, 2));
    assert!(rt; was_sent(rt.alloc(), &s.sent, 0, 0, FIRST));
    assert!(rt; was_sent(rt.alloc(), &s.sent, 1, 0, SECOND));
}

#[test]
fn what_is_no_welcome(rt: HostRuntime) {
    let rows: [(u32, &[u8]); 9] = [
        (0, &[3, 1, 0, 0, 0, 0, 0xe8, 3, 0, 0x90, 1, 1]),
        (1, &WELCOME),
        (0, &[2, 0, 0, 0, 0, 0, 0xe8, 3, 0, 0x90, 1, 1]),
        (0, &[3, 0, 0, 0, 0, 16, 0xe8, 3, 0, 0x90, 1, 1]),
        (0, &[3, 0, 0, 0, 0, 0, 0, 0, 0, 0x90, 1, 1]),
        (0, &[3, 0, 0, 0, 0, 0, 0xe8, 3, 0, 0x7f, 0, 1]),
        (0, &[3, 0, 0, 0, 0, 0, 0xe8, 3, 0, 0xb1, 4, 1]),
        (0, &[3, 0, 0, 0, 0, 0, 0xe8, 3, 0, 0x90, 1, 3]),
        (0, &[3, 0, 0, 0, 0, 0, 0xe8, 3, 0, 0x90, 1, 1, 0]),
    ];
    for (number, bytes) in rows {
        let arrivals = [came(number, bytes), came(0, &EVENT)];
        let s = served(&rt, &["join", "1"], &arrivals, &[0], NONE).expect(&rt, "memory");
        assert!(rt; is_left(&s, Status::Done, b"join none\n", 1));
        assert!(rt; was_sent(rt.alloc(), &s.sent, 0, 0, HELLO));
    }
}

// Whether one who joins tells this where these two datagrams come in turn.
fn tells(rt: &HostRuntime, first: Arrival<'_>, second: Arrival<'_>, text: &[u8]) -> bool {
    let arrivals = [first, second];
    match served(rt, &["join", "1"], &arrivals, &[0], NONE) {
        Ok(s) => is_left(&s, Status::Done, text, 1),
        Err(_) => false,
    }
}

// What comes before the welcome, from another peer, a second time or with a wrong head changes nothing.
#[test]
fn events_of_either_version(rt: HostRuntime) {
    let datagrams: [(&[u8], &[u8]); 2] = [(&WELCOME, &EVENT), (&WELCOME_2, &EVENT_2)];
    for (welcome, event) in datagrams {
        let one = b"join 0 events 1 ghosts 0\n";
        let welcomed = came(0, welcome);
        assert!(rt; tells(&rt, welcomed, came(0, event), one));
        assert!(rt; tells(&rt, came(0, event), welcomed, NO_EVENT));
        assert!(rt; tells(&rt, welcomed, came(1, event), NO_EVENT));
        assert!(rt; tells(&rt, welcomed, came(0, &[0x44, 0]), NO_EVENT));
    }
}

#[test]
fn joining_fails(rt: HostRuntime) {
    let arrivals = [came(0, &WELCOME), Arrival::Pause, came(0, &EVENT)];
    for (part, call, status, sent) in [
        (Part::Sends, 1, Status::LinkFault, 1),
        (Part::Receives, 1, Status::LinkFault, 0),
        (Part::Times, 1, Status::ClockFault, 0),
        (Part::Writes, 0, Status::WriteFault, 2),
    ] {
        let calls = [call];
        let s = served(
            &rt,
            &["join", "2"],
            &arrivals,
            &[0, 0, 50],
            failing(part, &calls),
        )
        .expect(&rt, "memory");
        assert!(rt; is_left(&s, status, b"", sent));
    }
}
