//! A link, a clock or a sink that fails in its turn, and a clock that goes back.

use crate::rows::{HELLO, OTHER_HELLO, WELCOME};
use crate::served::{Failing, Left, NONE, came, is_done, is_front, served, was_sent};
use script_input::Status;
use std::alloc::AllocError;
use tn_outside::Arrival;

const WORDS: [&str; 4] = ["serve", "7", "2", "3"];

// Time for three turns.
const TIMES: [u64; 4] = [1_000, 1_000, 1_060, 1_120];

// Two hellos, a datagram, and pauses.
fn serve_failing(rt: &HostRuntime, failing: Failing<'_>) -> Result<Left, AllocError> {
    let arrivals = [
        came(5, &HELLO),
        came(6, &OTHER_HELLO),
        Arrival::Pause,
        came(5, &[0, 0]),
        Arrival::Pause,
    ];
    served(rt, &WORDS, &arrivals, &TIMES, failing)
}

/// What of the outside fails.
#[derive(Clone, Copy)]
pub(crate) enum Part {
    Sends,
    Receives,
    Times,
    Writes,
}

// Of this part these calls fail.
pub(crate) fn failing(part: Part, calls: &[u64]) -> Failing<'_> {
    let mut failing = NONE;
    match part {
        Part::Sends => failing.sends = calls,
        Part::Receives => failing.receives = calls,
        Part::Times => failing.times = calls,
        Part::Writes => failing.writes = calls,
    }
    failing
}

// Whether a match of which one call of this part fails ends with this status, and what was served before is a prefix of the whole.
fn is_cut(rt: &HostRuntime, whole: &Left, part: Part, call: u64, status: Status) -> bool {
    match serve_failing(rt, failing(part, &[call])) {
        Ok(s) => {
            s.status == status
                && whole.text.as_slice().starts_with(s.text.as_slice())
                && is_front(&s.sent, &whole.sent)
        }
        Err(_) => false,
    }
}

#[test]
fn each_call_fails_once(rt: HostRuntime) {
    let whole = serve_failing(&rt, NONE).expect(&rt, "memory");
    assert!(rt; whole.status == Status::Done && whole.sent.len() == 8);
    // the header is written in one piece, and then 3 ticks, a raw line, and 6 scans and packs
    for (part, calls, status) in [
        (Part::Sends, 8, Status::LinkFault),
        (Part::Receives, 6, Status::LinkFault),
        (Part::Times, 4, Status::ClockFault),
        (Part::Writes, 17, Status::WriteFault),
    ] {
        for call in 0..calls {
            assert!(rt; is_cut(&rt, &whole, part, call, status));
        }
    }
}

// A send that fails is not made, and those before it were.
#[test]
fn sends_before_the_failing_one(rt: HostRuntime) {
    for call in 0..8 {
        let s = serve_failing(&rt, failing(Part::Sends, &[call])).expect(&rt, "memory");
        assert!(rt; s.sent.len() as u64 == call);
    }
}

#[test]
fn second_send_fails(rt: HostRuntime) {
    let arrivals = [came(5, &HELLO), came(6, &HELLO), came(5, &HELLO)];
    let words = ["serve", "7", "1", "1"];
    let second = failing(Part::Sends, &[1]);
    let s = served(&rt, &words, &arrivals, &[0], second).expect(&rt, "memory");
    assert!(rt; s.status == Status::LinkFault && s.sent.len() == 1);
    assert!(rt; was_sent(rt.alloc(), &s.sent, 0, 5, WELCOME));
}

#[test]
fn clock_goes_back(rt: HostRuntime) {
    // Turn 1 is due 50 ms after the start: not where the clock went back, nor at 49 ms.
    let arrivals = [
        Arrival::Pause,
        Arrival::Pause,
        Arrival::Pause,
        came(5, &HELLO),
        Arrival::Pause,
    ];
    let times = [1_000, 900, 10, 1_049, 1_050];
    let s = served(&rt, &["serve", "7", "1", "2"], &arrivals, &times, NONE).expect(&rt, "memory");
    assert!(rt; is_done(&s, b"go\ntick\ntick\nscan 0\npack 0\n", 2));
}

#[test]
fn clock_stands(rt: HostRuntime) {
    // A turn that is never due ends after 10,000 calls.
    let s = served(&rt, &["serve", "7", "1", "2"], &[], &[0], NONE).expect(&rt, "memory");
    assert!(rt; is_done(&s, b"go\ntick\ntick\n", 0));
}
