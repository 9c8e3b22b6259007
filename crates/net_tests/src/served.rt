//! Calls of the program over a link, a clock and a sink in memory.
ghost use Rattle.std.specs.Prelude.{◌<◌, length};

use commands::{Command, command_of};
use net_top::{Offer, top_join, top_serve};
use script_input::Status;
use std::alloc::{AllocError, Global};
use tn_outside::{
    Arrival, Clock, Link, MemClock, MemLink, MemSink, Peer, Sending, Sink, SteadyClock,
};

// Carries out a command over a link, a clock and a sink.
fn carry_out<L: Link, C: Clock, K: Sink>(
    alloc: Global,
    words: &Vec<String>,
    link: &mut L,
    clock: &mut C,
    sink: &mut K,
) -> Status {
    match command_of(words) {
        Ok(
            Command::Serve {
                seed,
                clients,
                turns,
            },
        ) => top_serve(
            alloc,
            Offer {
                seed,
                clients,
                turns,
            },
            link,
            clock,
            sink,
        ),
        Ok(Command::Join { turns }) => top_join(alloc, turns, link, clock, sink),
        Ok(_) => Status::Usage(0),
        Err(place) => Status::Usage(place),
    }
}

/// More bytes than a line has.
pub(crate) const ALL: usize = 4096;

/// What fails, by the numbers of the calls.
#[derive(Clone, Copy)]
pub(crate) struct Failing<'a> {
    pub(crate) sends: &'a [u64],
    pub(crate) receives: &'a [u64],
    pub(crate) times: &'a [u64],
    pub(crate) writes: &'a [u64],
}

/// Nothing fails.
pub(crate) const NONE: Failing<'static> = Failing {
    sends: &[],
    receives: &[],
    times: &[],
    writes: &[],
};

/// What a call left.
pub(crate) struct Left {
    pub(crate) status: Status,
    pub(crate) text: Vec<u8>,
    pub(crate) sent: Vec<Sending>,
}

impl Drop for Left {
    fn drop(self) {
        let Left {
            status: _,
            text: _text,
            sent: _sent,
        } = self;
    }
}

/// A datagram of a peer.
pub(crate) fn came(number: u32, bytes: &[u8]) -> Arrival<'_> {
    Arrival::Came {
        peer: Peer { number },
        bytes,
    }
}

/// What a call with these words answers, writes and sends, where this comes over the link and the clock answers this.
pub(crate) fn served<'a>(
    rt: &HostRuntime,
    words: &[&str],
    arrivals: &'a [Arrival<'a>],
    answers: &'a [u64],
    failing: Failing<'a>,
) -> Result<Left, AllocError>
    requires { 0 < length answers.now }
{
    let alloc = rt.alloc();
    let mut all = Vec::new(alloc);
    for word in words {
        all.push(String::from_str(alloc, word)?)?;
    }
    let mut link = MemLink {
        alloc,
        arrivals,
        came: 0,
        kept: Vec::new(alloc),
        failing_sends: failing.sends,
        failing_receives: failing.receives,
        sends: 0,
        receives: 0,
        faults: 0,
    };
    let mut clock = MemClock {
        inner: SteadyClock { rest: answers },
        failing: failing.times,
        calls: 0,
        faults: 0,
    };
    let mut sink = MemSink {
        bytes: Vec::new(alloc),
        most: ALL,
        failing: failing.writes,
        calls: 0,
        faults: 0,
    };
    let status = carry_out(alloc, &all, &mut link, &mut clock, &mut sink);
    let MemSink {
        bytes,
        most: _,
        failing: _,
        calls: _,
        faults: _,
    } = sink;
    let MemLink {
        alloc: _,
        arrivals: _,
        came: _,
        kept,
        failing_sends: _,
        failing_receives: _,
        sends: _,
        receives: _,
        faults: _,
    } = link;
    Ok(Left {
        status,
        text: bytes,
        sent: kept,
    })
}

/// Whether a call answered this, wrote this text, and sent so many datagrams.
pub(crate) fn is_left(s: &Left, status: Status, text: &[u8], sent: usize) -> bool {
    s.status == status && s.text.as_slice() == text && s.sent.len() == sent
}

/// Whether a call was done, its text has this end, and it sent so many datagrams.
pub(crate) fn is_done(s: &Left, end: &[u8], sent: usize) -> bool {
    s.status == Status::Done && s.text.as_slice().ends_with(end) && s.sent.len() == sent
}

/// Whether these bytes, in hexadecimal digits, were sent to this peer at this place.
pub(crate) fn was_sent(
    alloc: Global,
    sent: &[Sending],
    place: usize,
    number: u32,
    hex: &str,
) -> bool {
    match sent.get(place) {
        Some(sending) => is_sending(alloc, sending, number, hex),
        None => false,
    }
}

/// Whether this is a datagram to this peer with these bytes, in hexadecimal digits.
pub(crate) fn is_sending(alloc: Global, sending: &Sending, number: u32, hex: &str) -> bool {
    match hex::encode(alloc, sending.bytes.as_slice()) {
        Ok(text) => sending.peer.number == number && text.as_str() == hex,
        Err(_) => false,
    }
}

/// Whether these are the first of those.
pub(crate) fn is_front(front: &[Sending], whole: &[Sending]) -> bool {
    if front.len() > whole.len() {
        return false;
    }
    for (a, b) in front.iter().zip(whole) {
        if a.peer != b.peer || a.bytes.as_slice() != b.bytes.as_slice() {
            return false;
        }
    }
    true
}
