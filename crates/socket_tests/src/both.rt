//! Both ends over UDP, in two threads. Where the port of a server is taken, or no socket can be made, this shows nothing.

use crate::carried::carry_out;
use script_input::Status;
use std::alloc::Global;
use std::net::Net;
use std::thread::join;
use std::time::Clock as SystemTimes;
use tn_outside::{MemSink, SERVER_PORT, SystemClock, UdpLink};

// How many bytes are taken at once: more than a line has.
const ALL: usize = 4096;

// How a command over UDP ended, and what it wrote; nothing where no socket, no clock or no memory could be had.
fn called<R: Net + SystemTimes>(
    rt: &R,
    alloc: Global,
    words: &[&str],
    port: u16,
) -> Option<(Status, Vec<u8>)> {
    let mut link = UdpLink::bind(rt, port).ok()?;
    let mut clock = SystemClock::new(rt).ok()?;
    let mut all = Vec::new(alloc);
    for word in words {
        all.push(String::from_str(alloc, word).ok()?).ok()?;
    }
    let mut sink = MemSink {
        bytes: Vec::new(alloc),
        most: ALL,
        failing: &[],
        calls: 0,
        faults: 0,
    };
    let status = carry_out(alloc, &all, &mut link, &mut clock, &mut sink);
    let MemSink {
        bytes,
        most: _,
        failing: _,
        calls: _,
        faults: _,
    } = sink;
    Some((status, bytes))
}

// Whether a script has a line `raw`.
fn has_raw(script: &[u8]) -> bool {
    script.windows(5).any(|w| w == b"\nraw ".as_slice())
}

// A server of two clients, since a hello of another test may come; who joins goes first.
#[test]
fn both_ends_in_two_threads(rt: HostRuntime) {
    let alloc = rt.alloc();
    let (served, joined) = join(
        &rt,
        || called(&rt, alloc, &["serve", "7", "2", "40"], SERVER_PORT),
        || called(&rt, alloc, &["join", "20"], 0),
    );
    let Some((serving, script)) = served else {
        return;
    };
    let Some((joining, text)) = joined else {
        return;
    };
    assert!(rt; serving == Status::Done && joining == Status::Done);
    assert!(rt; script.as_slice().starts_with(b"tribes 1\n") && has_raw(script.as_slice()));
    // A welcome came, and what the client sent came too.
    assert!(rt;
        text.as_slice().starts_with(b"join ") && !text.as_slice().starts_with(b"join none")
    );
}
