//! Sockets of one machine. Where the port of a server is taken, or no socket can be made, these show nothing.

use crate::carried::carry_out;
use script_input::Status;
use std::alloc::{AllocError, Global};
use tn_outside::{Clock, Link, MemSink, Peer, SERVER_PORT, SystemClock, UdpLink};

// A hello, whose nonce is 1.
const HELLO: [u8; 5] = [2, 1, 0, 0, 0];

// The length of the next datagram from the server, or 0 where none came in time.
fn next_length(client: &mut UdpLink<'_, HostRuntime>) -> usize {
    let mut buf = [0u8; 1_201];
    for _ in 0..1_000 {
        match client.receive(&mut buf, 1) {
            Ok(Some((peer, count))) => return if peer.number == 0 { count } else { 0 },
            Ok(None) => (),
            Err(_) => return 0,
        }
    }
    0
}

// Serves one client, for three turns.
fn serve_words(alloc: Global) -> Result<Vec<String>, AllocError> {
    let mut words = Vec::new(alloc);
    for word in ["serve", "7", "1", "3"] {
        words.push(String::from_str(alloc, word)?)?;
    }
    Ok(words)
}

#[test]
fn match_over_sockets(rt: HostRuntime) {
    let Ok(mut server) = UdpLink::bind(&rt, SERVER_PORT) else {
        return;
    };
    let Ok(mut client) = UdpLink::bind(&rt, 0) else {
        return;
    };
    let Ok(mut clock) = SystemClock::new(&rt) else {
        return;
    };
    if client.send(Peer { number: 0 }, &HELLO).is_err() {
        return;
    }
    let words = serve_words(rt.alloc()).expect(&rt, "memory");
    let mut sink = MemSink {
        bytes: Vec::new(rt.alloc()),
        most: 4096,
        failing: &[],
        calls: 0,
        faults: 0,
    };
    assert!(rt; carry_out(rt.alloc(), &words, &mut server, &mut clock, &mut sink) == Status::Done);
    // The hello came in the first turn or in a later one, so a welcome and at most three datagrams came back.
    assert!(rt; server.faults == 0 && next_length(&mut client) == 12);
    assert!(rt; next_length(&mut client) > 12);
}

#[test]
fn system_clock_goes_on(rt: HostRuntime) {
    let Ok(mut clock) = SystemClock::new(&rt) else {
        return;
    };
    let Ok(first) = clock.now() else {
        return;
    };
    let Ok(second) = clock.now() else {
        return;
    };
    assert!(rt; first <= second);
}
