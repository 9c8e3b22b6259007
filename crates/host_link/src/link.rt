//! A link to anybody's address of IPv4: a socket, and the guests who are heard behind it.
ghost use Rattle.std.specs.Prelude.{◌≡◌, ◌≤◌, ◌<◌, ◌^◌, [], Option, Some, None, List, length, take, IfOk, IfSome};
ghost use Rattle.tn_outside.specs.Causes.{HasCause};
ghost use Rattle.tn_outside.specs.Links.{Datagram, Ahead, Sends, Receives};
ghost use Rattle.net_rules.specs.Hellos.{hello_with};
ghost use Rattle.host_guests.specs.Entrance.{Holds, HandsOn, IsOfGuest};

use crate::counters::Counters;
use host_guests::{Entrance, Heard, Knock, Rules, Sent, Socket};
use net_rules::{HELLO_BYTES, WELCOME, WELCOME_BYTES, hello_with};
use std::alloc::Global;
use tn_outside::{Failed, Link, Peer};
use tn_types::NoMemory;

/// A peer that has no seat.
const NOBODY: Peer = Peer { number: u32::MAX };

/// A server's link that anybody may reach. A peer's number is its seat: only who answered a challenge has one. The server hears a hello of
/// who joins, and its welcome goes no further, since the guest was welcomed already. What the system does not send is lost, as on any network.
/// It tells no contents as a link; what passes its socket is told by the socket.
#[derive(Drop)]
pub struct HostLink<'a, S: Socket + Drop> {
    pub entrance: Entrance<S>,
    counters: &'a Counters,
    faults: u64,
}

// Whether a datagram of the server is a welcome.
fn is_welcome(bytes: &[u8]) -> bool {
    bytes.len() == WELCOME_BYTES && bytes[0] == WELCOME
}

// Puts into the front of a buffer what the server hears of a datagram: so many bytes from this peer, or none.
fn hand_on(knock: &Knock, buf: &mut [u8]) -> (Peer, usize)
    requires { knock.now.count ≤ length buf.old }
    ensures bound { result.1 ≤ length buf.new }
    ensures hands { 0 < result.1 → HandsOn knock.now.heard (take knock.now.count buf.old) result.0.number (hello_with 0) (take result.1 buf.new) }
{
    match knock.heard {
        Heard::Joined { place } if buf.len() >= HELLO_BYTES => {
            buf[..HELLO_BYTES].copy_from_slice(&hello_with(0));
            (Peer { number: place }, HELLO_BYTES)
        }
        Heard::OfGuest { place, count } if count <= knock.count => (Peer { number: place }, count),
        _ => (NOBODY, 0),
    }
}

impl<'a, S: Socket + Drop> HostLink<'a, S> {
    /// A link over a socket through which nothing passed yet, by these rules.
    pub fn new(
        alloc: Global,
        socket: S,
        rules: Rules,
        counters: &'a Counters,
    ) -> Result<HostLink<'a, S>, NoMemory>
        ensures socket { IfOk result (λ link. link.entrance.socket ≡ socket) }
        ensures secret { IfOk result (λ link. link.entrance.guests.door.secret ≡ rules.secret) }
        ensures key { IfOk result (λ link. link.entrance.guests.key ≡ rules.key) }
        ensures holds { IfOk result (λ link. S.log socket ≡ Some [] → Holds link.entrance.guests (S.log link.entrance.socket)) }
    {
        match Entrance::new(alloc, socket, rules) {
            Ok(entrance) => Ok(HostLink {
                entrance,
                counters,
                faults: 0,
            }),
            Err(NoMemory) => Err(NoMemory),
        }
    }

    // Counts a datagram that came.
    fn note(&self, knock: &Knock) {
        self.counters.note_came(knock.count as u64);
        if knock.answered > 0 {
            self.counters.note_sent(knock.answered as u64);
        }
        match knock.heard {
            Heard::Joined { place: _ } => self.counters.note_asked(),
            Heard::Greeted => self.counters.note_asked(),
            Heard::Dropped => self.counters.note_turned(),
            Heard::Stranger => self.counters.note_turned(),
            Heard::Untagged => self.counters.note_untagged(),
            Heard::OfGuest { place: _, count: _ } => {}
        }
    }
}

impl<S: Socket + Drop> Link for HostLink<'_, S> {
    ghost ahead = { λ _. None };

    ghost sent = { λ _. None };

    ghost faults = { λ l. l.faults };

    /// What can't go out is lost on the way.
    fn send(&mut self, peer: Peer, bytes: &[u8]) -> Result<(), Failed>
        ensures sends { Sends None None result peer bytes.now }
        ensures ahead { let untold : Option Ahead = None in untold ≡ untold }
        ensures cause { HasCause self.old.faults self.new.faults result }
        ensures counted { self.new.faults < 2 ^ 64 }
        ensures guests { self.new.entrance.guests ≡ self.old.entrance.guests }
        ensures holds { Holds self.old.entrance.guests (S.log self.old.entrance.socket)
            → Holds self.new.entrance.guests (S.log self.new.entrance.socket) }
    {
        // for its clauses
        let _faults = self.faults;
        if is_welcome(bytes) {
            self.counters.note_client();
            return Ok(());
        }
        match self.entrance.send(peer.number, bytes) {
            Sent::Taken { count } => self.counters.note_sent(count as u64),
            Sent::Lost => self.counters.note_unsent(),
            Sent::ToNobody => {}
        }
        Ok(())
    }

    /// A datagram of a guest is given as the bytes that it carries, that of who joins as a hello, and any other one with no byte.
    fn receive(&mut self, buf: &mut [u8], rest: u64) -> Result<Option<(Peer, usize)>, Failed>
        ensures bound { IfOk result (λ answer. IfSome answer (λ x. x.1 ≤ length buf.new)) }
        ensures takes { Receives None None result buf.new }
        ensures sent { let untold : Option (List Datagram) = None in untold ≡ untold }
        ensures cause { HasCause self.old.faults self.new.faults result }
        ensures counted { self.new.faults < 2 ^ 64 }
        ensures guests { IfOk result (λ answer. IfSome answer (λ x. 0 < x.1
            → IsOfGuest self.old.entrance.guests self.new.entrance.guests x.0.number (hello_with 0) (take x.1 buf.new))) }
        ensures holds { Holds self.old.entrance.guests (S.log self.old.entrance.socket)
            → Holds self.new.entrance.guests (S.log self.new.entrance.socket) }
    {
        let faults = self.faults;
        match self.entrance.receive(buf, rest) {
            Ok(Some(knock)) => {
                self.note(&knock);
                Ok(Some(hand_on(&knock, buf)))
            }
            Ok(None) => Ok(None),
            Err(Failed) => {
                self.faults = faults.saturating_add(1);
                Err(Failed)
            }
        }
    }
}
