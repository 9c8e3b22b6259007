//! A socket that anybody may reach, behind which only guests are heard.
ghost use Rattle.std.specs.Prelude.{◌≡◌, ◌≤◌, [], Some, length, IfOk, IfSome};
ghost use Rattle.host_guests.specs.Entrance.{Answers};

use crate::guests::{Guests, Heard, Rules};
use crate::keys::{GREETING_NUMBER, KEY_BYTES, TAG_BYTES, append};
use crate::socket::Socket;
use greeting::{Address, GreetingBytes, MAX_GREETING_BYTES};
use std::alloc::Global;
use tn_outside::Failed;
use tn_types::{MAX_DATAGRAM_BYTES, NoMemory};

/// Room for what a greeting is answered by, with its tag.
const ANSWER_ROOM: usize = MAX_GREETING_BYTES + TAG_BYTES;

/// Room for what goes to a guest, with its tag.
pub const MAX_SENT_BYTES: usize = MAX_DATAGRAM_BYTES + TAG_BYTES;

/// A datagram that came.
#[derive(Clone, Copy)]
pub struct Knock {
    pub from: Address,
    /// So many bytes of the buffer.
    pub count: usize,
    /// What is done with it.
    pub heard: Heard,
    /// So many bytes went back to its address at once.
    pub answered: usize,
}

/// What became of a datagram to a guest.
#[derive(Clone, Copy, Debug, PartialEq, Eq)]
pub enum Sent {
    /// Nobody has the seat.
    ToNobody,
    /// The system took so many bytes.
    Taken { count: usize },
    /// The system did not take it, or it is longer than any.
    Lost,
}

/// A socket and its guests. To an address that never answered a challenge no more bytes go than came from it.
#[derive(Drop)]
pub struct Entrance<S: Socket + Drop> {
    pub socket: S,
    pub guests: Guests,
}

// Sends what a greeting is answered by, if it is answered: so many bytes went.
fn answer<S: Socket>(
    socket: &mut S,
    key: Option<[u8; KEY_BYTES]>,
    to: Address,
    reply: &GreetingBytes,
) -> usize
    ensures { Answers key (S.log socket.old) (S.log socket.new) to reply.now }
{
    let bytes = reply.as_slice();
    if bytes.len() == 0 {
        return 0;
    }
    let mut place = [0u8; ANSWER_ROOM];
    place[..bytes.len()].copy_from_slice(bytes);
    let count = append(key, GREETING_NUMBER, &mut place, bytes.len());
    if socket.send(to, &place[..count]) {
        count
    } else {
        0
    }
}

impl<S: Socket + Drop> Entrance<S> {
    ghost use Rattle.host_guests.specs.Entrance.{Holds, Passes, SendsTo};

    /// An entrance by these rules, at a socket through which nothing passed yet.
    pub fn new(alloc: Global, socket: S, rules: Rules) -> Result<Entrance<S>, NoMemory>
        ensures socket { IfOk result (λ e. e.socket ≡ socket) }
        ensures secret { IfOk result (λ e. e.guests.door.secret ≡ rules.secret) }
        ensures key { IfOk result (λ e. e.guests.key ≡ rules.key) }
        ensures holds { IfOk result (λ e. S.log socket ≡ Some [] → Holds e.guests (S.log e.socket)) }
    {
        match Guests::new(alloc, rules) {
            Ok(guests) => Ok(Entrance { socket, guests }),
            Err(NoMemory) => Err(NoMemory),
        }
    }

    /// Takes the datagram that stands first into a buffer. None only if nothing stood ready; the socket may rest for so many
    /// milliseconds before it says so.
    pub fn receive(&mut self, buf: &mut [u8], rest: u64) -> Result<Option<Knock>, Failed>
        ensures bound { IfOk result (λ answer. IfSome answer (λ k. k.count ≤ length buf.new)) }
        ensures passes { Passes self.old.guests (S.log self.old.socket) self.new.guests (S.log self.new.socket) result buf.new }
        ensures holds { Holds self.old.guests (S.log self.old.socket) → Holds self.new.guests (S.log self.new.socket) }
    {
        match self.socket.receive(buf, rest) {
            Ok(Some((from, count))) => {
                let mut reply = GreetingBytes::new();
                let key = self.guests.key();
                let heard = self.guests.hear(from, &buf[..count], &mut reply);
                let answered = answer(&mut self.socket, key, from, &reply);
                Ok(Some(Knock {
                    from,
                    count,
                    heard,
                    answered,
                }))
            }
            Ok(None) => Ok(None),
            Err(Failed) => Err(Failed),
        }
    }

    /// Sends to the guest of a seat a datagram that carries these bytes.
    pub fn send(&mut self, place: u32, bytes: &[u8]) -> Sent
        ensures sends { SendsTo self.old.guests place bytes.now (S.log self.old.socket) (S.log self.new.socket) result }
        ensures guests { self.new.guests ≡ self.old.guests }
        ensures holds { Holds self.old.guests (S.log self.old.socket) → Holds self.new.guests (S.log self.new.socket) }
    {
        let Some((to, number)) = self.guests.address(place) else {
            return Sent::ToNobody;
        };
        if bytes.len() > MAX_DATAGRAM_BYTES {
            return Sent::Lost;
        }
        let mut room = [0u8; MAX_SENT_BYTES];
        room[..bytes.len()].copy_from_slice(bytes);
        let count = append(self.guests.key(), number, &mut room, bytes.len());
        if self.socket.send(to, &room[..count]) {
            Sent::Taken { count }
        } else {
            Sent::Lost
        }
    }
}
