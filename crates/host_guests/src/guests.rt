//! Those with whom a link speaks: who has which seat, and what is done with a datagram.
ghost use Rattle.std.specs.Prelude.{◌≡◌, ◌<◌, ◌≤◌, ℕ, List, length, take, [], ◌∷◌, Some, None, false, slice_index_or, slice_set, replicate, IfOk, IfSome, IsNone};
ghost use Rattle.host_guests.specs.Guests.{is_greeting, joining_in};

use crate::keys::{GREETING_NUMBER, KEY_BYTES, carried};
use greeting::{
    Address, Door, GreetingBytes, Heard as Greeting, PROTOCOL_BYTES, SECRET_BYTES, TERMS_BYTES,
};
use std::alloc::Global;
use std::marker::Model;
use tn_types::NoMemory;

/// What guests are greeted by.
#[derive(Clone, Copy)]
pub struct Rules {
    /// One that nobody can guess.
    pub secret: [u8; SECRET_BYTES],
    /// The number of what both ends have to agree on.
    pub protocol: [u8; PROTOCOL_BYTES],
    /// They go with each welcome.
    pub terms: [u8; TERMS_BYTES],
    /// Where there is one, each datagram carries its tag, both ways.
    pub key: Option<[u8; KEY_BYTES]>,
    /// So many guests there may be.
    pub seats: u32,
}

/// What is done with a datagram.
#[derive(Clone, Copy, Debug, PartialEq, Eq)]
pub enum Heard {
    /// It is the right answer of who has no seat, and gets this one.
    Joined { place: u32 },
    /// It is of the guest who has this seat, and carries so many bytes.
    OfGuest { place: u32, count: usize },
    /// It is any other greeting that is answered: a hello, an answer that came again, or one for which there is no seat.
    Greeted,
    /// It is a greeting that is not answered, as a wrong answer.
    Dropped,
    /// It is no greeting, and from an address that has no seat.
    Stranger,
    /// It has not the tag of its bytes.
    Untagged,
}

/// All seats, and by what numbers their guests' datagrams are tagged.
#[derive(Drop)]
pub struct Guests {
    door: Door,
    key: Option<[u8; KEY_BYTES]>,
    // of each seat the number of its guest's joining
    numbers: Vec<u64>,
    seats: u32,
}

impl Model for Guests {
    ghost use Rattle.host_guests.specs.Guests.{GuestsState};

    ghost Value = { GuestsState };

    ghost view = { λ g. record { door = g.door; key = g.key; numbers = g.numbers.items; seats = g.seats } };
}

/// Whether these bytes are one of a greeting, by the two lowest bits of the first: they are set in no packet of a connection.
pub fn is_greeting(bytes: &[u8]) -> bool
    ensures { result ≡ is_greeting bytes.now }
{
    bytes.len() > 0 && bytes[0] % 4 == 3
}

// The number of a joining: the first eight bytes of the challenge's number, which stands in the answer.
#[tactic(auto, unfolding(greeting::specs::Words::word_at))]
fn joining_in(answer: &[u8]) -> u64
    requires { 34 ≤ length answer.now }
    ensures { result ≡ joining_in answer.now }
{
    let mut eight = [0; 8];
    eight.copy_from_slice(&answer[18..26]);
    u64::from_le_bytes(eight)
}

impl Guests {
    ghost use Rattle.greeting.specs.declared.door.Guest.{Guest};
    ghost use Rattle.host_guests.specs.Passing.{Passing, Went};
    ghost use Rattle.host_guests.specs.Guests.{GuestsState, guest_at, number_at, is_at, SeatBelow, DecidesOn, Greets, Hears, ReceivesAt, StandsFor};

    /// All seats are free.
    pub fn new(alloc: Global, rules: Rules) -> Result<Guests, NoMemory>
        ensures state { IfOk result (λ g. g ≡ record {
          door = record {
            secret = rules.secret;
            before = rules.secret;
            protocol = rules.protocol;
            terms = rules.terms;
            seats = replicate rules.seats None;
            asking = None;
          };
          key = rules.key;
          numbers = replicate rules.seats 0;
          seats = rules.seats;
        }) }
        ensures log { IfOk result (λ g. StandsFor g []) }
    {
        let Rules {
            secret,
            protocol,
            terms,
            key,
            seats,
        } = rules;
        let Ok(door) = Door::new(alloc, secret, protocol, terms, seats) else {
            return Err(NoMemory);
        };
        let mut numbers = Vec::new(alloc);
        match numbers.resize(seats as usize, 0) {
            Ok(()) => Ok(Guests {
                door,
                key,
                numbers,
                seats,
            }),
            Err(_) => Err(NoMemory),
        }
    }

    // Whether a seat is that of this address.
    fn is_at(&self, place: u32, from: Address) -> bool
        ensures { result ≡ is_at from (guest_at self.now place) }
    {
        match self.door.guest(place) {
            Some(guest) => guest.address.is_same(from),
            None => false,
        }
    }

    // The seat of an address, if it has one.
    fn seat_of(&self, from: Address) -> Option<u32>
        ensures { SeatBelow self.now from self.now.seats result }
    {
        'seats: for place in 0..self.seats {
            if self.is_at(place, from) {
                return Some(place);
            }
        }
        None
    }

    // A free seat, if there is one.
    fn free(&self) -> Option<u32>
        ensures { IfSome result (λ i. guest_at self.now i ≡ None) }
    {
        'seats: for place in 0..self.seats {
            if self.door.guest(place).is_none() {
                return Some(place);
            }
        }
        None
    }

    // The number under which the datagrams of a seat's guest are tagged.
    fn number(&self, place: u32) -> u64
        ensures { result ≡ number_at self.now place }
    {
        let i = place as usize;
        if i < self.numbers.len() {
            self.numbers[i]
        } else {
            0
        }
    }

    // The guest of a seat joined by this number.
    fn note(&mut self, place: u32, number: u64)
        ensures { self.new ≡ record self.old { numbers = slice_set self.old.numbers place number } }
    {
        let i = place as usize;
        if i < self.numbers.len() {
            self.numbers[i] = number;
        }
    }

    // Who asks gets a seat, where its address has none and one is free.
    fn decide(&mut self, from: Address, number: u64, reply: &mut GreetingBytes) -> Heard
        ensures { (guest : Guest) → self.old.door.asking ≡ Some guest → DecidesOn self.old from guest number self.new reply.new result }
    {
        if self.seat_of(from).is_none() {
            if let Some(place) = self.free() {
                if self.door.accept(place, reply).is_ok() {
                    self.note(place, number);
                    return Heard::Joined { place };
                }
            }
        }
        let _asked = self.door.refuse(reply);
        Heard::Greeted
    }

    // A greeting came.
    fn greet(&mut self, from: Address, bytes: &[u8], reply: &mut GreetingBytes) -> Heard
        ensures { Greets self.old from bytes.now self.new reply.new result }
    {
        match self.door.hear(from, bytes, reply) {
            Greeting::Asks => self.decide(from, joining_in(bytes), reply),
            Greeting::Dropped => Heard::Dropped,
            _ => Heard::Greeted,
        }
    }

    // A datagram came that is no greeting.
    fn pass(&self, from: Address, datagram: &[u8]) -> Heard
        requires { is_greeting datagram.now ≡ false }
        ensures { Hears self.now from datagram.now self.now [] result }
    {
        let Some(place) = self.seat_of(from) else {
            return Heard::Stranger;
        };
        match carried(self.key, self.number(place), datagram) {
            Some(count) => Heard::OfGuest { place, count },
            None => Heard::Untagged,
        }
    }

    // A datagram came.
    fn judge(&mut self, from: Address, datagram: &[u8], reply: &mut GreetingBytes) -> Heard
        requires { reply.old ≡ [] }
        ensures { Hears self.old from datagram.now self.new reply.new result }
    {
        if !is_greeting(datagram) {
            return self.pass(from, datagram);
        }
        match carried(self.key, GREETING_NUMBER, datagram) {
            Some(count) => self.greet(from, &datagram[..count], reply),
            None => Heard::Untagged,
        }
    }

    /// A datagram came from an address. What `reply` then has is to go back there, carried under the number of greetings, if it has any
    /// bytes.
    pub fn hear(&mut self, from: Address, datagram: &[u8], reply: &mut GreetingBytes) -> Heard
        requires { reply.old ≡ [] }
        ensures answer { Hears self.old from datagram.now self.new reply.new result }
        ensures log { ReceivesAt self.old from datagram.now self.new reply.new }
    {
        self.judge(from, datagram, reply)
    }

    /// Where the guest of a seat is, if somebody has it, and under what number what is for it is tagged. Anything may go there.
    pub fn address(&self, place: u32) -> Option<(Address, u64)>
        ensures some { IfSome result (λ a. IfSome (guest_at self.now place) (λ g. a.0 ≡ g.address) × (a.1 ≡ number_at self.now place)) }
        ensures none { IsNone result → guest_at self.now place ≡ None }
        ensures log { IfSome result (λ a. (log : List Passing) (datagram : List ℕ) → StandsFor self.now log
            → StandsFor self.now (Went a.0 datagram ∷ log)) }
    {
        match self.door.guest(place) {
            Some(guest) => Some((guest.address, self.number(place))),
            None => None,
        }
    }

    /// The key, if there is one.
    pub fn key(&self) -> Option<[u8; KEY_BYTES]>
        ensures { result ≡ self.now.key }
    {
        self.key
    }
}
