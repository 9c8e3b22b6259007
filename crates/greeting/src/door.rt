//! The server's side of a greeting: who shows that it reads what is sent to its address may be given a client by the game.
ghost use Rattle.std.specs.Prelude.{◌≡◌, ◌≤◌, ◌<◌, ℕ, List, length, [], Some, None, replicate, slice_set, slice_index_or, position, is_some, IfOk, IfSome, IsNone, OnOk, OnErr};
ghost use Rattle.greeting.specs.Door.{is_right_number, is_guest, is_held_by, is_free};

use crate::datagrams::{
    Form, GreetingBytes, PROTOCOL_BYTES, Reason, TERMS_BYTES, form_of, nonce_in, number_in,
};
use crate::words::{Address, SECRET_BYTES, Sixteen, number_of};
use std::alloc::Global;
use std::marker::Model;
use tn_types::NoMemory;

/// Who answered a challenge: an address, and the nonce of its hello.
#[derive(Clone, Copy)]
pub struct Guest {
    pub address: Address,
    pub nonce: Sixteen,
}

impl Guest {
    // Whether it is this one.
    fn is(self, address: Address, nonce: Sixteen) -> bool
        ensures { result ≡ is_guest address nonce self }
    {
        self.address.is_same(address) && self.nonce.is_equal(nonce)
    }
}

/// What is done with a datagram.
#[derive(Clone, Copy, Debug, PartialEq, Eq)]
pub enum Heard {
    /// It is neither a hello nor a right answer.
    Dropped,
    /// It is a hello of this protocol.
    Challenged,
    /// It is a hello of another version or protocol, or a right answer where no seat is free.
    Refused { reason: Reason },
    /// It is a right answer of who has no seat: `accept` or `refuse` says what becomes of it. Its bytes from 34 on are the token.
    Asks,
    /// It is a right answer of who has this seat, to which the same welcome goes.
    Again { client: u32 },
}

/// Why nobody is given a client.
#[derive(Clone, Copy, Debug, PartialEq, Eq)]
pub enum AcceptFault {
    /// The last datagram that was heard does not ask, or it was decided on.
    NobodyAsks,
    /// The door has fewer seats.
    NoSeat,
    /// The seat is somebody's.
    SeatIsTaken,
}

/// Who has which client, and who asks for one. Nothing is kept of others. A clause sees `DoorState`.
#[derive(Drop)]
pub struct Door {
    secret: [u8; SECRET_BYTES],
    before: [u8; SECRET_BYTES],
    protocol: [u8; PROTOCOL_BYTES],
    terms: [u8; TERMS_BYTES],
    seats: Vec<Option<Guest>>,
    asking: Option<Guest>,
}

impl Model for Door {
    ghost use Rattle.std.specs.Prelude.{◌<◌, ◌^◌, length};
    ghost use Rattle.greeting.specs.Door.{DoorState};

    ghost Value = { DoorState };

    ghost view = { λ d. record {
      secret = d.secret;
      before = d.before;
      protocol = d.protocol;
      terms = d.terms;
      seats = d.seats.items;
      asking = d.asking;
    } };

    ghost invariant = { λ d. length d.seats.items < 2 ^ 32 };
}

impl Door {
    ghost use Rattle.greeting.specs.Datagrams.{form, welcome, refusal};
    ghost use Rattle.greeting.specs.declared.datagrams.Form.TheVariants.{Hello, Answer};
    ghost use Rattle.greeting.specs.declared.datagrams.Reason.TheVariants.{TokenRefused};
    ghost use Rattle.greeting.specs.Door.{DoorState, Hears, Admits, asking_of, asker_of, reply_of, reply_to, accept_answer, seated};
    ghost use Rattle.greeting.specs.Passing.{Passing, Came, Given, Turned, Left, Renewed, StandsFor, Does};

    /// A door with so many seats, of which client 0 has the first, all free. The secret is to be one that nobody can guess; `terms` go with
    /// each welcome, unread.
    pub fn new(
        alloc: Global,
        secret: [u8; SECRET_BYTES],
        protocol: [u8; PROTOCOL_BYTES],
        terms: [u8; TERMS_BYTES],
        count: u32,
    ) -> Result<Door, NoMemory>
        ensures state { IfOk result (λ d. d ≡ record {
          secret = secret;
          before = secret;
          protocol = protocol;
          terms = terms;
          seats = replicate count None;
          asking = None;
        }) }
        ensures log { IfOk result (λ d. StandsFor secret d []) }
    {
        let mut seats = Vec::new(alloc);
        match seats.resize(count as usize, None) {
            Ok(()) => Ok(Door {
                secret,
                before: secret,
                protocol,
                terms,
                seats,
                asking: None,
            }),
            Err(_) => Err(NoMemory),
        }
    }

    // Whether the number is that of an address and a nonce, under the secret or the one before.
    fn is_right(&self, from: Address, nonce: Sixteen, number: Sixteen) -> bool
        ensures { result ≡ is_right_number self.now.secret self.now.before from nonce number }
    {
        number.is_equal(number_of(&self.secret, from, nonce))
            || number.is_equal(number_of(&self.before, from, nonce))
    }

    // The seat of who answered with a nonce from an address, if it has one.
    fn find(&self, from: Address, nonce: Sixteen) -> Option<usize>
        ensures { result ≡ position (is_held_by from nonce) self.now.seats }
    {
        self.seats.iter().position(|seat| match seat {
            Some(guest) => guest.is(from, nonce),
            None => false,
        })
    }

    // A free seat, if there is one.
    fn free(&self) -> Option<usize>
        ensures { result ≡ position is_free self.now.seats }
    {
        self.seats.iter().position(|seat| match seat {
            Some(_) => false,
            None => true,
        })
    }

    // A hello of this version came.
    fn greet(&self, from: Address, bytes: &[u8], reply: &mut GreetingBytes) -> Heard
        requires hello { form bytes.now ≡ Hello }
        requires long { 50 ≤ length bytes.now }
        ensures answer { Hears self.now from bytes.now result }
        ensures reply { reply.new ≡ reply_of self.now from bytes.now result }
        ensures none { asking_of from bytes.now result ≡ None }
    {
        let nonce = nonce_in(bytes);
        if bytes[18..] == self.protocol[..] {
            reply.write_challenge(nonce, number_of(&self.secret, from, nonce));
            return Heard::Challenged;
        }
        reply.write_refusal(nonce, Reason::OtherProtocol);
        Heard::Refused {
            reason: Reason::OtherProtocol,
        }
    }

    // An answer came, and its number is right.
    fn admit(&mut self, from: Address, nonce: Sixteen, reply: &mut GreetingBytes) -> Heard
        requires none { self.old.asking ≡ None }
        requires empty { reply.old ≡ [] }
        ensures answer { Admits self.old from nonce result }
        ensures reply { reply.new ≡ reply_to self.old from nonce result }
        ensures asks { self.new ≡ record self.old { asking = asker_of from nonce result } }
    {
        if let Some(i) = self.find(from, nonce) {
            let client = i as u32;
            reply.write_welcome(nonce, client, &self.terms);
            return Heard::Again { client };
        }
        if self.free().is_some() {
            self.asking = Some(Guest {
                address: from,
                nonce,
            });
            return Heard::Asks;
        }
        reply.write_refusal(nonce, Reason::Full);
        Heard::Refused {
            reason: Reason::Full,
        }
    }

    // An answer came.
    fn check(&mut self, from: Address, bytes: &[u8], reply: &mut GreetingBytes) -> Heard
        requires answer { form bytes.now ≡ Answer }
        requires long { 34 ≤ length bytes.now }
        requires none { self.old.asking ≡ None }
        requires empty { reply.old ≡ [] }
        ensures answer { Hears self.old from bytes.now result }
        ensures reply { reply.new ≡ reply_of self.old from bytes.now result }
        ensures asks { self.new ≡ record self.old { asking = asking_of from bytes.now result } }
    {
        let nonce = nonce_in(bytes);
        if !self.is_right(from, nonce, number_in(bytes)) {
            return Heard::Dropped;
        }
        self.admit(from, nonce, reply)
    }

    // A datagram came.
    fn judge(&mut self, from: Address, bytes: &[u8], reply: &mut GreetingBytes) -> Heard
        ensures answer { Hears self.old from bytes.now result }
        ensures reply { reply.new ≡ reply_of self.old from bytes.now result }
        ensures asks { self.new ≡ record self.old { asking = asking_of from bytes.now result } }
    {
        reply.clear();
        self.asking = None;
        match form_of(bytes) {
            Form::Hello => self.greet(from, bytes, reply),
            Form::OtherHello => {
                reply.write_refusal(nonce_in(bytes), Reason::OtherVersion);
                Heard::Refused {
                    reason: Reason::OtherVersion,
                }
            }
            Form::Answer => self.check(from, bytes, reply),
            _ => Heard::Dropped,
        }
    }

    /// A datagram came from an address. What `reply` then has is to go back there, if it has any bytes.
    pub fn hear(&mut self, from: Address, bytes: &[u8], reply: &mut GreetingBytes) -> Heard
        ensures answer { Hears self.old from bytes.now result }
        ensures reply { reply.new ≡ reply_of self.old from bytes.now result }
        ensures asks { self.new ≡ record self.old { asking = asking_of from bytes.now result } }
        ensures log { Does self.old (Came from bytes.now reply.new) self.new }
    {
        self.judge(from, bytes, reply)
    }

    // The seat is that of who asks.
    fn take(&mut self, guest: Guest, client: u32, reply: &mut GreetingBytes)
        requires { client < length self.old.seats }
        ensures given { self.new ≡ seated self.old client guest }
        ensures reply { reply.new ≡ welcome guest.nonce client self.old.terms }
    {
        self.seats[client as usize] = Some(guest);
        self.asking = None;
        reply.write_welcome(guest.nonce, client, &self.terms);
    }

    /// Who asks has this client from now on. What `reply` then has is to go to its address.
    pub fn accept(&mut self, client: u32, reply: &mut GreetingBytes) -> Result<(), AcceptFault>
        ensures answer { result ≡ accept_answer self.old client }
        ensures given { OnOk result (IfSome self.old.asking (λ g. (self.new ≡ seated self.old client g)
            × (reply.new ≡ welcome g.nonce client self.old.terms))) }
        ensures unchanged { OnErr result ((self.new ≡ self.old) × (reply.new ≡ reply.old)) }
        ensures log { OnOk result (IfSome self.old.asking (λ g. Does self.old (Given g client reply.new) self.new)) }
    {
        let Some(guest) = self.asking else {
            return Err(AcceptFault::NobodyAsks);
        };
        let i = client as usize;
        if i >= self.seats.len() {
            return Err(AcceptFault::NoSeat);
        }
        if self.seats[i].is_some() {
            return Err(AcceptFault::SeatIsTaken);
        }
        self.take(guest, client, reply);
        Ok(())
    }

    // Nobody asks any more.
    fn turn(&mut self)
        ensures { self.new ≡ record self.old { asking = None } }
    {
        self.asking = None;
    }

    /// The game does not take the token of who asks; true, and `reply` is to go to its address. False: nobody asks, and nothing is changed.
    pub fn refuse(&mut self, reply: &mut GreetingBytes) -> bool
        ensures answer { result ≡ is_some self.old.asking }
        ensures state { self.new ≡ record self.old { asking = None } }
        ensures reply { IfSome self.old.asking (λ g. reply.new ≡ refusal g.nonce TokenRefused) }
        ensures unchanged { IsNone self.old.asking → reply.new ≡ reply.old }
        ensures log { IfSome self.old.asking (λ g. Does self.old (Turned g reply.new) self.new) }
    {
        let Some(guest) = self.asking else {
            return false;
        };
        self.turn();
        reply.write_refusal(guest.nonce, Reason::TokenRefused);
        true
    }

    /// A client left: its seat is free. Nothing is changed where it was, or where there is none.
    pub fn leave(&mut self, client: u32)
        ensures state { self.new ≡ record self.old { seats = slice_set self.old.seats client None } }
        ensures log { Does self.old (Left client) self.new }
    {
        let i = client as usize;
        if i < self.seats.len() {
            self.seats[i] = None;
        }
    }

    /// Another secret. A challenge of the one before is still taken, until there is another one again.
    pub fn renew(&mut self, secret: [u8; SECRET_BYTES])
        ensures state { self.new ≡ record self.old { secret = secret; before = self.old.secret } }
        ensures log { Does self.old (Renewed secret) self.new }
    {
        self.before = self.secret;
        self.secret = secret;
    }

    /// Who has a client.
    pub fn guest(&self, client: u32) -> Option<Guest>
        ensures { result ≡ slice_index_or self.now.seats client None }
    {
        let i = client as usize;
        if i < self.seats.len() {
            self.seats[i]
        } else {
            None
        }
    }
}
