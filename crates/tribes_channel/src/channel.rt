//! Messages of any length and short events over one end (docs/messages.md, "Over an end").
ghost use Rattle.std.specs.Prelude.{◌≡◌, ◌≤◌, ◌<◌, IfOk, IfErr, IfSome, IsNone, OnOk, OnErr, Err, length, take};
ghost use Rattle.std.specs.Result.{result_err};

use crate::faults::{NextFault, OpenFault};
use crate::receiving::take_in;
use crate::sending::send;
use messages::{
    HoldFault, Inbox, MAX_MESSAGE_BYTES, MAX_SINGLE_BYTES, Outbox, ParcelKind, loose_piece,
};
use std::alloc::Global;
use std::marker::Model;
use tribes_ends::{Class, Link, Refusal, Why};

/// A parcel that was handed out: what it is, how it was sent, and how many bytes it has.
#[derive(Clone, Copy)]
pub struct Handed {
    pub kind: ParcelKind,
    pub class: Class,
    pub count: usize,
}

/// How many pieces wait to be posted, and how many more may.
#[repr(C)]
#[derive(Clone, Copy)]
pub struct Places {
    pub held: u32,
    pub free: u32,
}

/// Messages of any length and short events over one end: those that are to be sent, and those that come; and why its last call did
/// nothing.
///
/// It goes with one end alone, from the first event on: each guaranteed event of that end is a piece of it. A clause sees
/// `ChannelState`, and what it means by the logs of its outbox and its inbox.
#[derive(Drop)]
pub struct Channel {
    outbox: Outbox,
    inbox: Inbox,
    why: Why,
}

impl Model for Channel {
    ghost use Rattle.tribes_channel.specs.Channel.{ChannelState, IsReady};

    ghost Value = { ChannelState };

    ghost view = { λ c. record { outbox = c.outbox; inbox = c.inbox } };

    ghost invariant = { λ c. IsReady c.outbox c.inbox };
}

const NONE: Why = Why {
    code: 0,
    first: 0,
    second: 0,
};

impl Channel {
    ghost use Rattle.messages.specs.OutboxStands.{post_answer, free_places};
    ghost use Rattle.tribes_channel.specs.Channel.{IsNewChannel, OpenAnswer, Holds, PostsLoose, LooseRefused, Gives, Awaits, Turns, Ends};
    ghost use Rattle.tribes_channel.specs.declared.faults.NextFault.TheVariants.{NoRoom};

    /// A channel with so many places for pieces that are to be posted, of 24 bytes each, for messages that come with at most
    /// `longest` bytes, 23 to 65,535. `BadLongest`, or else `NoMemory`. Nothing after this takes memory.
    pub fn new(alloc: Global, places: u32, longest: u32) -> Result<Channel, OpenFault>
        ensures begins { IfOk result (IsNewChannel places longest) }
        ensures refused { OpenAnswer longest (result_err result) }
    {
        let room = longest as usize;
        if room < MAX_SINGLE_BYTES || room > MAX_MESSAGE_BYTES {
            return Err(OpenFault::BadLongest { longest });
        }
        let Ok(outbox) = Outbox::new(alloc, places as usize) else {
            return Err(OpenFault::NoMemory);
        };
        let Ok(inbox) = Inbox::new(alloc, room) else {
            return Err(OpenFault::NoMemory);
        };
        Ok(Channel {
            outbox,
            inbox,
            why: NONE,
        })
    }

    /// Notes why a call did nothing, and gives its code.
    pub fn note(&mut self, why: Why) -> i32
        ensures code { result ≡ why.code }
        ensures unchanged { self.new ≡ self.old }
    {
        self.why = why;
        why.code
    }

    /// Why the last call that did nothing did nothing.
    pub fn why(&self) -> Why {
        self.why
    }

    /// Posts a parcel, whole or not at all, as guaranteed events of the end: it is held, and pieces are posted as long as the end
    /// has places. Call it with the one end that the channel goes with. What is posted there drops a plan.
    ///
    /// `TooLong` comes exactly where it has more than 23 bytes (a short event) or 65,535 (a message), else `NoPlaces` exactly where
    /// it has more pieces than places are free. Nothing changes then.
    pub fn post(&mut self, link: &mut Link, kind: ParcelKind, bytes: &[u8]) -> Result<(), HoldFault>
        ensures posted { OnOk result
            (Holds (record { kind = kind; bytes = bytes.now }) self.old.outbox link.old self.new.outbox link.new) }
        ensures answer { result ≡ post_answer self.old.outbox (record { kind = kind; bytes = bytes.now }) }
        ensures unchanged { OnErr result ((self.new ≡ self.old) × (link.new ≡ link.old)) }
        ensures inbox { self.new.inbox ≡ self.old.inbox }
    {
        match self.outbox.post(kind, bytes) {
            Ok(()) => {
                send(&mut self.outbox, link);
                Ok(())
            }
            Err(fault) => Err(fault),
        }
    }

    /// Posts a parcel of at most 23 bytes as an unguaranteed event of the end. `TooLong` comes exactly where it has more, and else
    /// what the end answers to such an event. Nothing changes then.
    pub fn post_loose(link: &mut Link, kind: ParcelKind, bytes: &[u8]) -> Result<(), Refusal>
        ensures posted { OnOk result (PostsLoose (record { kind = kind; bytes = bytes.now }) link.old link.new) }
        ensures refused { LooseRefused (record { kind = kind; bytes = bytes.now }) link.old (result_err result) }
        ensures unchanged { OnErr result (link.new ≡ link.old) }
    {
        match loose_piece(kind, bytes) {
            Ok(piece) => match link.post(piece.as_slice(), Class::Loose) {
                Ok(_) => Ok(()),
                Err(refusal) => Err(refusal),
            },
            Err(_) => Err(Refusal::TooLong {
                most: MAX_SINGLE_BYTES as u32,
            }),
        }
    }

    /// Hands out the oldest parcel that is whole, at the front of the place; `None` where none is, and no event waits any more.
    ///
    /// It takes the events that the end delivered, one after another, until a parcel is whole, and posts held pieces as long as the
    /// end has places, which drops a plan. `NoRoom` comes exactly where the place is smaller than the longest message, and nothing
    /// changes then. `BadPiece` comes exactly where the other end sent a piece that no honest end sends, after all that was whole
    /// before: the channel is ended, takes nothing more and answers the same from then on.
    pub fn next(&mut self, link: &mut Link, place: &mut [u8]) -> Result<Option<Handed>, NextFault>
        ensures gives { IfOk result (λ found. IfSome found (λ h.
            Turns (Gives h.class (record { kind = h.kind; bytes = take h.count place.new })) self.old link.old self.new link.new)) }
        ensures none { IfOk result (λ found. IsNone found → Turns Awaits self.old link.old self.new link.new) }
        ensures ended { self.old.inbox.room ≤ length place.old
            → IfErr result (λ fault. Turns (Ends fault) self.old link.old self.new link.new) }
        ensures refused { length place.old < self.old.inbox.room → result ≡ Err (NoRoom self.old.inbox.room) }
        ensures unchanged { length place.old < self.old.inbox.room → (self.new ≡ self.old) × (link.new ≡ link.old) }
    {
        let longest = self.inbox.room();
        if place.len() < longest {
            return Err(NextFault::NoRoom {
                needed: longest as u32,
            });
        }
        let found = take_in(&mut self.inbox, link, place);
        send(&mut self.outbox, link);
        match found {
            Ok(found) => Ok(found),
            Err(fault) => Err(NextFault::BadPiece(fault)),
        }
    }

    /// How many pieces wait to be posted, and how many more may.
    pub fn places(&self) -> Places
        ensures held { result.held ≡ length self.now.outbox.held }
        ensures free { result.free ≡ free_places self.now.outbox }
    {
        Places {
            held: self.outbox.held() as u32,
            free: self.outbox.free() as u32,
        }
    }
}
