//! What an end is to send, in pieces.
ghost use Rattle.std.specs.Prelude.{◌≡◌, ◌-◌, ◌<◌, ◌≤◌, List, [], ◌∷◌, ◌++◌, IfOk, OnOk, OnErr, IfSome, IsNone, length, drop, slice_get, nat_lt};
ghost use Rattle.tn_types.specs.Histories.{Does};
ghost use Rattle.messages.specs.Forms.{form_byte};
ghost use Rattle.messages.specs.OutboxStands.{most_of};
ghost use Rattle.messages.specs.Pieces.{Parcel, pieces_by, rest_of, first_piece};

use crate::cutting::{piece_count, piece_of};
use crate::faults::HoldFault;
use crate::form::{Form, ParcelKind};
use crate::limits::{FIRST_BYTES, MAX_MESSAGE_BYTES, MAX_SINGLE_BYTES};
use circular_buffer::HeapCircularBuffer;
use std::alloc::Global;
use std::marker::Model;
use tn_types::{NoMemory, Payload};

/// The parcels of an end that are to be sent, in pieces, the oldest first.
///
/// A clause sees `OutboxState`, and what it means by the log of what was posted and handed on.
#[derive(Drop)]
pub struct Outbox {
    held: HeapCircularBuffer<Payload>,
}

impl Model for Outbox {
    ghost use Rattle.messages.specs.OutboxStands.{OutboxState};

    ghost Value = { OutboxState };

    ghost view = { λ o. record { held = o.held.items; places = o.held.capacity } };
}

/// The most bytes that a parcel of this kind may have.
fn most_of(kind: ParcelKind) -> usize
    ensures value { result ≡ most_of kind }
    ensures few { result ≤ MAX_MESSAGE_BYTES }
{
    match kind {
        ParcelKind::Event => MAX_SINGLE_BYTES,
        ParcelKind::Message => MAX_MESSAGE_BYTES,
    }
}

impl Outbox {
    ghost use Rattle.messages.specs.OutboxStands.{Posted, HandedOn, OutboxStandsFor, post_answer, free_places};

    /// An outbox with so many places for pieces, of 24 bytes each. `NoMemory` is the one error. Nothing after this takes memory.
    pub fn new(alloc: Global, places: usize) -> Result<Outbox, NoMemory>
        ensures stands { IfOk result (λ o. OutboxStandsFor o []) }
        ensures places { IfOk result (λ o. o.places ≡ places) }
    {
        match HeapCircularBuffer::with_capacity(alloc, places) {
            Ok(held) => Ok(Outbox { held }),
            Err(_) => Err(NoMemory),
        }
    }

    /// How many pieces may be held besides those that are.
    pub fn free(&self) -> usize
        ensures { result ≡ free_places self.now }
    {
        self.held.capacity() - self.held.len()
    }

    /// How many pieces are held.
    pub fn held(&self) -> usize
        ensures count { result ≡ length self.now.held }
        ensures few { result ≤ self.now.places }
    {
        self.held.len()
    }

    /// Takes up a parcel, whole or not at all.
    ///
    /// `TooLong` comes exactly where it has more bytes than one of its kind may have, else `NoPlaces` exactly where it has more
    /// pieces than places are free; nothing changes then.
    pub fn post(&mut self, kind: ParcelKind, bytes: &[u8]) -> Result<(), HoldFault>
        ensures answer { result ≡ post_answer self.old (record { kind = kind; bytes = bytes.now }) }
        ensures stands { OnOk result (Does OutboxStandsFor self.old (Posted (record { kind = kind; bytes = bytes.now })) self.new) }
        ensures held { OnOk result (self.new.held ≡ self.old.held ++ pieces_by kind bytes.now) }
        ensures unchanged { OnErr result (self.new ≡ self.old) }
        ensures places { self.new.places ≡ self.old.places }
    {
        let most = most_of(kind);
        if bytes.len() > most {
            return Err(HoldFault::TooLong { most: most as u32 });
        }
        let needed = piece_count(kind, bytes.len());
        let free = self.free();
        if needed > free {
            return Err(HoldFault::NoPlaces {
                needed: needed as u32,
                free: free as u32,
            });
        }
        self.hold(kind, bytes);
        Ok(())
    }

    /// Holds the pieces of a parcel.
    fn hold(&mut self, kind: ParcelKind, bytes: &[u8])
        requires most { length bytes.now ≤ most_of kind }
        requires room { length (pieces_by kind bytes.now) ≤ free_places self.old }
        ensures held { self.new.held ≡ self.old.held ++ pieces_by kind bytes.now }
        ensures places { self.new.places ≡ self.old.places }
    {
        match kind {
            ParcelKind::Event => self.hold_piece(Form::Short, bytes),
            ParcelKind::Message => self.hold_message(bytes),
        }
    }

    /// Holds the pieces of a message.
    fn hold_message(&mut self, bytes: &[u8])
        requires most { length bytes.now ≤ MAX_MESSAGE_BYTES }
        requires room { length (pieces_by ParcelKind.Message bytes.now) ≤ free_places self.old }
        ensures held { self.new.held ≡ self.old.held ++ pieces_by ParcelKind.Message bytes.now }
        ensures places { self.new.places ≡ self.old.places }
    {
        let count = bytes.len();
        if count <= MAX_SINGLE_BYTES {
            self.hold_piece(Form::Alone, bytes);
            return;
        }
        let (first, rest) = bytes.split_at(FIRST_BYTES);
        let head = [Form::First.byte(), (count % 256) as u8, (count / 256) as u8];
        self.push(piece_of(&head, first));
        self.hold_rest(rest);
    }

    /// Holds the pieces of what the first one of a message leaves.
    fn hold_rest(&mut self, bytes: &[u8])
        requires room { length (rest_of bytes.now) ≤ free_places self.old }
        ensures held { self.new.held ≡ self.old.held ++ rest_of bytes.now }
        ensures places { self.new.places ≡ self.old.places }
    {
        let mut rest = bytes;
        'rest: while rest.len() > MAX_SINGLE_BYTES {
            let (piece, after) = rest.split_at(MAX_SINGLE_BYTES);
            self.hold_piece(Form::Middle, piece);
            rest = after;
        }
        self.hold_piece(Form::Last, rest);
    }

    /// Holds a piece.
    fn hold_piece(&mut self, form: Form, bytes: &[u8])
        requires few { length bytes.now ≤ MAX_SINGLE_BYTES }
        requires room { length self.old.held < self.old.places }
        ensures held { self.new.held ≡ self.old.held ++ (form_byte form ∷ bytes.now) ∷ [] }
        ensures places { self.new.places ≡ self.old.places }
    {
        self.push(piece_of(&[form.byte()], bytes));
    }

    fn push(&mut self, piece: Payload)
        requires room { length self.old.held < self.old.places }
        ensures held { self.new.held ≡ self.old.held ++ piece ∷ [] }
        ensures places { self.new.places ≡ self.old.places }
    {
        match self.held.try_push_back(piece) {
            Ok(()) => {}
            Err(_) => unreachable!(),
        }
    }

    /// The piece that is to be posted next, as a guaranteed event; `None` exactly where none is held.
    pub fn first(&self) -> Option<Payload>
        ensures { result ≡ slice_get self.now.held 0 }
    {
        match self.held.front() {
            Some(piece) => Some(piece.copy()),
            None => None,
        }
    }

    /// Lets go of the first piece, which was posted, and gives it; `None` exactly where none is held.
    pub fn take(&mut self) -> Option<Payload>
        ensures piece { result ≡ slice_get self.old.held 0 }
        ensures stands { IfSome result (λ piece. Does OutboxStandsFor self.old (HandedOn piece) self.new) }
        ensures rest { self.new.held ≡ drop 1 self.old.held }
        ensures places { self.new.places ≡ self.old.places }
        ensures unchanged { IsNone result → self.new ≡ self.old }
    {
        self.held.pop_front()
    }
}
