//! What comes in at an end: pieces are gathered until a parcel is whole.
ghost use Rattle.std.specs.Prelude.{◌≡◌, ◌+◌, ◌-◌, ◌<◌, ◌≤◌, List, [], ◌∷◌, ◌++◌, IfOk, IfErr, IfSome, IsNone, OnOk, OnErr, Some, None, Ok, Err, length, take, drop, nat_lt, if◌then◌else◌};
ghost use Rattle.std.specs.Option.{is_some};
ghost use Rattle.std.specs.Result.{result_err};
ghost use Rattle.tn_types.specs.Histories.{Does};
ghost use Rattle.messages.specs.Forms.{form_byte, form_of};
ghost use Rattle.messages.specs.Pieces.{Parcel, pieces_by};

use crate::faults::{PieceFault, SmallPlace};
use crate::form::{Form, ParcelKind};
use crate::limits::{FIRST_BYTES, MAX_SINGLE_BYTES};
use circular_buffer::HeapCircularBuffer;
use std::alloc::Global;
use std::marker::Model;
use tn_types::{MAX_EVENT_BYTES, NoMemory, Payload};

/// What the gathered bytes are.
#[derive(Clone, Copy)]
pub enum Stage {
    /// There are none.
    Idle,
    /// The first ones of a message of so many bytes.
    Begun { whole: usize },
    /// A parcel, which waits to be handed out.
    Whole { kind: ParcelKind },
}

/// A parcel that was handed out: its kind, and how many bytes it has.
#[derive(Clone, Copy, Debug, PartialEq, Eq)]
pub struct Whole {
    pub kind: ParcelKind,
    pub count: usize,
}

/// The parcels of the other end, which come in pieces.
///
/// A clause sees `InboxState`, and what it means by the log of what was taken and handed out.
#[derive(Drop)]
pub struct Inbox {
    gathered: HeapCircularBuffer<u8>,
    stage: Stage,
    fault: Option<PieceFault>,
}

impl Model for Inbox {
    ghost use Rattle.std.specs.Prelude.{length};
    ghost use Rattle.messages.specs.InboxState.{InboxState, IsInRoom};

    ghost Value = { InboxState };

    ghost view = { λ b. record { gathered = b.gathered.items; room = b.gathered.capacity; stage = b.stage; fault = b.fault } };

    ghost invariant = { λ b. IsInRoom b.stage (length b.gathered.items) b.gathered.capacity };
}

impl Inbox {
    ghost use Rattle.messages.specs.declared.inbox.Stage.TheVariants as stage;
    ghost use Rattle.messages.specs.declared.form.Form.TheVariants as form;
    ghost use Rattle.messages.specs.InboxState.{waiting, take_answer, answer_of, piece_fault, form_fault, begin_fault, more_fault, long_fault, place_fault};
    ghost use Rattle.messages.specs.InboxStands.{Took, HandedOut, InboxStandsFor, TakesAlone};

    /// An inbox for parcels of at most so many bytes. `NoMemory` is the one error. Nothing after this takes memory.
    pub fn new(alloc: Global, room: usize) -> Result<Inbox, NoMemory>
        ensures stands { IfOk result (λ b. InboxStandsFor b []) }
        ensures room { IfOk result (λ b. b.room ≡ room) }
        ensures sound { IfOk result (λ b. b.fault ≡ None) }
        ensures none { IfOk result (λ b. waiting b ≡ None) }
    {
        match HeapCircularBuffer::with_capacity(alloc, room) {
            Ok(gathered) => Ok(Inbox {
                gathered,
                stage: Stage::Idle,
                fault: None,
            }),
            Err(_) => Err(NoMemory),
        }
    }

    /// The most bytes that a parcel may have.
    pub fn room(&self) -> usize
        ensures { result ≡ self.now.room }
    {
        self.gathered.capacity()
    }

    /// Whether a parcel waits to be handed out.
    pub fn waits(&self) -> bool
        ensures { result ≡ is_some (waiting self.now) }
    {
        matches!(self.stage, Stage::Whole { .. })
    }

    /// The fault that ended what comes in, if one did.
    pub fn fault(&self) -> Option<PieceFault>
        ensures { result ≡ self.now.fault }
    {
        self.fault
    }

    /// Takes a piece, a guaranteed event that was delivered. No parcel may wait.
    ///
    /// `Err` comes exactly where a piece was refused before, with the same fault, or no honest end sends this one after those
    /// that came: `PieceFault` says what may be wrong with it. Nothing is taken after that, and nothing else changes.
    pub fn take(&mut self, piece: &Payload) -> Result<(), PieceFault>
        requires none_waits { waiting self.old ≡ None }
        ensures answer { result ≡ take_answer self.old piece.now }
        ensures stands { OnOk result (Does InboxStandsFor self.old (Took piece.now) self.new) }
        ensures ended { IfErr result (λ fault. self.new ≡ record self.old { fault = Some fault }) }
        ensures sound { OnOk result (self.new.fault ≡ None) }
        ensures room { self.new.room ≡ self.old.room }
    {
        if let Some(fault) = self.fault {
            return Err(fault);
        }
        if let Err(fault) = self.take_piece(piece.as_slice()) {
            self.fault = Some(fault);
            return Err(fault);
        }
        Ok(())
    }

    /// Takes a piece as bytes.
    fn take_piece(&mut self, piece: &[u8]) -> Result<(), PieceFault>
        requires none_waits { waiting self.old ≡ None }
        requires few { length piece.now ≤ MAX_EVENT_BYTES }
        ensures answer { result ≡ answer_of (piece_fault piece.now self.old) }
        ensures stands { OnOk result (Does InboxStandsFor self.old (Took piece.now) self.new) }
        ensures unchanged { OnErr result (self.new ≡ self.old) }
        ensures fault { self.new.fault ≡ self.old.fault }
        ensures room { self.new.room ≡ self.old.room }
    {
        let Some((byte, bytes)) = parted(piece) else {
            return Err(PieceFault::Empty);
        };
        self.take_form(byte, bytes)
    }

    /// Takes a piece with this first byte.
    fn take_form(&mut self, byte: u8, bytes: &[u8]) -> Result<(), PieceFault>
        requires none_waits { waiting self.old ≡ None }
        requires few { length bytes.now ≤ MAX_SINGLE_BYTES }
        ensures answer { result ≡ answer_of (form_fault (form_of byte) byte bytes.now self.old) }
        ensures stands { OnOk result (Does InboxStandsFor self.old (Took (byte ∷ bytes.now)) self.new) }
        ensures unchanged { OnErr result (self.new ≡ self.old) }
        ensures fault { self.new.fault ≡ self.old.fault }
        ensures room { self.new.room ≡ self.old.room }
    {
        let Some(form) = Form::of(byte) else {
            return Err(PieceFault::UnknownForm { form: byte });
        };
        match self.stage {
            Stage::Begun { whole } => self.go_on(whole, form, bytes),
            Stage::Idle => self.begin(form, bytes),
            Stage::Whole { .. } => unreachable!(),
        }
    }

    /// Takes a piece with which a parcel begins.
    fn begin(&mut self, form: Form, bytes: &[u8]) -> Result<(), PieceFault>
        requires idle { self.old.stage ≡ stage.Idle }
        requires few { length bytes.now ≤ MAX_SINGLE_BYTES }
        ensures answer { result ≡ answer_of (begin_fault form bytes.now self.old.room) }
        ensures stands { OnOk result (Does InboxStandsFor self.old (Took (form_byte form ∷ bytes.now)) self.new) }
        ensures unchanged { OnErr result (self.new ≡ self.old) }
        ensures fault { self.new.fault ≡ self.old.fault }
        ensures room { self.new.room ≡ self.old.room }
    {
        match form {
            Form::Short => self.take_alone(ParcelKind::Event, bytes),
            Form::Alone => self.take_alone(ParcelKind::Message, bytes),
            Form::First => self.take_first(bytes),
            Form::Middle => Err(PieceFault::NotBegun),
            Form::Last => Err(PieceFault::NotBegun),
        }
    }
    /// Takes a parcel that is whole in one piece.
    fn take_alone(&mut self, kind: ParcelKind, bytes: &[u8]) -> Result<(), PieceFault>
        requires idle { self.old.stage ≡ stage.Idle }
        requires few { length bytes.now ≤ MAX_SINGLE_BYTES }
        ensures answer { result ≡ answer_of (long_fault (length bytes.now) self.old.room) }
        ensures stands { OnOk result (TakesAlone self.old kind bytes.now self.new) }
        ensures unchanged { OnErr result (self.new ≡ self.old) }
        ensures fault { self.new.fault ≡ self.old.fault }
        ensures room { self.new.room ≡ self.old.room }
    {
        let most = self.gathered.capacity();
        if bytes.len() > most {
            return Err(PieceFault::TooLong {
                length: bytes.len() as u32,
                most: most as u32,
            });
        }
        gather(&mut self.gathered, bytes);
        self.stage = Stage::Whole { kind };
        Ok(())
    }

    /// Takes the first piece of a message.
    fn take_first(&mut self, bytes: &[u8]) -> Result<(), PieceFault>
        requires idle { self.old.stage ≡ stage.Idle }
        requires few { length bytes.now ≤ MAX_SINGLE_BYTES }
        ensures answer { result ≡ answer_of (begin_fault form.First bytes.now self.old.room) }
        ensures stands { OnOk result (Does InboxStandsFor self.old (Took (form_byte form.First ∷ bytes.now)) self.new) }
        ensures unchanged { OnErr result (self.new ≡ self.old) }
        ensures fault { self.new.fault ≡ self.old.fault }
        ensures room { self.new.room ≡ self.old.room }
    {
        let Some((low, rest)) = parted(bytes) else {
            return Err(PieceFault::FewerBytes);
        };
        let Some((high, first)) = parted(rest) else {
            return Err(PieceFault::FewerBytes);
        };
        let length = usize::from(low) + 256 * usize::from(high);
        if length <= MAX_SINGLE_BYTES {
            return Err(PieceFault::OnePiece {
                length: length as u32,
            });
        }
        if first.len() < FIRST_BYTES {
            return Err(PieceFault::FewerBytes);
        }
        let most = self.gathered.capacity();
        if length > most {
            return Err(PieceFault::TooLong {
                length: length as u32,
                most: most as u32,
            });
        }
        gather(&mut self.gathered, first);
        self.stage = Stage::Begun { whole: length };
        Ok(())
    }

    /// Takes a further piece of a message of so many bytes.
    fn go_on(&mut self, whole: usize, form: Form, bytes: &[u8]) -> Result<(), PieceFault>
        requires begun { self.old.stage ≡ stage.Begun whole }
        requires few { length bytes.now ≤ MAX_SINGLE_BYTES }
        ensures answer { result ≡ answer_of (more_fault form (length bytes.now) (whole - length self.old.gathered)) }
        ensures stands { OnOk result (Does InboxStandsFor self.old (Took (form_byte form ∷ bytes.now)) self.new) }
        ensures unchanged { OnErr result (self.new ≡ self.old) }
        ensures fault { self.new.fault ≡ self.old.fault }
        ensures room { self.new.room ≡ self.old.room }
    {
        match form {
            Form::Short => Err(PieceFault::NotEnded),
            Form::Alone => Err(PieceFault::NotEnded),
            Form::First => Err(PieceFault::NotEnded),
            Form::Middle => self.take_middle(whole, bytes),
            Form::Last => self.take_last(whole, bytes),
        }
    }

    /// Takes a whole piece that is not the last of its message.
    fn take_middle(&mut self, whole: usize, bytes: &[u8]) -> Result<(), PieceFault>
        requires begun { self.old.stage ≡ stage.Begun whole }
        requires few { length bytes.now ≤ MAX_SINGLE_BYTES }
        ensures answer { result ≡ answer_of (more_fault form.Middle (length bytes.now) (whole - length self.old.gathered)) }
        ensures stands { OnOk result (Does InboxStandsFor self.old (Took (form_byte form.Middle ∷ bytes.now)) self.new) }
        ensures unchanged { OnErr result (self.new ≡ self.old) }
        ensures fault { self.new.fault ≡ self.old.fault }
        ensures room { self.new.room ≡ self.old.room }
    {
        if whole - self.gathered.len() <= MAX_SINGLE_BYTES {
            return Err(PieceFault::MoreBytes);
        }
        if bytes.len() < MAX_SINGLE_BYTES {
            return Err(PieceFault::FewerBytes);
        }
        gather(&mut self.gathered, bytes);
        Ok(())
    }

    /// Takes the last piece of a message.
    fn take_last(&mut self, whole: usize, bytes: &[u8]) -> Result<(), PieceFault>
        requires begun { self.old.stage ≡ stage.Begun whole }
        requires few { length bytes.now ≤ MAX_SINGLE_BYTES }
        ensures answer { result ≡ answer_of (more_fault form.Last (length bytes.now) (whole - length self.old.gathered)) }
        ensures stands { OnOk result (Does InboxStandsFor self.old (Took (form_byte form.Last ∷ bytes.now)) self.new) }
        ensures unchanged { OnErr result (self.new ≡ self.old) }
        ensures fault { self.new.fault ≡ self.old.fault }
        ensures room { self.new.room ≡ self.old.room }
    {
        let left = whole - self.gathered.len();
        if bytes.len() > left {
            return Err(PieceFault::MoreBytes);
        }
        if bytes.len() < left {
            return Err(PieceFault::FewerBytes);
        }
        gather(&mut self.gathered, bytes);
        self.stage = Stage::Whole {
            kind: ParcelKind::Message,
        };
        Ok(())
    }

    /// Hands out the parcel that waits, at the front of the place; `None` exactly where none does.
    ///
    /// `SmallPlace` comes exactly where the parcel has more bytes than the place. The place and the inbox are as they were then.
    pub fn hand_out(&mut self, place: &mut [u8]) -> Result<Option<Whole>, SmallPlace>
        ensures refused { result_err result ≡ place_fault (waiting self.old) (length place.old) }
        ensures none { IfOk result (λ found. IsNone found → (waiting self.old ≡ None) × (self.new ≡ self.old)) }
        ensures whole { IfOk result (λ found. IfSome found (λ w.
            waiting self.old ≡ Some (record { kind = w.kind; bytes = take w.count place.new }))) }
        ensures stands { IfOk result (λ found. IfSome found (λ w.
            Does InboxStandsFor self.old (HandedOut (record { kind = w.kind; bytes = take w.count place.new })) self.new)) }
        ensures rest { IfOk result (λ found. IfSome found (λ w. drop w.count place.new ≡ drop w.count place.old)) }
        ensures none_waits { OnOk result (waiting self.new ≡ None) }
        ensures unchanged { OnErr result ((self.new ≡ self.old) × (place.new ≡ place.old)) }
        ensures fault { self.new.fault ≡ self.old.fault }
        ensures room { self.new.room ≡ self.old.room }
    {
        let Stage::Whole { kind } = self.stage else {
            return Ok(None);
        };
        let count = self.gathered.len();
        if count > place.len() {
            return Err(SmallPlace {
                needed: count as u32,
            });
        }
        self.gathered.read_into(&mut place[..count]);
        self.stage = Stage::Idle;
        Ok(Some(Whole { kind, count }))
    }

    /// Hands out the parcel that waits, at the front of a place with room for any parcel; `None` exactly where none does.
    pub fn hand_to(&mut self, place: &mut [u8]) -> Option<Whole>
        requires room { self.old.room ≤ length place.old }
        ensures none { IsNone result → (waiting self.old ≡ None) × (self.new ≡ self.old) }
        ensures whole { IfSome result (λ w. waiting self.old ≡ Some (record { kind = w.kind; bytes = take w.count place.new })) }
        ensures stands { IfSome result (λ w.
            Does InboxStandsFor self.old (HandedOut (record { kind = w.kind; bytes = take w.count place.new })) self.new) }
        ensures rest { IfSome result (λ w. drop w.count place.new ≡ drop w.count place.old) }
        ensures none_waits { waiting self.new ≡ None }
        ensures fault { self.new.fault ≡ self.old.fault }
        ensures room { self.new.room ≡ self.old.room }
    {
        let Stage::Whole { kind } = self.stage else {
            return None;
        };
        let count = self.gathered.len();
        self.gathered.read_into(&mut place[..count]);
        self.stage = Stage::Idle;
        Some(Whole { kind, count })
    }

    /// Ends what comes in with this fault, of a piece that was sent unguaranteed: no piece is taken after it.
    pub fn end(&mut self, named: PieceFault)
        ensures { self.new ≡ record self.old { fault = Some named } }
    {
        self.fault = Some(named);
    }
}

/// The first byte, and the others.
pub(crate) fn parted(bytes: &[u8]) -> Option<(u8, &[u8])>
    ensures some { IfSome result (λ p. bytes.now ≡ p.0 ∷ p.1.now) }
    ensures byte { IfSome result (λ p. p.0 < 256) }
    ensures fewer { IfSome result (λ p. length bytes.now ≡ length p.1.now + 1) }
    ensures none { IsNone result → bytes.now ≡ [] }
{
    match bytes.split_first() {
        Some((first, rest)) => Some((*first, rest)),
        None => None,
    }
}

/// Appends bytes, for which there is room.
fn gather(gathered: &mut HeapCircularBuffer<u8>, bytes: &[u8])
    requires { length gathered.old.items + length bytes.now ≤ gathered.old.capacity }
    ensures items { gathered.new.items ≡ gathered.old.items ++ bytes.now }
    ensures room { gathered.new.capacity ≡ gathered.old.capacity }
{
    gathered.fill_from_slice(bytes);
}
