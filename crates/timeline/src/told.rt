//! The timeline: what is told of slots, and the value of a field at a moment.
ghost use Rattle.std.specs.Prelude.{◌≡◌, ℕ, ◌+◌, ◌*◌, ◌≤◌, ◌<◌, ◌^◌, ℤ, length, replicate, Ok, IfOk, OnOk, OnErr, [], IsTrue, ◌↔◌};
ghost use Rattle.tn_types.specs.Histories.{Does, Answers};
ghost use Rattle.tn_types.specs.Checks.{then_check};
ghost use Rattle.std.specs.Result.{result_err};
ghost use Rattle.timeline.specs.Standing.{fresh};

use crate::between::{Interpolation, Keyframe};
use crate::refusal::Refusal;
use crate::slot::Slot;
use std::alloc::Global;
use std::marker::Model;
use tn_types::{MAX_FIELDS, MAX_LIFE, MAX_SLOTS, NoMemory};

/// Keyframes that a field can keep, at most.
pub const MAX_DEPTH: usize = 64;

/// Keyframes that a field keeps where nothing else is wanted.
pub const USUAL_DEPTH: usize = 8;

/// How large a timeline is. `is_sound` tells whether one can be made of it.
#[derive(Clone, Copy)]
pub struct Shape {
    /// 1 to 256.
    pub slots: usize,
    /// Fields of the kind that has most: 1 to 16.
    pub fields: usize,
    /// Keyframes that are kept of each field of each slot: 1 to 64.
    pub depth: usize,
}

impl Shape {
    ghost use Rattle.timeline.specs.Shapes.{IsSound};

    /// Whether each number is in its range.
    pub fn is_sound(&self) -> bool
        ensures { IsTrue result ↔ IsSound self.now }
    {
        0 < self.slots
            && self.slots <= MAX_SLOTS
            && 0 < self.fields
            && self.fields <= MAX_FIELDS
            && 0 < self.depth
            && self.depth <= MAX_DEPTH
    }
}

/// The values that came of the others, and what is to be drawn of them at a moment. Only `new` takes memory.
///
/// A clause sees `Drawing`, and what it means by the list of all that was told.
#[derive(Drop)]
pub struct Timeline {
    ways: Vec<Interpolation>,
    fields: usize,
    depth: usize,
    latest: u32,
    slots: Vec<Slot>,
}

impl Model for Timeline {
    ghost use Rattle.timeline.specs.Standing.{Drawing, IsWhole};

    ghost Value = { Drawing };

    ghost view = { λ t. record { ways = t.ways.items; fields = t.fields; depth = t.depth; latest = t.latest; slots = t.slots.items } };

    ghost invariant = { λ t. IsWhole t.fields t.depth t.slots.items };
}

impl Timeline {
    ghost use Rattle.timeline.specs.Telling.{Began, Came, Ended, Told, told_of};
    ghost use Rattle.timeline.specs.Standing.{StandsFor, slot_check, packet_check, field_check, kind_check, value_told, kind_told, then_ok, way_of, KeepsShape};
    ghost use Rattle.timeline.specs.Shapes.{IsSound};

    /// Nothing was told yet. `ways` says how the fields go, `shape.fields` of them for each kind: field f of kind k at
    /// `k * shape.fields + f`, and any for a field that the kind hasn't.
    pub fn new(alloc: Global, shape: Shape, ways: &[Interpolation]) -> Result<Timeline, NoMemory>
        requires { IsSound shape }
        ensures log { IfOk result (λ t. StandsFor t []) }
        ensures shape { IfOk result (λ t.
            (t.ways ≡ ways.now) × (t.fields ≡ shape.fields) × (t.depth ≡ shape.depth) × (length t.slots ≡ shape.slots)) }
    {
        let table = copied(alloc, ways)?;
        let slots = slots_of(alloc, shape)?;
        Ok(Timeline {
            ways: table,
            fields: shape.fields,
            depth: shape.depth,
            latest: 0,
            slots,
        })
    }

    /// The number of the packet that told last, 0 if none did.
    pub fn latest(&self) -> u32
        ensures { result ≡ self.now.latest }
    {
        self.latest
    }

    /// How many slots it has.
    pub fn slots(&self) -> usize
        ensures { result ≡ length self.now.slots }
    {
        self.slots.len()
    }

    /// How many fields of each copy it keeps.
    pub fn fields(&self) -> usize
        ensures value { result ≡ self.now.fields }
        ensures few { result ≤ MAX_FIELDS }
    {
        self.fields
    }

    /// What is refused of a packet: `NoPacket`, else `GoesBack`.
    pub fn check_packet(&self, packet: u32) -> Result<(), Refusal>
        ensures { result ≡ packet_check self.now packet }
    {
        if packet == 0 || MAX_LIFE < packet {
            return Err(Refusal::NoPacket);
        }
        if packet < self.latest {
            return Err(Refusal::GoesBack);
        }
        Ok(())
    }

    /// What is refused of a kind: `NoKind`.
    pub fn check_kind(&self, kind: u32) -> Result<(), Refusal>
        ensures { result ≡ kind_check self.now kind }
    {
        if self.ways.len() <= kind as usize * self.fields {
            return Err(Refusal::NoKind);
        }
        Ok(())
    }

    /// By this packet a copy of this kind is in the slot, and none that was there before is drawn any more. Then tell the values that
    /// came with it. Refused as the first that holds of `NoSlot`, `NoPacket`, `GoesBack` and `NoKind`; nothing changes then.
    pub fn began(&mut self, slot: u32, packet: u32, kind: u32) -> Result<(), Refusal>
        ensures answer { result
            ≡ then_check (slot_check self.old slot) (then_check (packet_check self.old packet) (kind_check self.old kind)) }
        ensures log { OnOk result (Does StandsFor self.old (record { slot = slot; packet = packet; what = Began kind }) self.new) }
        ensures shape { OnOk result (KeepsShape self.old self.new) }
        ensures latest { OnOk result (self.new.latest ≡ packet) }
        ensures refused { OnErr result (self.new ≡ self.old) }
    {
        if let Err(refusal) = self.checked(slot, packet) {
            return Err(refusal);
        }
        if self.ways.len() <= kind as usize * self.fields {
            return Err(Refusal::NoKind);
        }
        self.slots[slot as usize].begin(kind);
        self.latest = packet;
        Ok(())
    }

    /// This packet brought a value of a field of the slot's copy. Refused as the first that holds of `NoSlot`, `NoPacket`, `GoesBack` and
    /// `NoField`; nothing changes then.
    pub fn came(&mut self, slot: u32, packet: u32, field: u32, value: i32) -> Result<(), Refusal>
        ensures answer { result
            ≡ then_check (slot_check self.old slot) (then_check (packet_check self.old packet) (field_check self.old field)) }
        ensures log { OnOk result (Does StandsFor self.old (record { slot = slot; packet = packet; what = Came field value }) self.new) }
        ensures shape { OnOk result (KeepsShape self.old self.new) }
        ensures latest { OnOk result (self.new.latest ≡ packet) }
        ensures refused { OnErr result (self.new ≡ self.old) }
    {
        if let Err(refusal) = self.checked(slot, packet) {
            return Err(refusal);
        }
        if self.fields <= field as usize {
            return Err(Refusal::NoField);
        }
        self.came_checked(slot, packet, field, value);
        Ok(())
    }

    /// The same where the caller knows that nothing is refused: it tests nothing.
    pub fn came_checked(&mut self, slot: u32, packet: u32, field: u32, value: i32)
        requires slot { slot < length self.old.slots }
        requires packet { packet_check self.old packet ≡ Ok tt }
        requires field { field < self.old.fields }
        ensures log { Does StandsFor self.old (record { slot = slot; packet = packet; what = Came field value }) self.new }
        ensures shape { KeepsShape self.old self.new }
        ensures latest { self.new.latest ≡ packet }
    {
        self.slots[slot as usize].come(field as usize, Keyframe { packet, value });
        self.latest = packet;
    }

    /// By this packet the slot's copy is gone. It is drawn until its moment. Refused as the first that holds of `NoSlot`, `NoPacket` and
    /// `GoesBack`; nothing changes then.
    pub fn ended(&mut self, slot: u32, packet: u32) -> Result<(), Refusal>
        ensures answer { result ≡ then_check (slot_check self.old slot) (packet_check self.old packet) }
        ensures log { OnOk result (Does StandsFor self.old (record { slot = slot; packet = packet; what = Ended }) self.new) }
        ensures shape { OnOk result (KeepsShape self.old self.new) }
        ensures latest { OnOk result (self.new.latest ≡ packet) }
        ensures refused { OnErr result (self.new ≡ self.old) }
    {
        if let Err(refusal) = self.checked(slot, packet) {
            return Err(refusal);
        }
        self.slots[slot as usize].finish(packet);
        self.latest = packet;
        Ok(())
    }

    // What is refused of each.
    #[tactic(auto, using(crate::proofs::AnswerFacts::no_slot, crate::proofs::AnswerFacts::packet_answer))]
    fn checked(&self, slot: u32, packet: u32) -> Result<(), Refusal>
        ensures answer { result ≡ then_check (slot_check self.now slot) (packet_check self.now packet) }
        ensures slot { OnOk result (slot < length self.now.slots) }
        ensures packet { OnOk result (packet_check self.now packet ≡ Ok tt) }
        ensures life { OnOk result (packet ≤ MAX_LIFE) }
    {
        if self.slots.len() <= slot as usize {
            return Err(Refusal::NoSlot);
        }
        if packet == 0 || MAX_LIFE < packet {
            return Err(Refusal::NoPacket);
        }
        if packet < self.latest {
            return Err(Refusal::GoesBack);
        }
        Ok(())
    }

    /// The kind of the copy that is drawn in the slot at a moment: `None` if none began there, or the moment is not before its end.
    /// Refused as `NoSlot` alone.
    pub fn kind_at(&self, slot: u32, at: u64) -> Result<Option<u32>, Refusal>
        ensures told { Answers StandsFor self.now (λ log. then_ok (slot_check self.now slot) (kind_told at (told_of slot log))) result }
        ensures refused { result_err result ≡ result_err (slot_check self.now slot) }
    {
        if self.slots.len() <= slot as usize {
            return Err(Refusal::NoSlot);
        }
        let place = &self.slots[slot as usize];
        Ok(place.kind_at(at))
    }

    /// The value of a field of the slot's copy at a moment: `None` where `kind_at` has none, or no value of the field came. Refused as
    /// `NoSlot`, else as `NoField`.
    pub fn value_at(&self, slot: u32, field: u32, at: u64) -> Result<Option<i64>, Refusal>
        ensures told { Answers StandsFor self.now
            (λ log. then_ok (then_check (slot_check self.now slot) (field_check self.now field))
            (value_told self.now field at (told_of slot log))) result }
        ensures refused { result_err result ≡ result_err (then_check (slot_check self.now slot) (field_check self.now field)) }
    {
        if self.slots.len() <= slot as usize {
            return Err(Refusal::NoSlot);
        }
        if self.fields <= field as usize {
            return Err(Refusal::NoField);
        }
        let place = &self.slots[slot as usize];
        match place.kind_at(at) {
            None => Ok(None),
            Some(kind) => Ok(place.value(field as usize, self.way(kind, field), at)),
        }
    }

    // How a field of a kind goes.
    #[tactic(auto, using(crate::proofs::AnswerFacts::way_here, crate::proofs::AnswerFacts::no_way))]
    fn way(&self, kind: u32, field: u32) -> Interpolation
        ensures { result ≡ way_of self.now.ways self.now.fields kind field }
    {
        let place = kind as usize * self.fields + field as usize;
        if place < self.ways.len() {
            return self.ways[place];
        }
        Interpolation::Stepped
    }
}

// The ways as a list of their own.
fn copied(alloc: Global, ways: &[Interpolation]) -> Result<Vec<Interpolation>, NoMemory>
    ensures { IfOk result (λ v. v.items ≡ ways.now) }
{
    match Vec::from_slice(alloc, ways) {
        Ok(list) => Ok(list),
        Err(_) => Err(NoMemory),
    }
}

// So many slots without a copy.
fn slots_of(alloc: Global, shape: Shape) -> Result<Vec<Slot>, NoMemory>
    requires { 0 < shape.depth }
    ensures { IfOk result (λ v. v.items ≡ replicate shape.slots (fresh shape.fields shape.depth)) }
{
    let mut slots = Vec::new(alloc);
    'slots: for _ in 0..shape.slots {
        let slot = Slot::new(alloc, shape.fields, shape.depth)?;
        let Ok(()) = slots.push(slot) else {
            return Err(NoMemory);
        };
    }
    Ok(slots)
}
