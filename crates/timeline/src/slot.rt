//! What is kept of one slot: the kind of its copy, when it was gone, and the keyframes of each field.
ghost use Rattle.std.specs.Prelude.{◌≡◌, ℕ, ◌≤◌, ◌<◌, length, map, replicate, IfOk, None, Some, slice_get, slice_set};
ghost use Rattle.timeline.specs.Keeping.{Kept, value_in};
ghost use Rattle.timeline.specs.Standing.{SlotKept, emptied, with_frame, kind_shown, fresh, no_frames};

use crate::between::{Interpolation, Keyframe, moment};
use crate::frames::Frames;
use std::alloc::Global;
use std::marker::Model;
use tn_types::{MAX_LIFE, NoMemory};

/// The copy that began last in a slot.
#[derive(Drop)]
pub struct Slot {
    kind: Option<u32>,
    end: Option<u32>,
    fields: Vec<Frames>,
}

impl Model for Slot {
    ghost use Rattle.timeline.specs.Standing.{SlotKept};

    ghost Value = { SlotKept };

    ghost view = { λ s. record { kind = s.kind; end = s.end; fields = s.fields.items } };
}

impl Slot {
    /// No copy yet, and memory for so many keyframes of each field.
    pub fn new(alloc: Global, fields: usize, room: usize) -> Result<Slot, NoMemory>
        requires { 0 < room }
        ensures { IfOk result (λ s. s ≡ fresh fields room) }
    {
        Ok(Slot {
            kind: None,
            end: None,
            fields: fields_of(alloc, fields, room)?,
        })
    }

    /// How many fields there are.
    pub fn fields(&self) -> usize
        ensures { result ≡ length self.now.fields }
    {
        self.fields.len()
    }

    /// A copy of this kind begins: all keyframes of the one before are let go.
    pub fn begin(&mut self, kind: u32)
        ensures { self.new ≡ record { kind = Some kind; end = None; fields = map emptied self.old.fields } }
    {
        self.kind = Some(kind);
        self.end = None;
        clear_all(&mut self.fields);
    }

    /// A value of this field came.
    #[tactic(auto, using(std::proofs::lemmas::Option::get_or_from_slice_get))]
    pub fn come(&mut self, field: usize, frame: Keyframe)
        requires field { field < length self.old.fields }
        requires life { frame.packet ≤ MAX_LIFE }
        ensures kept { (k : Kept) → slice_get self.old.fields field ≡ Some k
            → self.new ≡ record self.old { fields = slice_set self.old.fields field (with_frame frame k) } }
        ensures count { length self.new.fields ≡ length self.old.fields }
    {
        self.fields[field].add(frame);
    }

    /// The copy is gone by this packet.
    pub fn finish(&mut self, packet: u32)
        ensures { self.new ≡ record self.old { end = Some packet } }
    {
        self.end = Some(packet);
    }

    /// The kind of the copy at a moment: `None` if none began, or the moment is not before its end.
    pub fn kind_at(&self, at: u64) -> Option<u32>
        ensures { result ≡ kind_shown at self.now.kind self.now.end }
    {
        match self.end {
            Some(packet) if moment(packet) <= at => None,
            _ => self.kind,
        }
    }

    /// The value of a field at a moment.
    #[tactic(auto, using(std::proofs::lemmas::Option::get_or_from_slice_get))]
    pub fn value(&self, field: usize, how: Interpolation, at: u64) -> Option<i64>
        requires { field < length self.now.fields }
        ensures { (k : Kept) → slice_get self.now.fields field ≡ Some k → result ≡ value_in how at k.frames }
    {
        self.fields[field].value(how, at)
    }
}

// So many fields without a keyframe.
fn fields_of(alloc: Global, count: usize, room: usize) -> Result<Vec<Frames>, NoMemory>
    requires { 0 < room }
    ensures { IfOk result (λ v. v.items ≡ replicate count (no_frames room)) }
{
    let mut fields = Vec::new(alloc);
    'fields: for _ in 0..count {
        let frames = Frames::new(alloc, room)?;
        let Ok(()) = fields.push(frames) else {
            return Err(NoMemory);
        };
    }
    Ok(fields)
}

// Lets go of all keyframes of each field.
fn clear_all(fields: &mut [Frames])
    ensures { fields.new ≡ map emptied fields.old }
{
    'fields: for frames in fields.iter_mut() {
        frames.clear();
    }
}
