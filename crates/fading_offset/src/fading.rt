//! The offset of one field.
ghost use Rattle.std.specs.Prelude.{◌≡◌, ◌≤◌, [], ◌+ℤ◌, ◌-ℤ◌, IfSome, IsSome, ◌↔◌};
ghost use Rattle.std.specs.Int.RustNames.{unsigned_abs};
ghost use Rattle.fading_offset.specs.Parts.{decayed, kept};

use std::marker::Model;

/// The greatest bound of an offset, which as many levels have as a field can have: 24 bits of them.
pub const GREATEST_MOST: u32 = 16_777_215;

/// How far from a field's value it is still shown. No call takes memory.
///
/// A clause sees `Shown`, and what it means by the list of corrections and steps.
#[derive(Drop)]
pub struct Fading {
    most: u32,
    offset: i64,
}

impl Model for Fading {
    ghost use Rattle.std.specs.Prelude.{◌≤◌};
    ghost use Rattle.std.specs.Int.RustNames.{unsigned_abs};
    ghost use Rattle.fading_offset.specs.declared.fading.TheConstants.{GREATEST_MOST};
    ghost use Rattle.fading_offset.specs.Fading.{Shown};

    ghost Value = { Shown };

    ghost view = { λ f. record { most = f.most; offset = f.offset } };

    ghost invariant = { λ f. (f.most ≤ GREATEST_MOST) × (unsigned_abs f.offset ≤ f.most) };
}

impl Fading {
    ghost use Rattle.fading_offset.specs.Fading.{IsBounded, StandsFor, Corrected, Faded, offset_by, Does, Answers};

    /// No offset, and none that will pass `most` either way: a correction that would is shown at once.
    pub fn new(most: u32) -> Fading
        requires { most ≤ GREATEST_MOST }
        ensures log { StandsFor result [] }
        ensures most { result.most ≡ most }
    {
        Fading { most, offset: 0 }
    }

    /// The offset of these numbers, for callers that keep them themselves: `None` exactly if no offset has them.
    pub fn of_parts(most: u32, offset: i64) -> Option<Fading>
        ensures some { IsSome result ↔ IsBounded (record { most = most; offset = offset }) }
        ensures value { IfSome result (λ f. f ≡ record { most = most; offset = offset }) }
    {
        if GREATEST_MOST < most || (most as u64) < offset.unsigned_abs() {
            return None;
        }
        Some(Fading { most, offset })
    }

    /// What is to be added to the field's value where it is shown.
    pub fn offset(&self) -> i64
        ensures value { result ≡ self.now.offset }
        ensures within { unsigned_abs result ≤ self.now.most }
        ensures log { Answers self.now offset_by result }
    {
        self.offset
    }

    /// The field is known to have the value `is`, which was `was` so far. What is shown stays where it is: the offset takes up the
    /// difference, or is none if it would pass the bound.
    pub fn corrected(&mut self, was: i32, is: i32)
        ensures log { Does self.old (Corrected was is) self.new }
        ensures most { self.new.most ≡ self.old.most }
    {
        let next = seen(self.offset, was, is);
        let left = kept(self.most, next);
        self.offset = left;
    }

    /// A step passed, as one of the world or of the player's moves: three quarters of the offset are left, cut towards 0.
    pub fn faded(&mut self)
        ensures log { Does self.old Faded self.new }
        ensures most { self.new.most ≡ self.old.most }
    {
        self.offset = decayed(self.offset);
    }
}

// The offset from the new value, so that what is shown stays where it is.
fn seen(offset: i64, was: i32, is: i32) -> i64
    requires { unsigned_abs offset ≤ GREATEST_MOST }
    ensures { result ≡ offset +ℤ was -ℤ is }
{
    offset + was as i64 - is as i64
}

// An offset, or none where it would pass the bound.
fn kept(most: u32, offset: i64) -> i64
    ensures value { result ≡ kept most offset }
    ensures within { unsigned_abs result ≤ most }
{
    if offset.unsigned_abs() > most as u64 {
        return 0;
    }
    offset
}

// Three quarters of an offset, cut towards 0.
fn decayed(offset: i64) -> i64
    requires { unsigned_abs offset ≤ GREATEST_MOST }
    ensures value { result ≡ decayed offset }
    ensures less { unsigned_abs result ≤ unsigned_abs offset }
{
    3 * offset / 4
}
