//! What a field holds, and the list of fields of a kind.

ghost use Rattle.std.specs.Prelude.{◌≡◌, IsTrue, ◌↔◌, ◌≤ℤ◌, pos};

use tn_types::{MAX_FIELD_BITS, MAX_LISTED_FIELDS, MAX_WORD_BITS, ShortList};

/// The values that a field may have, `lo` to `hi`, and the number of bits in which one travels.
#[derive(Clone, Copy, Debug, PartialEq, Eq)]
pub struct FieldSpec {
    pub lo: i64,
    pub hi: i64,
    pub bits: u32,
}

impl Default for FieldSpec {
    /// A field that is not sound: it has the value 0 alone, and no bits.
    fn default() -> Self
        ensures { result ≡ record { lo = pos 0; hi = pos 0; bits = 0 } }
    {
        FieldSpec {
            lo: 0,
            hi: 0,
            bits: 0,
        }
    }
}

impl FieldSpec {
    ghost use Rattle.quantised_fields.specs.Levels.{is_sound};

    /// Whether the field has a range and a width: `hi - lo` is 1 to 2^32 - 1, and `bits` is 1 to 24
    /// (docs/wire.md, "Levels").
    pub fn is_sound(&self) -> bool
        ensures { result ≡ is_sound self.now }
    {
        let range = self.hi.abs_diff(self.lo);
        self.lo < self.hi
            && range < 1 << MAX_WORD_BITS
            && 0 < self.bits
            && self.bits <= MAX_FIELD_BITS
    }

    /// Whether the field may have this value.
    pub fn contains(&self, value: i64) -> bool
        ensures { IsTrue result ↔ ((self.now.lo ≤ℤ value) × (value ≤ℤ self.now.hi)) }
    {
        self.lo <= value && value <= self.hi
    }
}

/// A list of fields, at most 32. A table takes a kind of at most 16, so that a list that is too long can
/// be told.
pub type FieldList = ShortList<FieldSpec, MAX_LISTED_FIELDS>;
