//! What a step above the least value of a field is of a level, so that a value's level is found by one multiplication.

ghost use Rattle.std.specs.Prelude.{◌≡◌, ◌<◌, ◌≤◌, ◌+◌, ◌-◌, ◌*◌, ◌/◌, ◌^◌, ◌≤ℤ◌, IfSome, IsTrue, is_some};
ghost use Rattle.quantised_fields.specs.declared.field.FieldSpec.{FieldSpec};
ghost use Rattle.quantised_fields.specs.Levels.{is_sound, range_of, greatest_of, level_of};
ghost use Rattle.level_scales.specs.Scales.{step_of, has_scale, IsScaleOf};

use quantised_fields::FieldSpec;
use quantised_fields::levels::{greatest, range};
use tn_types::{MAX_FIELD_BITS, MAX_WORD_BITS};

// A level is counted in so many parts, as a power of two.
const PARTS_BITS: u32 = 40;

/// The parts of a level.
pub const PARTS: u64 = 1 << PARTS_BITS;

/// The widest range for which so many parts are enough, whatever the width of the field.
pub const NARROW: u64 = 1 << 19;

/// What a step of a field's values is of a level, what makes its least value level 0, and its bits.
#[derive(Clone, Copy)]
pub struct Scale {
    /// Half a level less the field's least value, in the same parts and modulo 2 ^ 64: so a value's word, times the step and
    /// with this added, is how far it is above the least value and half a level more, negative or not.
    pub base: u64,
    /// What a step is of a level, in parts of 2 ^ 40, rounded up.
    pub step: u64,
    pub bits: u32,
}

// What a step of the range is of a level.
fn step(range: u64, greatest: u64) -> u64
    requires above { 0 < range }
    requires range { range < 2 ^ MAX_WORD_BITS }
    requires greatest { greatest < 2 ^ MAX_FIELD_BITS }
    ensures { result ≡ step_of range greatest }
{
    (PARTS * greatest + (range - 1)) / range
}

impl Scale {
    /// The scale of a field; `None` where its range is too wide for levels by a multiplication.
    pub fn of(spec: &FieldSpec) -> Option<Scale>
        requires { IsTrue (is_sound spec.now) }
        ensures scale { IfSome result (IsScaleOf spec.now) }
        ensures some { is_some result ≡ has_scale spec.now }
    {
        let range = range(spec);
        let greatest = greatest(spec);
        if range != greatest && range > NARROW {
            return None;
        }
        let step = step(range, greatest);
        Some(Scale {
            base: (PARTS / 2).wrapping_sub(spec.lo.cast_unsigned().wrapping_mul(step)),
            step,
            bits: spec.bits,
        })
    }

    /// The level in which this value of the field travels (docs/wire.md, "Levels").
    pub fn level(&self, value: i64) -> u32
        requires { (spec : FieldSpec) × IsScaleOf spec self.now × (spec.lo ≤ℤ value) × (value ≤ℤ spec.hi) }
        ensures value { (spec : FieldSpec) → IsScaleOf spec self.now → spec.lo ≤ℤ value → value ≤ℤ spec.hi
            → result ≡ level_of spec value }
        ensures fits { result < 2 ^ self.now.bits }
    {
        let parts = value
            .cast_unsigned()
            .wrapping_mul(self.step)
            .wrapping_add(self.base);
        (parts >> PARTS_BITS) as u32
    }
}
