//! The level of a value, and the value that a level shows.
//!
//! With `R = hi - lo` and `M = 2^bits - 1`, a value x has the level nearest to `(x - lo) * M / R`, and a
//! level q shows the value nearest to `lo + q * R / M`. A tie goes up.

ghost use Rattle.std.specs.Prelude.{◌≡◌, ◌<◌, ◌≤◌, ◌+◌, ◌*◌, ◌-◌, ◌^◌, ℤ, IsTrue, ◌≤ℤ◌, ◌-ℤ◌, ◌+ℤ◌, pos};
ghost use Rattle.std.specs.Int.{int_gap};
ghost use Rattle.std.specs.Int.RustNames.{unsigned_abs};
ghost use Rattle.quantised_fields.specs.Levels.{is_sound, range_of, greatest_of, level_of, shown_of, level_in, shown_in};

use crate::field::FieldSpec;
use tn_types::{MAX_FIELD_BITS, MAX_WORD_BITS};

// The range of a field with all values of 16 bits, as coordinates have.
const WHOLE_WORDS: u64 = 65_535;

/// How far `x` is above `lo`.
fn gap(lo: i64, x: i64) -> u64
    requires order { lo ≤ℤ x }
    requires small { int_gap lo x < 2 ^ MAX_WORD_BITS }
    ensures { result ≡ int_gap lo x }
{
    (x - lo) as u64
}

/// How far the field's greatest value is above its least.
pub fn range(spec: &FieldSpec) -> u64
    requires { IsTrue (is_sound spec.now) }
    ensures value { result ≡ range_of spec.now }
    ensures above { 0 < result }
    ensures below { result < 2 ^ MAX_WORD_BITS }
{
    gap(spec.lo, spec.hi)
}

fn power(bits: u32) -> u64
    requires { bits < 64 }
    ensures { result ≡ 2 ^ bits }
{
    1u64 << bits
}

/// The greatest level in which a value of the field travels.
#[tactic(auto, using(crate::proofs::Specs::greatest_above, crate::proofs::Specs::greatest_below))]
pub fn greatest(spec: &FieldSpec) -> u64
    requires { IsTrue (is_sound spec.now) }
    ensures value { result ≡ greatest_of spec.now }
    ensures above { 0 < result }
    ensures below { result < 2 ^ MAX_FIELD_BITS }
{
    power(spec.bits) - 1
}

// The level at this distance above the least value.
fn nearest_level(distance: u64, range: u64, greatest: u64) -> u32
    requires within { distance ≤ range }
    requires above { 0 < range }
    requires range { range < 2 ^ MAX_WORD_BITS }
    requires greatest { greatest < 2 ^ MAX_FIELD_BITS }
    ensures value { result ≡ level_in distance range greatest }
    ensures fits { result ≤ greatest }
{
    if range == greatest {
        // each value has a level of its own
        return distance as u32;
    }
    if range == WHOLE_WORDS {
        // the range of coordinates: the compiler needs no division for it
        return ((2 * distance * greatest + WHOLE_WORDS) / (2 * WHOLE_WORDS)) as u32;
    }
    ((2 * distance * greatest + range) / (2 * range)) as u32
}

// The distance above the least value that this level shows.
fn nearest_distance(level: u64, range: u64, greatest: u64) -> u64
    requires within { level ≤ greatest }
    requires above { 0 < greatest }
    requires range { range < 2 ^ MAX_WORD_BITS }
    requires greatest { greatest < 2 ^ MAX_FIELD_BITS }
    ensures value { result ≡ shown_in level range greatest }
    ensures fits { result ≤ range }
{
    (2 * level * range + greatest) / (2 * greatest)
}

/// The level in which this value of the field travels (docs/wire.md, "Levels").
#[tactic(auto, using(crate::proofs::Specs::level_near, crate::proofs::Specs::level_exact))]
pub fn level(spec: &FieldSpec, value: i64) -> u32
    requires sound { IsTrue (is_sound spec.now) }
    requires least { spec.now.lo ≤ℤ value }
    requires greatest { value ≤ℤ spec.now.hi }
    ensures value { result ≡ level_of spec.now value }
    ensures fits { result < 2 ^ spec.now.bits }

    // What the level shows is at most half a step and half a unit from the value,
    ensures near { 2 * greatest_of spec.now * unsigned_abs (shown_of spec.now result -ℤ value) ≤ range_of spec.now + greatest_of spec.now }
    // and the value itself where each value has a level of its own.
    ensures exact { range_of spec.now ≤ greatest_of spec.now → shown_of spec.now result ≡ value }
{
    nearest_level(gap(spec.lo, value), range(spec), greatest(spec))
}

// The number that is this far above lo, up to hi.
#[tactic(auto, using(crate::proofs::Specs::shown_high, crate::proofs::Specs::shown_low))]
fn raised(lo: i64, by: u64, hi: i64) -> i64
    requires order { lo ≤ℤ hi }
    requires within { by ≤ int_gap lo hi }
    requires small { by < 2 ^ MAX_WORD_BITS }
    ensures value { result ≡ lo +ℤ pos by }
    ensures least { lo ≤ℤ result }
    ensures greatest { result ≤ℤ hi }
{
    lo + by as i64
}

/// The value of the field that this level shows (docs/wire.md, "Levels").
#[tactic(auto, using(crate::proofs::Specs::level_again))]
pub fn shown(spec: &FieldSpec, level: u32) -> i64
    requires sound { IsTrue (is_sound spec.now) }
    requires fits { level < 2 ^ spec.now.bits }
    ensures value { result ≡ shown_of spec.now level }
    ensures least { spec.now.lo ≤ℤ result }
    ensures greatest { result ≤ℤ spec.now.hi }

    // The level of some value is the level of what it shows: to show and to level again changes nothing.
    ensures again { (x : ℤ) → spec.now.lo ≤ℤ x → level ≡ level_of spec.now x → level_of spec.now (shown_of spec.now level) ≡ level }
{
    raised(
        spec.lo,
        nearest_distance(level as u64, range(spec), greatest(spec)),
        spec.hi,
    )
}
