//! An offset that the caller keeps.
ghost use Rattle.std.specs.Prelude.{◌≡◌, ◌≤◌, pos};
ghost use Rattle.std.specs.Int.RustNames.{unsigned_abs};
ghost use Rattle.fading_offset.specs.Fading.{Does, Answers, Corrected, Faded, offset_by};
ghost use Rattle.tribes_link.specs.Clocks.{offset_of, OffsetAnswers};

use fading_offset::Fading;

/// No offset has these numbers: its bound is above 16,777,215, or it was changed.
pub(crate) const NO_OFFSET: i32 = -102;

/// An offset: the most that it may be either way, and what is left of it.
#[repr(C)]
#[derive(Clone, Copy)]
pub struct OffsetRow {
    pub most: u32,
    pub left: i64,
}

/// The field has the value `is`, and was predicted as `was`.
#[unsafe(no_mangle)]
pub extern "C" fn tribes_offset_corrected(offset: &mut OffsetRow, was: i32, is: i32) -> i32
    ensures told { result ≡ pos 0 → Does (offset_of offset.old) (Corrected was is) (offset_of offset.new) }
    ensures most { offset.new.most ≡ offset.old.most }
    ensures within { result ≡ pos 0 → unsigned_abs offset.new.left ≤ offset.new.most }
    ensures answer { OffsetAnswers (offset_of offset.old) result }
    ensures unchanged { (result ≡ pos 0 → ⊥) → offset.new ≡ offset.old }
{
    let Some(mut kept) = Fading::of_parts(offset.most, offset.left) else {
        return NO_OFFSET;
    };
    kept.corrected(was, is);
    offset.left = kept.offset();
    0
}

/// A step passed.
#[unsafe(no_mangle)]
pub extern "C" fn tribes_offset_faded(offset: &mut OffsetRow) -> i32
    ensures told { result ≡ pos 0 → Does (offset_of offset.old) Faded (offset_of offset.new) }
    ensures most { offset.new.most ≡ offset.old.most }
    ensures within { result ≡ pos 0 → unsigned_abs offset.new.left ≤ offset.new.most }
    ensures answer { OffsetAnswers (offset_of offset.old) result }
    ensures unchanged { (result ≡ pos 0 → ⊥) → offset.new ≡ offset.old }
{
    let Some(mut kept) = Fading::of_parts(offset.most, offset.left) else {
        return NO_OFFSET;
    };
    kept.faded();
    offset.left = kept.offset();
    0
}

/// Gives what is to be added to the field's value where it is shown.
#[unsafe(no_mangle)]
pub extern "C" fn tribes_offset_value(offset: &OffsetRow, value: &mut i64) -> i32
    ensures told { result ≡ pos 0 → Answers (offset_of offset.now) offset_by value.new }
    ensures within { result ≡ pos 0 → unsigned_abs value.new ≤ offset.now.most }
    ensures answer { OffsetAnswers (offset_of offset.now) result }
{
    let Some(kept) = Fading::of_parts(offset.most, offset.left) else {
        return NO_OFFSET;
    };
    *value = kept.offset();
    0
}
