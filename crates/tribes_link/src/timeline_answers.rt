//! What each call of a timeline ends with: it goes back into its handle, and the answer is a number.
ghost use Rattle.std.specs.Prelude.{◌≡◌, ◌↔◌, pos, Ok, IsOk, Some, None};
ghost use Rattle.std.specs.Result.{result_err};
ghost use Rattle.tribes_link.specs.Drawing.{line_code, LineAnswered, DrawAnswered};

use crate::timeline_handle::TimelineHandle;
use timeline::{Refusal, Timeline};
use tribes_ends::DrawFault;

/// No timeline is behind the handle.
pub(crate) const NO_TIMELINE: i32 = -90;

/// A timeline is behind the handle already.
pub(crate) const HAS_TIMELINE: i32 = -91;

/// A timeline's slots, fields or depth are none.
pub(crate) const BAD_SHAPE: i32 = -92;

/// A field cannot go so.
pub(crate) const BAD_WAY: i32 = -93;

/// The timeline has no slot of this number.
pub(crate) const NO_SLOT: i32 = -94;

/// No packet has this number.
pub(crate) const NO_PACKET: i32 = -95;

/// A packet of a higher number told before.
pub(crate) const GOES_BACK: i32 = -96;

/// No such kind, and no such field, as at an end.
pub(crate) const NO_KIND: i32 = -30;

pub(crate) const NO_FIELD: i32 = -37;

/// The call is for a client's end.
pub(crate) const WRONG_END: i32 = -4;

/// The code of a refusal.
pub(crate) fn line_code(refusal: Refusal) -> i32
    ensures value { result ≡ line_code refusal }
    ensures not_zero { result ≡ pos 0 → ⊥ }
    ensures not_one { result ≡ pos 1 → ⊥ }
{
    match refusal {
        Refusal::NoSlot => NO_SLOT,
        Refusal::NoPacket => NO_PACKET,
        Refusal::GoesBack => GOES_BACK,
        Refusal::NoField => NO_FIELD,
        Refusal::NoKind => NO_KIND,
    }
}

/// Puts the timeline back, and answers 0 or the refusal's code.
pub(crate) fn finish_told(
    handle: &mut TimelineHandle,
    timeline: Box<Timeline>,
    done: Result<(), Refusal>,
) -> i32
    ensures code { (result ≡ pos 0) ↔ IsOk done }
    ensures answered { LineAnswered 0 result (result_err done) }
    ensures held { handle.new.held.value ≡ Some timeline.value }
{
    handle.put(timeline);
    match done {
        Ok(()) => 0,
        Err(refusal) => line_code(refusal),
    }
}

/// The same of what an end told it.
pub(crate) fn finish_heard(
    handle: &mut TimelineHandle,
    timeline: Box<Timeline>,
    done: Result<(), DrawFault>,
) -> i32
    ensures code { (result ≡ pos 0) ↔ IsOk done }
    ensures answered { DrawAnswered result (result_err done) }
    ensures held { handle.new.held.value ≡ Some timeline.value }
{
    handle.put(timeline);
    match done {
        Ok(()) => 0,
        Err(DrawFault::WrongEnd) => WRONG_END,
        Err(DrawFault::Untold(refusal)) => line_code(refusal),
    }
}

/// Puts the timeline back, and answers 1 with a value, 0 without one, or the refusal's code.
pub(crate) fn finish_value(
    handle: &mut TimelineHandle,
    timeline: Box<Timeline>,
    done: Result<Option<i64>, Refusal>,
    out: &mut i64,
) -> i32
    ensures some { result ≡ pos 1 → done ≡ Ok (Some out.new) }
    ensures none { result ≡ pos 0 → done ≡ Ok None }
    ensures answered { LineAnswered 1 result (result_err done) }
    ensures held { handle.new.held.value ≡ Some timeline.value }
{
    handle.put(timeline);
    match done {
        Ok(Some(value)) => {
            *out = value;
            1
        }
        Ok(None) => 0,
        Err(refusal) => line_code(refusal),
    }
}

/// The same of a kind.
pub(crate) fn finish_kind(
    handle: &mut TimelineHandle,
    timeline: Box<Timeline>,
    done: Result<Option<u32>, Refusal>,
    out: &mut u32,
) -> i32
    ensures some { result ≡ pos 1 → done ≡ Ok (Some out.new) }
    ensures none { result ≡ pos 0 → done ≡ Ok None }
    ensures answered { LineAnswered 1 result (result_err done) }
    ensures held { handle.new.held.value ≡ Some timeline.value }
{
    handle.put(timeline);
    match done {
        Ok(Some(kind)) => {
            *out = kind;
            1
        }
        Ok(None) => 0,
        Err(refusal) => line_code(refusal),
    }
}
