//! Moves of a mask as a whole word.

ghost use Rattle.std.specs.Prelude.{◌≡◌, ℕ, ◌-◌, ◌<◌, ◌≤◌, nat_lt, ◌&&◌, not, if◌then◌else◌};
ghost use Rattle.std.specs.Int.{bit_at};
ghost use Rattle.notify_window.specs.Bits.{moved_bit};
ghost use Rattle.tn_types.specs.PacketKinds.{is_ping};

use tn_types::{MAX_UNJUDGED_PACKETS, PacketKind};

/// The lowest `count` bits the other way round, and no other bit.
pub fn turned(mask: u32, count: u32) -> u32
    requires some { 0 < count }
    requires few { count ≤ MAX_UNJUDGED_PACKETS }
    ensures { (i : ℕ) → i < MAX_UNJUDGED_PACKETS → bit_at result i ≡ (if nat_lt i count then bit_at mask (count - 1 - i) else 0) }
{
    mask.reverse_bits() >> (MAX_UNJUDGED_PACKETS - count)
}

/// The mask for a horizon that is `by` above the old one. The lowest bit, which tells of the horizon itself,
/// is set for a packet with a body, which is processed, and not for a ping.
pub fn moved(mask: u32, by: u32, kind: PacketKind) -> u32
    ensures { (i : ℕ) → i < MAX_UNJUDGED_PACKETS → bit_at result i ≡ moved_bit mask by (not (is_ping kind)) i }
{
    let higher = raised(mask, by);
    match kind {
        PacketKind::Ping => higher,
        PacketKind::Body => higher | 1,
    }
}

/// The mask with each bit that many places up.
fn raised(mask: u32, by: u32) -> u32
    ensures { (i : ℕ) → i < MAX_UNJUDGED_PACKETS → bit_at result i ≡ (if nat_lt i by then 0 else bit_at mask (i - by)) }
{
    if by < MAX_UNJUDGED_PACKETS {
        mask << by
    } else {
        0
    }
}
