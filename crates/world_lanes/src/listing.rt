//! Which fields were stored, as bits by object.
ghost use Rattle.std.specs.Prelude.{◌≡◌, ◌<◌, ◌≤◌, ◌^◌, ◌==◌, ◌&&◌, ◌||◌, ◌+◌, ℕ, length, vec_capacity};
ghost use Rattle.std.specs.List.{All};
ghost use Rattle.tn_types.specs.BitWords.{has_bit};
ghost use Rattle.world_lanes.specs.Told.{is_told};

use crate::raising::Changed;
use dirty_lanes::MAX_LANE_FIELDS;

// The bits below this field's, and this one where it is set.
pub(crate) fn with_bit(bits: u32, field: u8, is_set: bool) -> u32
    requires field { field < MAX_LANE_FIELDS }
    requires below { bits < 2 ^ field }
    ensures few { result < 2 ^ (field + 1) }
    ensures bits { (f : ℕ) → has_bit result f ≡ (has_bit bits f || ((f == field) && is_set)) }
{
    if is_set { bits | (1 << field) } else { bits }
}

// These bits and the one of this field.
fn with_field(bits: u32, field: u8) -> u32
    requires field { field < MAX_LANE_FIELDS }
    requires bits { bits < 2 ^ MAX_LANE_FIELDS }
    ensures few { result < 2 ^ MAX_LANE_FIELDS }
    ensures bits { (f : ℕ) → has_bit result f ≡ (has_bit bits f || (f == field)) }
{
    bits | (1 << field)
}

// Lists a field: with the others of its object, where that was listed last.
pub(crate) fn list_field(changed: &mut Vec<Changed>, object: u32, field: u8)
    requires field { field < MAX_LANE_FIELDS }
    requires room { length changed.old.items < vec_capacity changed.old }
    requires bits { All (λ c. c.bits < 2 ^ MAX_LANE_FIELDS) changed.old.items }
    ensures told { (o f : ℕ) → is_told changed.new.items o f ≡ (is_told changed.old.items o f || ((o == object) && (f == field))) }
    ensures there { (most : ℕ) → object < most → All (λ c. c.object < most) changed.old.items
        → All (λ c. c.object < most) changed.new.items }
    ensures bits { All (λ c. c.bits < 2 ^ MAX_LANE_FIELDS) changed.new.items }
    ensures few { length changed.new.items ≤ length changed.old.items + 1 }
    ensures kept { vec_capacity changed.old ≤ vec_capacity changed.new }
{
    let n = changed.len();
    if n > 0 && changed[n - 1].object == object {
        changed[n - 1].bits = with_field(changed[n - 1].bits, field);
        return;
    }
    changed.push_reserved(Changed {
        object,
        bits: with_field(0, field),
    });
}
