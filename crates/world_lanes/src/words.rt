//! The words of values.
ghost use Rattle.std.specs.Prelude.{◌≡◌, ◌≤ℤ◌, ◌<◌, IsTrue, IfSome, is_none, length};
ghost use Rattle.std.specs.Option.{option_copied};
ghost use Rattle.quantised_fields.specs.Levels.{is_sound};
ghost use Rattle.lane_periods.specs.Views.{value_in};
ghost use Rattle.world_rules.specs.Kinds.{match_kinds};
ghost use Rattle.world_sim.specs.Worlds.{value_at};
ghost use Rattle.world_lanes.specs.Behind.{spec_at, Fits, IsWordOf};

use quantised_fields::{FieldSpec, KindTable};
use world_sim::World;

// What the lanes hold of a value: words count from the least value.
fn word_of(spec: &FieldSpec, value: &i64) -> u32
    requires sound { IsTrue (is_sound spec.now) }
    requires least { spec.now.lo ≤ℤ value.now }
    requires greatest { value.now ≤ℤ spec.now.hi }
    ensures { value_in spec.now result ≡ value.now }
{
    value.abs_diff(spec.lo) as u32
}

// The value of a field, if there is one.
fn value_of(world: &World, object: u32, field: u8) -> Option<&i64>
    requires { object < length world.now.objects }
    ensures value { option_copied result ≡ value_at world.now object field }
    ensures fits { IfSome result (λ value. Fits (spec_at world.now object field) value.now) }
{
    world.values(object).get(field as usize)
}

// How a field is told, if there is one.
fn spec_of<'a>(kinds: &'a KindTable, world: &World, object: u32, field: u8) -> Option<&'a FieldSpec>
    requires kinds { kinds.now ≡ match_kinds }
    requires object { object < length world.now.objects }
    ensures value { option_copied result ≡ spec_at world.now object field }
    ensures sound { IfSome result (λ spec. IsTrue (is_sound spec.now)) }
{
    let kind = kinds.kind(world.kind(object))?;
    kind.fields.as_slice().get(field as usize)
}

/// The word of a field's value; `None` exactly where the object has no such field.
pub(crate) fn field_word(kinds: &KindTable, world: &World, object: u32, field: u8) -> Option<u32>
    requires kinds { kinds.now ≡ match_kinds }
    requires object { object < length world.now.objects }
    ensures none { is_none result ≡ is_none (value_at world.now object field) }
    ensures word { IfSome result (IsWordOf world.now object field) }
{
    let value = value_of(world, object, field)?;
    match spec_of(kinds, world, object, field) {
        Some(spec) => Some(word_of(spec, value)),
        None => unreachable!(),
    }
}
