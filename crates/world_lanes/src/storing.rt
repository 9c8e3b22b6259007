//! What is stored of a world.
ghost use Rattle.std.specs.Prelude.{◌≡◌, ◌<◌, ◌≤◌, ◌^◌, ◌-◌, ◌==◌, ◌&&◌, ◌||◌, ◌+◌, [], ℕ, true, length, OnOk, OnErr, nat_lt, vec_capacity};
ghost use Rattle.std.specs.List.{All};
ghost use Rattle.tn_types.specs.BitWords.{has_bit};
ghost use Rattle.world_rules.specs.Kinds.{match_kinds};
ghost use Rattle.dirty_lanes.specs.Views.{newest};
ghost use Rattle.world_rules.specs.declared.setup.Setup.{Setup};
ghost use Rattle.world_sim.specs.Worlds.{first_world, version_at};
ghost use Rattle.world_lanes.specs.Behind.{is_unwritten, is_behind, fields_below, objects_below, Brings, IsBrought};
ghost use Rattle.world_lanes.specs.Storing.{objects_between, IsNear};
ghost use Rattle.world_lanes.specs.Ticked.{is_write_of, is_written, IsTicked};
ghost use Rattle.world_lanes.specs.Told.{is_told};

use crate::listing::{list_field, with_bit};
use crate::raising::Changed;
use crate::words::field_word;
use dirty_lanes::{LaneName, Lanes, MAX_LANE_FIELDS, SimSeat};
use quantised_fields::KindTable;
use std::alloc::Global;
use tn_types::NoMemory;
use world_sim::{World, Write};

// Whether a version of a field was not written: the lanes count the first value as their version 1.
fn is_unwritten<N: LaneName>(world: &World, sim: &SimSeat<N>, object: u32, field: u8) -> bool
    requires there { object < length world.now.objects }
    requires named { object < N.objects }
    requires field { field < MAX_LANE_FIELDS }
    ensures told { result ≡ is_unwritten (newest sim.now.steps object field) (version_at world.now object field) }
    ensures few { result ≡ true → newest sim.now.steps object field ≤ world.now.ticks }
{
    match world.version(object, field) {
        Some(version) => sim.version(object, field) <= version,
        None => false,
    }
}

// Stores a field if the lanes are behind in it, and tells whether they were.
fn store_field<N: LaneName>(
    kinds: &KindTable,
    world: &World,
    lanes: &Lanes<N>,
    sim: &mut SimSeat<N>,
    object: u32,
    field: u8,
) -> bool
    requires kinds { kinds.now ≡ match_kinds }
    requires ticks { world.now.ticks < 2 ^ 32 - 1 }
    requires there { object < length world.now.objects }
    requires object { object < lanes.now.objects }
    requires field { field < MAX_LANE_FIELDS }
    ensures told { result ≡ is_behind world.now sim.old.steps object field }
    ensures brings { Brings world.now (λ o f. (o == object) && (f == field)) sim.old.steps sim.new.steps }
{
    // for its clauses
    let _objects = lanes.objects();
    let Some(word) = field_word(kinds, world, object, field) else {
        return false;
    };
    if !is_unwritten(world, sim, object, field) {
        return false;
    }
    sim.write(lanes, object, field, word);
    true
}

// Stores the fields of an object in which the lanes are behind, and tells them as bits.
fn store_object<N: LaneName>(
    kinds: &KindTable,
    world: &World,
    lanes: &Lanes<N>,
    sim: &mut SimSeat<N>,
    object: u32,
) -> u32
    requires kinds { kinds.now ≡ match_kinds }
    requires ticks { world.now.ticks < 2 ^ 32 - 1 }
    requires there { object < length world.now.objects }
    requires object { object < lanes.now.objects }
    ensures few { result < 2 ^ MAX_LANE_FIELDS }
    ensures told { (f : ℕ) → has_bit result f ≡ (nat_lt f MAX_LANE_FIELDS && is_behind world.now sim.old.steps object f) }
    ensures brings { Brings world.now (fields_below object MAX_LANE_FIELDS) sim.old.steps sim.new.steps }
{
    let mut bits = 0;
    for field in 0..MAX_LANE_FIELDS as u8 {
        let stored = store_field(kinds, world, lanes, sim, object, field);
        bits = with_bit(bits, field, stored);
    }
    bits
}

// Stores the fields of the objects from this one on in which the lanes are behind, and lists them too.
fn store_from<N: LaneName>(
    kinds: &KindTable,
    world: &World,
    lanes: &Lanes<N>,
    sim: &mut SimSeat<N>,
    from: u32,
    changed: &mut Vec<Changed>,
)
    requires kinds { kinds.now ≡ match_kinds }
    requires ticks { world.now.ticks < 2 ^ 32 - 1 }
    requires objects { length world.now.objects ≤ lanes.now.objects }
    requires from { from ≤ length world.now.objects }
    requires room { length changed.old.items + length world.now.objects ≤ vec_capacity changed.old + from }
    requires there { All (λ c. c.object < lanes.now.objects) changed.old.items }
    requires bits { All (λ c. c.bits < 2 ^ MAX_LANE_FIELDS) changed.old.items }
    ensures brings { Brings world.now (objects_between from (length world.now.objects)) sim.old.steps sim.new.steps }
    ensures told { (o f : ℕ) → is_told changed.new.items o f ≡ (is_told changed.old.items o f
        || (objects_between from (length world.now.objects) o f && is_behind world.now sim.old.steps o f)) }
    ensures there { All (λ c. c.object < lanes.now.objects) changed.new.items }
    ensures bits { All (λ c. c.bits < 2 ^ MAX_LANE_FIELDS) changed.new.items }
{
    for object in from..world.objects() {
        let bits = store_object(kinds, world, lanes, sim, object);
        if bits != 0 {
            changed.push_reserved(Changed { object, bits });
        }
    }
}

// Stores the field of a write if the lanes are behind in it, and then lists it.
fn store_write<N: LaneName>(
    kinds: &KindTable,
    world: &World,
    lanes: &Lanes<N>,
    sim: &mut SimSeat<N>,
    write: &Write,
    changed: &mut Vec<Changed>,
)
    requires kinds { kinds.now ≡ match_kinds }
    requires ticks { world.now.ticks < 2 ^ 32 - 1 }
    requires object { write.now.object < length world.now.objects }
    requires named { write.now.object < lanes.now.objects }
    requires field { write.now.field < MAX_LANE_FIELDS }
    requires room { length changed.old.items < vec_capacity changed.old }
    requires there { All (λ c. c.object < lanes.now.objects) changed.old.items }
    requires bits { All (λ c. c.bits < 2 ^ MAX_LANE_FIELDS) changed.old.items }
    ensures brings { Brings world.now (λ o f. is_write_of o f write.now) sim.old.steps sim.new.steps }
    ensures told { (o f : ℕ) → is_told changed.new.items o f
        ≡ (is_told changed.old.items o f || (is_write_of o f write.now && is_behind world.now sim.old.steps o f)) }
    ensures there { All (λ c. c.object < lanes.now.objects) changed.new.items }
    ensures bits { All (λ c. c.bits < 2 ^ MAX_LANE_FIELDS) changed.new.items }
    ensures few { length changed.new.items ≤ length changed.old.items + 1 }
    ensures kept { vec_capacity changed.old ≤ vec_capacity changed.new }
{
    if !store_field(kinds, world, lanes, sim, write.object, write.field) {
        return;
    }
    list_field(changed, write.object, write.field);
}

// Stores the fields of the last tick's writes in which the lanes are behind, and lists them.
fn store_written<N: LaneName>(
    kinds: &KindTable,
    world: &World,
    lanes: &Lanes<N>,
    sim: &mut SimSeat<N>,
    changed: &mut Vec<Changed>,
)
    requires kinds { kinds.now ≡ match_kinds }
    requires ticks { world.now.ticks < 2 ^ 32 - 1 }
    requires objects { length world.now.objects ≤ lanes.now.objects }
    requires near { IsNear world.now sim.old.steps }
    requires there { All (λ w. w.object < length world.now.objects) world.now.writes }
    requires fields { All (λ w. w.field < MAX_LANE_FIELDS) world.now.writes }
    requires none { changed.old.items ≡ [] }
    requires room { length world.now.writes ≤ vec_capacity changed.old }
    ensures brings { Brings world.now (is_written world.now.writes) sim.old.steps sim.new.steps }
    ensures told { (o f : ℕ) → is_told changed.new.items o f
        ≡ (is_written world.now.writes o f && is_behind world.now sim.old.steps o f) }
    ensures there { All (λ c. c.object < lanes.now.objects) changed.new.items }
    ensures bits { All (λ c. c.bits < 2 ^ MAX_LANE_FIELDS) changed.new.items }
    ensures few { length changed.new.items ≤ length world.now.writes }
    ensures kept { vec_capacity changed.old ≤ vec_capacity changed.new }
{
    for write in world.writes() {
        store_write(kinds, world, lanes, sim, write, changed);
    }
}

/// Stores each field of the world in which the lanes are behind: all fields of an object that is new, and each that was written
/// since. It tells no client, but lists what was stored, in place of what was in `changed`. For want of memory nothing was stored.
pub fn store_world<N: LaneName>(
    kinds: &KindTable,
    world: &World,
    lanes: &Lanes<N>,
    sim: &mut SimSeat<N>,
    changed: &mut Vec<Changed>,
) -> Result<(), NoMemory>
    requires kinds { kinds.now ≡ match_kinds }
    requires ticks { world.now.ticks < 2 ^ 32 - 1 }
    requires objects { length world.now.objects ≤ lanes.now.objects }
    ensures brings { OnOk result (Brings world.now (objects_below (length world.now.objects)) sim.old.steps sim.new.steps) }
    ensures told { OnOk result ((o f : ℕ) → is_told changed.new.items o f
        ≡ (objects_below (length world.now.objects) o f && is_behind world.now sim.old.steps o f)) }
    ensures there { OnOk result (All (λ c. c.object < lanes.now.objects) changed.new.items) }
    ensures bits { OnOk result (All (λ c. c.bits < 2 ^ MAX_LANE_FIELDS) changed.new.items) }
    ensures whole { OnOk result ((seed : ℕ) (setup : Setup) → world.now ≡ first_world seed setup → IsBrought world.now sim.new.steps) }
    ensures unchanged { OnErr result (sim.new ≡ sim.old) }
{
    changed.clear();
    if changed.reserve(world.objects() as usize).is_err() {
        return Err(NoMemory);
    }
    store_from(kinds, world, lanes, sim, 0, changed);
    Ok(())
}

/// Stores each field in which the lanes are behind after a tick, where there were so many objects before it, and the lanes were behind
/// in no field of them: so it looks at what the tick wrote, and at the objects that it made, alone. It tells no client, but lists what
/// was stored, in place of what was in `changed`. For want of memory nothing was stored.
pub fn store_writes<N: LaneName>(
    kinds: &KindTable,
    world: &World,
    lanes: &Lanes<N>,
    sim: &mut SimSeat<N>,
    had: u32,
    changed: &mut Vec<Changed>,
) -> Result<(), NoMemory>
    requires kinds { kinds.now ≡ match_kinds }
    requires ticks { world.now.ticks < 2 ^ 32 - 1 }
    requires objects { length world.now.objects ≤ lanes.now.objects }
    requires ticked { IsTicked world.now had sim.old.steps }
    ensures brings { OnOk result (Brings world.now (objects_below (length world.now.objects)) sim.old.steps sim.new.steps) }
    ensures told { OnOk result ((o f : ℕ) → is_told changed.new.items o f
        ≡ (objects_below (length world.now.objects) o f && is_behind world.now sim.old.steps o f)) }
    ensures there { OnOk result (All (λ c. c.object < lanes.now.objects) changed.new.items) }
    ensures bits { OnOk result (All (λ c. c.bits < 2 ^ MAX_LANE_FIELDS) changed.new.items) }
    ensures whole { OnOk result (IsBrought world.now sim.new.steps) }
    ensures unchanged { OnErr result (sim.new ≡ sim.old) }
{
    changed.clear();
    let made = (world.objects() - had) as usize;
    if changed.reserve(world.writes().len() + made).is_err() {
        return Err(NoMemory);
    }
    store_written(kinds, world, lanes, sim, changed);
    store_from(kinds, world, lanes, sim, had, changed);
    Ok(())
}
