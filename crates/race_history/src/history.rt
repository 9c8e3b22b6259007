//! The values of all objects, world by world.
ghost use Rattle.std.specs.Prelude.{◌≡◌, ◌<◌, ◌≤◌, ◌∷◌, ◌++◌, List, [], Option, IfOk, OnOk, length, map};
ghost use Rattle.tn_types.specs.declared.moves.MoveBits.{MoveBits as OneMove};
ghost use Rattle.world_sim.specs.Rows.{values_of};
ghost use Rattle.world_sim.specs.Worlds.{Worlds, next};
ghost use Rattle.race_history.specs.Deciding.{Decides};
ghost use Rattle.race_history.specs.Growing.{reached, with_new, with_row, with_rows, with_write, with_writes};
ghost use Rattle.race_history.specs.History.{HasVersions, IsHistoryOf, fields_told, versions_told, world_after};

use crate::object::ObjectValues;
use std::alloc::{AllocError, Global};
use std::marker::Model;
use tn_types::{MAX_FIELDS, MAX_OBJECTS, NoMemory};
use world_sim::{World, Write};

/// The values that each field of each object had, by version: a field's first value is version 0, and each that differs from
/// the one before is the next version. A clause sees them as a list by object, field and version.
#[derive(Drop)]
pub struct History {
    objects: Vec<ObjectValues>,
}

impl Model for History {
    ghost use Rattle.std.specs.Prelude.{◌≤◌, length};
    ghost use Rattle.tn_types.specs.declared.limits.TheConstants.{MAX_OBJECTS};
    ghost use Rattle.race_history.specs.History.{Values};

    ghost Value = { Values };

    ghost view = { λ h. h.objects.items };

    ghost invariant = { λ h. length h.objects.items ≤ MAX_OBJECTS };
}

// Makes a place for an object, where there is none.
#[tactic(auto, using(crate::proofs::Extending::reached_there, crate::proofs::Extending::reached_end))]
fn reach(alloc: Global, objects: &mut Vec<ObjectValues>, i: usize) -> Result<(), AllocError>
    requires next { i ≤ length objects.old.items }
    requires place { i < MAX_OBJECTS }
    requires few { length objects.old.items ≤ MAX_OBJECTS }
    ensures objects { OnOk result (objects.new.items ≡ reached [] objects.old.items i) }
    ensures there { OnOk result (i < length objects.new.items) }
    ensures few { length objects.new.items ≤ MAX_OBJECTS }
{
    if i >= objects.len() {
        objects.push(ObjectValues::new(alloc))?;
    }
    Ok(())
}

// Adds the values of one more world.
fn add_world(
    alloc: Global,
    objects: &mut Vec<ObjectValues>,
    world: &World,
) -> Result<(), AllocError>
    requires { length objects.old.items ≤ MAX_OBJECTS }
    ensures value { OnOk result (objects.new.items ≡ with_rows objects.old.items (map values_of world.now.objects)) }
    ensures few { length objects.new.items ≤ MAX_OBJECTS }
{
    for object in 0..world.objects() {
        reach(alloc, objects, object as usize)?;
        objects[object as usize].add(alloc, world.values(object))?;
    }
    Ok(())
}

// Adds the value of a write, if its object is there.
#[tactic(auto, using(crate::proofs::Writing::changed_there, crate::proofs::Writing::unchanged_past))]
fn add_write(objects: &mut Vec<ObjectValues>, write: &Write) -> Result<(), AllocError>
    ensures value { OnOk result (objects.new.items ≡ with_write write.now objects.old.items) }
    ensures many { length objects.new.items ≡ length objects.old.items }
{
    let i = write.object as usize;
    if i >= objects.len() {
        return Ok(());
    }
    objects[i].add_to(write.field, &write.value)
}

// Adds the values of writes.
fn add_writes(objects: &mut Vec<ObjectValues>, writes: &[Write]) -> Result<(), AllocError>
    ensures value { OnOk result (objects.new.items ≡ with_writes writes.now objects.old.items) }
    ensures many { length objects.new.items ≡ length objects.old.items }
{
    for write in writes {
        add_write(objects, write)?;
    }
    Ok(())
}

// The first value of each field of an object.
fn first_values(alloc: Global, now: &[i64]) -> Result<ObjectValues, AllocError>
    requires { length now.now ≤ MAX_FIELDS }
    ensures { IfOk result (λ told. told ≡ with_row [] now.now) }
{
    let mut told = ObjectValues::new(alloc);
    told.add(alloc, now)?;
    Ok(told)
}

// Adds the objects that are new in a world.
fn add_new(alloc: Global, objects: &mut Vec<ObjectValues>, world: &World) -> Result<(), AllocError>
    requires few { length objects.old.items ≤ MAX_OBJECTS }
    ensures value { OnOk result (objects.new.items ≡ with_new objects.old.items (map values_of world.now.objects)) }
    ensures few { length objects.new.items ≤ MAX_OBJECTS }
{
    let all = world.objects();
    let from = (objects.len() as u32).min(all);
    for object in from..all {
        let told = first_values(alloc, world.values(object))?;
        objects.push(told)?;
    }
    Ok(())
}

impl History {
    /// The values of no world.
    pub fn new(alloc: Global) -> History
        ensures { result ≡ [] }
    {
        History {
            objects: Vec::new(alloc),
        }
    }

    /// Adds the values of one more world: the first one of a match, and then the world after each tick. After an `Err` the
    /// history may hold a part of them.
    pub fn add(&mut self, alloc: Global, world: &World) -> Result<(), NoMemory>
        ensures first { OnOk result (self.old ≡ [] → IsHistoryOf world.now [] self.new) }
        ensures next { OnOk result ((first : Worlds) (ticks : List (List (Option OneMove))) (moves : List (Option OneMove))
            → IsHistoryOf first ticks self.old → world.now ≡ next (world_after first ticks) moves
            → IsHistoryOf first (ticks ++ moves ∷ []) self.new) }
    {
        let Ok(()) = add_world(alloc, &mut self.objects, world) else {
            return Err(NoMemory);
        };
        Ok(())
    }

    /// Adds the values of the world after a tick by what the tick wrote and the objects that it made, and looks at no other: the same
    /// as `add` where each field of the world before it has its version. After an `Err` the history may hold a part of them.
    pub fn add_tick(&mut self, alloc: Global, world: &World) -> Result<(), NoMemory>
        ensures next { OnOk result ((first : Worlds) (ticks : List (List (Option OneMove))) (moves : List (Option OneMove))
            → HasVersions (world_after first ticks) → IsHistoryOf first ticks self.old → world.now ≡ next (world_after first ticks) moves
            → IsHistoryOf first (ticks ++ moves ∷ []) self.new) }
    {
        let Ok(()) = add_writes(&mut self.objects, world.writes()) else {
            return Err(NoMemory);
        };
        let Ok(()) = add_new(alloc, &mut self.objects, world) else {
            return Err(NoMemory);
        };
        Ok(())
    }

    /// How many objects these are.
    pub fn objects(&self) -> u32
        ensures value { result ≡ length self.now }
        ensures few { result ≤ MAX_OBJECTS }
    {
        self.objects.len() as u32
    }

    /// How many fields an object has; 0 where there is no such object.
    pub fn fields(&self, object: u32) -> u32
        ensures value { result ≡ length (fields_told self.now object) }
        ensures few { result ≤ MAX_FIELDS }
    {
        match self.objects.get(object as usize) {
            Some(told) => told.len(),
            None => 0,
        }
    }

    /// All values of a field by version; none where there is no such object or field.
    pub fn versions(&self, object: u32, field: u8) -> &[i64]
        ensures { result.now ≡ versions_told self.now object field }
    {
        match self.objects.get(object as usize) {
            Some(told) => told.versions(field),
            None => &[],
        }
    }

    /// Whether these are the same values: of as many objects, each with as many fields and the same values by version.
    pub fn is_same(&self, other: &History) -> bool
        ensures { Decides result (self.now ≡ other.now) }
    {
        if self.objects.len() != other.objects.len() {
            return false;
        }
        for (i, own) in self.objects.iter().enumerate() {
            if !own.is_same(&other.objects[i]) {
                return false;
            }
        }
        true
    }
}
