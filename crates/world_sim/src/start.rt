//! What a world starts with: its first objects, their rows, glances and places, and what every client sees.
ghost use Rattle.std.specs.Prelude.{◌≡◌, ◌≤◌, length, map, IfOk};
ghost use Rattle.std.specs.List.{AllByRecursion};
ghost use Rattle.world_rules.specs.Spawning.{first_objects};
ghost use Rattle.world_rules.specs.Ranges.{ObjectFits};
ghost use Rattle.world_cells.specs.Grid.{numbers, lasts, is_always};
ghost use Rattle.world_places.specs.Places.{ArePlaced};
ghost use Rattle.world_sim.specs.RowsNext.{fresh_row};
ghost use Rattle.world_sim.specs.Glances.{glance_of};

use crate::glance::{Glance, glance_of};
use crate::rows::{Row, fresh_row};
use std::alloc::{AllocError, Global};
use tn_types::MAX_OBJECTS;
use world_places::Places;
use world_rules::{Object, Spawn, State};

/// The objects at the start.
#[tactic(auto, using(crate::proofs::Started::first_more, crate::proofs::Started::first_end))]
pub fn start_objects(alloc: Global, spawns: &[Spawn]) -> Result<Vec<Object>, AllocError>
    requires { length spawns.now ≤ MAX_OBJECTS }
    ensures objects { IfOk result (λ v. v.items ≡ first_objects 0 spawns.now) }
    ensures few { IfOk result (λ v. length v.items ≤ MAX_OBJECTS) }
{
    let mut objects = Vec::with_capacity(alloc, MAX_OBJECTS)?;
    for (i, spawn) in spawns.iter().enumerate() {
        objects.push(spawn.object(i as u32))?;
    }
    Ok(objects)
}

/// The rows of the first objects.
pub fn first_rows(alloc: Global, objects: &[Object]) -> Result<Vec<Row>, AllocError>
    ensures { IfOk result (λ v. v.items ≡ map fresh_row objects.now) }
{
    let mut rows = Vec::with_capacity(alloc, MAX_OBJECTS)?;
    for o in objects {
        rows.push(fresh_row(o))?;
    }
    Ok(rows)
}

/// A glance at each of the first objects.
pub fn first_glances(alloc: Global, objects: &[Object]) -> Result<Vec<Glance>, AllocError>
    ensures { IfOk result (λ v. v.items ≡ map glance_of objects.now) }
{
    let mut glances = Vec::with_capacity(alloc, MAX_OBJECTS)?;
    for o in objects {
        glances.push(glance_of(o))?;
    }
    Ok(glances)
}

/// The places of the first objects.
pub fn first_places(alloc: Global, objects: &[Object]) -> Result<Places, AllocError>
    requires few { length objects.now ≤ MAX_OBJECTS }
    requires fits { AllByRecursion ObjectFits objects.now }
    ensures { IfOk result (λ places. ArePlaced places objects.now) }
{
    let mut places = Places::new(alloc)?;
    for (i, o) in objects.iter().enumerate() {
        places.settle(i as u32, o);
    }
    Ok(places)
}

// Whether an object's kind is always seen.
fn is_always(o: &Object) -> bool
    ensures { result ≡ is_always o.now }
{
    matches!(o.state, State::Flag(_) | State::Clock(_))
}

/// The numbers of those that every client sees.
#[tactic(auto, using(world_cells::proofs::Numbers::numbers_more, world_cells::proofs::Numbers::numbers_end))]
pub fn lasting(alloc: Global, objects: &[Object]) -> Result<Vec<u32>, AllocError>
    requires { length objects.now ≤ MAX_OBJECTS }
    ensures { IfOk result (λ v. v.items ≡ numbers lasts 0 objects.now) }
{
    let mut always = Vec::new(alloc);
    for (i, o) in objects.iter().enumerate() {
        if o.alive && is_always(o) {
            always.push(i as u32)?;
        }
    }
    Ok(always)
}
