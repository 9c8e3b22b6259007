//! The versions that a client read, in order.
ghost use Rattle.std.specs.Prelude.{◌≡◌, ◌<◌, ◌≤◌, ◌*◌, true, length, IfOk, replicate};
ghost use Rattle.std.specs.List.{AllByRecursion};
ghost use Rattle.race_history.specs.Deciding.{Decides};
ghost use Rattle.race_reads.specs.Reads.{NeverFalls};
ghost use Rattle.race_reads.specs.Legal.{reads_of};
ghost use Rattle.race_reads.specs.Tables.{HasPlace, RisesFrom, noted, place_of};

use crate::told::object_of;
use dirty_lanes::MAX_LANE_FIELDS;
use kept_pair::StepList;
use lane_periods::Objects;
use std::alloc::{AllocError, Global};
use tn_types::{MAX_OBJECTS, NoMemory, Read};

/// A table of so many objects of which nothing was read.
pub(crate) fn nothing_read(alloc: Global, objects: u32) -> Result<Vec<u32>, AllocError>
    requires { objects ≤ MAX_OBJECTS }
    ensures { IfOk result (λ v. v.items ≡ replicate (MAX_LANE_FIELDS * objects) 0) }
{
    let n = MAX_LANE_FIELDS * objects as usize;
    let mut all = Vec::with_capacity(alloc, n)?;
    for _i in 0..n {
        all.push(0)?;
    }
    Ok(all)
}

// The place of a read in the table.
fn place_of(objects: &Objects, count: u32, r: &Read) -> usize
    requires few { count ≤ MAX_OBJECTS }
    requires has { HasPlace objects.now count r.now }
    ensures value { result ≡ place_of objects.now r.now }
    ensures inside { result < MAX_LANE_FIELDS * count }
{
    let Some(object) = object_of(objects, r.n) else {
        unreachable!()
    };
    MAX_LANE_FIELDS * object as usize + r.field as usize
}

/// Whether none of these reads is of an older version than one before it, and notes them.
pub(crate) fn all_rise(last: &mut [u32], objects: &Objects, count: u32, reads: &[Read]) -> bool
    requires few { count ≤ MAX_OBJECTS }
    requires long { length last.old ≡ MAX_LANE_FIELDS * count }
    requires places { AllByRecursion (HasPlace objects.now count) reads.now }
    ensures rise { Decides result (RisesFrom objects.now last.old reads.now) }
    ensures noted { result ≡ true → last.new ≡ noted objects.now last.old reads.now }
{
    for r in reads {
        let at = place_of(objects, count, r);
        if r.version < last[at] {
            return false;
        }
        last[at] = r.version;
    }
    true
}

/// Whether for each object and field the versions that were read never go down: one walk over all packs.
pub(crate) fn never_falls(
    alloc: Global,
    objects: &Objects,
    count: u32,
    steps: &StepList,
) -> Result<bool, NoMemory>
    requires few { count ≤ MAX_OBJECTS }
    requires places { AllByRecursion (HasPlace objects.now count) (reads_of steps.now.list) }
    ensures { IfOk result (λ b. Decides b (NeverFalls objects.now (reads_of steps.now.list))) }
{
    let Ok(mut last) = nothing_read(alloc, count) else {
        return Err(NoMemory);
    };
    for i in 0..steps.len() {
        if !all_rise(&mut last, objects, count, steps.reads(i)) {
            return Ok(false);
        }
    }
    Ok(true)
}
