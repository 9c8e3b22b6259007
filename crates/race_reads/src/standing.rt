//! The reads of a client against the values that its objects had.
ghost use Rattle.std.specs.Prelude.{◌≡◌, ◌<◌, ◌-◌, Some, slice_get};
ghost use Rattle.std.specs.List.{AllByRecursion};
ghost use Rattle.race_history.specs.Deciding.{Decides};
ghost use Rattle.race_reads.specs.Reads.{ReadStands};
ghost use Rattle.race_reads.specs.Legal.{reads_of};

use crate::told::object_of;
use kept_pair::StepList;
use lane_periods::Objects;
use race_history::History;
use tn_types::Read;

// Whether a value is the one of this version, counted from 1.
fn has_version(versions: &[i64], version: u32, value: &i64) -> bool
    requires { 0 < version }
    ensures { Decides result (slice_get versions.now (version - 1) ≡ Some value.now) }
{
    match versions.get(version as usize - 1) {
        Some(told) => *told == *value,
        None => false,
    }
}

// Whether a read has the value at its version, for the object of its period and its field.
fn read_stands(values: &History, objects: &Objects, r: &Read) -> bool
    ensures { Decides result (ReadStands values.now objects.now r.now) }
{
    let Some(object) = object_of(objects, r.n) else {
        return false;
    };
    if r.version == 0 {
        return false;
    }
    has_version(values.versions(object, r.field), r.version, &r.value)
}

/// Whether each of these reads has it.
pub(crate) fn all_stand(values: &History, objects: &Objects, reads: &[Read]) -> bool
    ensures { Decides result (AllByRecursion (ReadStands values.now objects.now) reads.now) }
{
    for r in reads {
        if !read_stands(values, objects, r) {
            return false;
        }
    }
    true
}

/// Whether each read of all packs has it.
pub(crate) fn reads_stand(values: &History, objects: &Objects, steps: &StepList) -> bool
    ensures { Decides result (AllByRecursion (ReadStands values.now objects.now) (reads_of steps.now.list)) }
{
    for i in 0..steps.len() {
        if !all_stand(values, objects, steps.reads(i)) {
            return false;
        }
    }
    true
}
