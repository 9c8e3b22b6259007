//! What was read last in each period.
ghost use Rattle.std.specs.Prelude.{◌≡◌, ◌*◌, None, IfOk, replicate};
ghost use Rattle.std.specs.List.{AllByRecursion};
ghost use Rattle.race_reads.specs.Legal.{reads_of};
ghost use Rattle.race_reads.specs.Tables.{IsNarrow, AreLast, noted_periods};

use dirty_lanes::MAX_LANE_FIELDS;
use kept_pair::StepList;
use std::alloc::{AllocError, Global};
use tn_types::{NoMemory, Read};

/// A table of so many periods in which nothing was read.
pub(crate) fn nothing_yet(alloc: Global, periods: u32) -> Result<Vec<Option<u32>>, AllocError>
    ensures { IfOk result (λ v. v.items ≡ replicate (MAX_LANE_FIELDS * periods) None) }
{
    let n = MAX_LANE_FIELDS * periods as usize;
    let mut all = Vec::with_capacity(alloc, n)?;
    for _i in 0..n {
        all.push(None)?;
    }
    Ok(all)
}

/// Notes these reads. A period that the table hasn't is passed over.
pub(crate) fn note_reads(last: &mut [Option<u32>], reads: &[Read])
    ensures { last.new ≡ noted_periods last.old reads.now }
{
    for r in reads {
        let at = MAX_LANE_FIELDS * r.n as usize + r.field as usize;
        if at < last.len() {
            last[at] = Some(r.version);
        }
    }
}

/// The version at which each field of each period was read last: one walk over all packs.
pub(crate) fn last_reads(
    alloc: Global,
    periods: u32,
    steps: &StepList,
) -> Result<Vec<Option<u32>>, NoMemory>
    requires { AllByRecursion IsNarrow (reads_of steps.now.list) }
    ensures { IfOk result (λ v. AreLast periods (reads_of steps.now.list) v.items) }
{
    let Ok(mut last) = nothing_yet(alloc, periods) else {
        return Err(NoMemory);
    };
    for i in 0..steps.len() {
        note_reads(&mut last, steps.reads(i));
    }
    Ok(last)
}
