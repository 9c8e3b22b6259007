//! The messages that are left when all activities have ended.
ghost use Rattle.std.specs.Prelude.{◌≡◌, ◌++◌, List, OnOk, length};
ghost use Rattle.race_messages.specs.declared.message.Message.{Message as OneMessage};
ghost use Rattle.connection_lock.specs.Rule.{terms_of, progress_in};
ghost use Rattle.connection_lock.specs.Taking.{TakesAll};
ghost use Rattle.connection_lock.specs.Turns.{FaultAt};
ghost use Rattle.race_ending.specs.Ended.{TakesLeft};

use connection_lock::Locked;
use dirty_lanes::{LaneName, Lanes};
use race_history::kept_pair::KeepFault;
use race_sim::Waiting;
use std::alloc::Global;

// Takes what still waits at the simulation, the oldest first, until one meets a fault: that one and those after it are left.
fn take_waiting<N: LaneName>(
    alloc: Global,
    lanes: &Lanes<N>,
    locked: &mut Locked<N>,
    waiting: &mut Waiting,
) -> Result<(), KeepFault>
    ensures taken { (behind rest : List OneMessage) × (waiting.old ≡ behind ++ rest) × OnOk result (behind ≡ waiting.old)
        × TakesAll (terms_of locked.old) N.objects (progress_in locked.old) behind (progress_in locked.new) }
    ensures received { locked.new.received ≡ locked.old.received }
    ensures terms { terms_of locked.new ≡ terms_of locked.old }
    ensures client { locked.new.seat.client ≡ locked.old.seat.client }
    ensures fault { FaultAt (length locked.new.kept.steps) result }
{
    'each: while let Some(message) = waiting.take() {
        locked.take_one(alloc, lanes, message)?;
    }
    Ok(())
}

/// Takes what is left in the ring and then what still waits, in order. Where a step has no room, what is behind it is left.
pub(crate) fn take_left<N: LaneName>(
    alloc: Global,
    lanes: &Lanes<N>,
    locked: &mut Locked<N>,
    waiting: &mut Waiting,
) -> Result<(), KeepFault>
    ensures { TakesLeft N.objects locked.old waiting.old locked.new result }
{
    locked.take_rest(alloc, lanes)?;
    take_waiting(alloc, lanes, locked, waiting)
}
