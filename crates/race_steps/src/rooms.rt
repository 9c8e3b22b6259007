//! The places that steps found for moves.
ghost use Rattle.std.specs.Prelude.{◌≡◌};
ghost use Rattle.race_history.specs.Deciding.{Decides};
ghost use Rattle.pair_core.specs.Calls.{step_of};
ghost use Rattle.race_steps.specs.Asked.{IsRoom, AreRooms, room_found};

use crate::steps::step_at;
use kept_pair::KeptPair;
use pair_core::PairStep;
use tn_types::MAX_WAITING_MOVES;

// The places that a step found.
fn room_found(step: &PairStep) -> Option<u32>
    ensures { result ≡ room_found (step_of step.now) }
{
    match step {
        PairStep::Up { k: _, room } => Some(*room),
        PairStep::Raw { bytes: _, room } => Some(*room),
        _ => None,
    }
}

// Whether there may have been so many places where so many moves were accepted before.
fn is_room(accepted: u32, room: u32) -> bool
    ensures { Decides result (IsRoom accepted room) }
{
    let most = MAX_WAITING_MOVES as u32;
    room <= most && most - room <= accepted
}

/// Whether each step found places for moves that there may have been.
pub(crate) fn are_rooms(pair: &KeptPair) -> bool
    ensures { Decides result (AreRooms pair.now) }
{
    let steps = pair.steps();
    for i in 0..steps.len() {
        if let Some(room) = room_found(step_at(steps, i)) {
            if !is_room(pair.accepted_before(i), room) {
                return false;
            }
        }
    }
    true
}
