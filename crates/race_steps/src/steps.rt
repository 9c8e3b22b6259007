//! One step of a list.
ghost use Rattle.std.specs.Prelude.{◌≡◌, ◌<◌, length, slice_get};
ghost use Rattle.std.specs.Option.{option_and_then, option_map};
ghost use Rattle.pair_core.specs.Calls.{step_of};
ghost use Rattle.race_steps.specs.Asked.{message_step, act_done, room_found, is_pack_step};

use kept_pair::StepList;
use pair_core::PairStep;

/// The step of this place: of a pack it says no more than that it is one, which is all that is asked here.
pub(crate) fn step_at(steps: &StepList, i: u32) -> &PairStep
    requires there { i < length steps.now.list }
    ensures message { option_and_then message_step (slice_get steps.now.list i) ≡ message_step (step_of result.now) }
    ensures act { option_and_then act_done (slice_get steps.now.list i) ≡ act_done (step_of result.now) }
    ensures room { option_and_then room_found (slice_get steps.now.list i) ≡ room_found (step_of result.now) }
    ensures pack { option_map is_pack_step (slice_get steps.now.list i) ≡ Some (is_pack_step (step_of result.now)) }
{
    match steps.get(i) {
        Some(step) => step,
        None => unreachable!(),
    }
}
