//! One step of a connection, where there is room for it.
ghost use Rattle.std.specs.Prelude.{◌≡◌, ◌++◌, ◌∷◌, [], true, false, IfOk};
ghost use Rattle.std.specs.List.{AllByRecursion};
ghost use Rattle.pair_core.specs.Calls.{step_of};
ghost use Rattle.pair_core.specs.History.{Pack};
ghost use Rattle.kept_pair.specs.Kept.{terms_in, MayStep, accepted_by};
ghost use Rattle.legal_race.specs.race_steps.Asked.{IsRoom};
ghost use Rattle.plain_race.specs.Asks.{IsAct, IsGiven};
ghost use Rattle.plain_race.specs.Done.{IsOwnStep, IsRefused};
ghost use Rattle.std.specs.Prelude.{length};

use crate::zero_values::ZeroValues;
use legal_race::race_history::kept_pair::{KeepFault, KeptPair};
use pair_core::PairStep;
use std::alloc::Global;
use tn_types::{MAX_WAITING_MOVES, NoMemory};

// Makes room for a step that drains nothing; `false` exactly where as many are kept as can be.
fn make_room(alloc: Global, pair: &mut KeptPair) -> Result<bool, NoMemory>
    ensures prepared { IfOk result (λ b. b ≡ true → pair.new.prepared ≡ true) }
    ensures refused { IfOk result (λ b. b ≡ false → IsRefused pair.old pair.new) }
    ensures steps { pair.new.steps ≡ pair.old.steps }
    ensures conn { pair.new.pair.conn ≡ pair.old.pair.conn }
    ensures client { pair.new.pair.client ≡ pair.old.pair.client }
{
    match pair.prepare_for(alloc, 0) {
        Ok(()) => Ok(true),
        Err(KeepFault::NoRoom { kept: _ }) => Ok(false),
        Err(KeepFault::NoMemory) => Err(NoMemory),
    }
}

/// Makes a step of the client or of the network; `false` where it has no room.
pub(crate) fn act(alloc: Global, pair: &mut KeptPair, step: PairStep) -> Result<bool, NoMemory>
    requires act { IsAct step }
    ensures made { IfOk result (λ b. b ≡ true → pair.new.steps ≡ pair.old.steps ++ step_of step ∷ []) }
    ensures refused { IfOk result (λ b. b ≡ false → IsRefused pair.old pair.new) }
    ensures terms { terms_in pair.new ≡ terms_in pair.old }
{
    pair.drop_events();
    if !make_room(alloc, pair)? {
        return Ok(false);
    }
    pair.step(step);
    Ok(true)
}

/// Makes the step of a message; `false` where it has no room.
pub(crate) fn take(alloc: Global, pair: &mut KeptPair, step: PairStep) -> Result<bool, NoMemory>
    requires may { MayStep pair.old (step_of step) }
    requires given { IsGiven step }
    ensures made { IfOk result (λ b. b ≡ true → pair.new.steps ≡ pair.old.steps ++ step_of step ∷ []) }
    ensures refused { IfOk result (λ b. b ≡ false → IsRefused pair.old pair.new) }
    ensures terms { terms_in pair.new ≡ terms_in pair.old }
{
    if !make_room(alloc, pair)? {
        return Ok(false);
    }
    pair.step(step);
    Ok(true)
}

/// Makes a pack where no period was shown, so that it drains and reads nothing; `false` where it has no room.
pub(crate) fn pack(alloc: Global, pair: &mut KeptPair) -> Result<bool, NoMemory>
    requires own { AllByRecursion IsOwnStep pair.old.steps }
    ensures made { IfOk result (λ b. b ≡ true → pair.new.steps ≡ pair.old.steps ++ Pack [] [] ∷ []) }
    ensures refused { IfOk result (λ b. b ≡ false → IsRefused pair.old pair.new) }
    ensures terms { terms_in pair.new ≡ terms_in pair.old }
{
    if !make_room(alloc, pair)? {
        return Ok(false);
    }
    let mut none = ZeroValues { given: false };
    pair.pack(&[], &mut none);
    Ok(true)
}

/// How many moves have a place, where no tick takes one.
pub(crate) fn room_in(pair: &KeptPair) -> u32
    ensures { IsRoom (length (accepted_by pair.now pair.now.steps)) result }
{
    let accepted = pair.accepted_moves().len();
    MAX_WAITING_MOVES.saturating_sub(accepted) as u32
}
