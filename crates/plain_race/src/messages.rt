//! The messages of a client.
ghost use Rattle.std.specs.Prelude.{◌≡◌, [], ◌∷◌, ◌++◌, true, false, IfOk};
ghost use Rattle.pair_core.specs.Calls.{step_of};
ghost use Rattle.kept_pair.specs.Kept.{terms_in, MayStep};
ghost use Rattle.race_messages.specs.Steps.{step_for, objects_with};
ghost use Rattle.plain_race.specs.Asks.{IsGiven};
ghost use Rattle.plain_race.specs.Done.{IsRefused, Takes, StopsAtMessage, MayTakeAll};

use crate::steps::take;
use lane_periods::Objects;
use legal_race::race_history::kept_pair::KeptPair;
use pair_core::PairStep;
use race_messages::Message;
use std::alloc::Global;
use tn_types::NoMemory;

// The step of a message.
fn step_for(message: &Message) -> PairStep
    ensures step { step_of result ≡ step_for message.now }
    ensures given { IsGiven result }
{
    match message {
        Message::Show {
            object: _,
            kind,
            block,
            level,
            control,
        } => PairStep::Show {
            kind: *kind,
            block: *block,
            level: *level,
            control: *control,
        },
        Message::Hide { n } => PairStep::Hide { n: *n },
        Message::Near { n, level } => PairStep::Near {
            n: *n,
            level: *level,
        },
        Message::Post { class, payload } => PairStep::Post {
            class: *class,
            payload: payload.copy(),
        },
    }
}

// Notes the object of a show.
fn note(alloc: Global, objects: &mut Objects, message: &Message) -> Result<(), NoMemory>
    ensures { IfOk result (λ u. objects.new ≡ objects_with message.now objects.old) }
{
    match message {
        Message::Show {
            object,
            kind: _,
            block: _,
            level: _,
            control: _,
        } => objects.push(alloc, *object),
        _ => Ok(()),
    }
}

// Takes a message; `false` where its step has no room.
fn take_one(
    alloc: Global,
    pair: &mut KeptPair,
    objects: &mut Objects,
    message: &Message,
) -> Result<bool, NoMemory>
    requires may { MayStep pair.old (step_for message.now) }
    ensures made { IfOk result (λ b. b ≡ true → pair.new.steps ≡ pair.old.steps ++ step_for message.now ∷ []) }
    ensures noted { IfOk result (λ b. b ≡ true → objects.new ≡ objects_with message.now objects.old) }
    ensures refused { IfOk result (λ b. b ≡ false → IsRefused pair.old pair.new) }
    ensures unnoted { IfOk result (λ b. b ≡ false → objects.new ≡ objects.old) }
    ensures terms { terms_in pair.new ≡ terms_in pair.old }
{
    if !take(alloc, pair, step_for(message))? {
        return Ok(false);
    }
    note(alloc, objects, message)?;
    Ok(true)
}

/// Takes messages, in their order, and notes the object of each show; `false` where a step had no room.
pub(crate) fn take_all(
    alloc: Global,
    pair: &mut KeptPair,
    objects: &mut Objects,
    given: &[Message],
) -> Result<bool, NoMemory>
    requires may { MayTakeAll pair.old given.now }
    requires none { objects.old ≡ [] }
    ensures taken { IfOk result (λ b. b ≡ true → Takes given.now pair.old pair.new objects.new) }
    ensures stopped { IfOk result (λ b. b ≡ false → StopsAtMessage given.now pair.old pair.new objects.new) }
    ensures terms { terms_in pair.new ≡ terms_in pair.old }
{
    for message in given {
        if !take_one(alloc, pair, objects, message)? {
            return Ok(false);
        }
    }
    Ok(true)
}
