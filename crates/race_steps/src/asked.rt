//! All points of one client.
ghost use Rattle.std.specs.Prelude.{◌≡◌, ◌<◌, ◌^◌, ◌↔◌, true, length, take};
ghost use Rattle.race_history.specs.Deciding.{Decides};
ghost use Rattle.race_steps.specs.Asked.{AreAsked, IsFull, messages_taken, objects_shown};

use crate::acts::{acts_are, acts_count};
use crate::messages::{first_messages, message_count, messages_are, objects_are};
use crate::moves::moves_are_first;
use crate::packs::{packs_are, packs_asked};
use crate::rooms::are_rooms;
use kept_pair::{KeptPair, MAX_KEPT_STEPS, StepList};
use lane_periods::Objects;
use match_script::{BodyLine, Script};
use race_history::TickMoves;
use race_messages::Message;

// Whether as many steps are kept as can be, and one is wanting.
fn is_full(lines: &[BodyLine], client: u8, given: &[Message], steps: &StepList) -> bool
    ensures { Decides result (IsFull client lines.now given.now steps.now.list) }
{
    if steps.len() != MAX_KEPT_STEPS {
        return false;
    }
    let asked = given
        .len()
        .saturating_add(packs_asked(lines, client))
        .saturating_add(acts_count(lines, client));
    asked > MAX_KEPT_STEPS as usize
}

// Whether the client was said to be full exactly where it is.
fn full_is_right(
    lines: &[BodyLine],
    client: u8,
    given: &[Message],
    steps: &StepList,
    said: bool,
) -> bool
    ensures { Decides result ((said ≡ true) ↔ IsFull client lines.now given.now steps.now.list) }
{
    said == is_full(lines, client, given, steps)
}

// Whether the objects of periods are those of the shows that were made.
fn shows_are(steps: &StepList, given: &[Message], objects: &Objects) -> bool
    ensures { Decides result (objects_shown (take (length (messages_taken steps.now.list)) given.now) ≡ objects.now) }
{
    objects_are(first_messages(given, message_count(steps)), objects)
}

/// Whether what was kept of a client is what the script's lines ask for: `objects` has the object of each of its periods, `full`
/// says that it met no room, `messages` are those that the lines give it, and `moves` those that ticks took.
///
/// It walks once over the steps for each kind of them, beside the lines or the messages, and copies nothing.
pub fn steps_are_asked(
    script: &Script,
    client: u8,
    pair: &KeptPair,
    objects: &Objects,
    full: bool,
    messages: &[Message],
    moves: &TickMoves,
) -> bool
    requires few_ticks { length moves.now < 2 ^ 32 }
    ensures { Decides result (AreAsked script.now.body client pair.now objects.now full messages.now moves.now) }
{
    let lines = script.body.as_slice();
    let steps = pair.steps();
    if !messages_are(steps, messages, full) {
        return false;
    }
    if !shows_are(steps, messages, objects) {
        return false;
    }
    if !packs_are(steps, lines, client, full) {
        return false;
    }
    if !acts_are(steps, lines, client, full) {
        return false;
    }
    if !are_rooms(pair) {
        return false;
    }
    if !moves_are_first(moves, client, pair.accepted_moves()) {
        return false;
    }
    full_is_right(lines, client, messages, steps, full)
}
