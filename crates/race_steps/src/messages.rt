//! The steps of messages, and the objects of shows, against the messages that a client is given.
ghost use Rattle.std.specs.Prelude.{◌≡◌, ◌<◌, ◌≤◌, Some, length, map, take, slice_get, is_some};
ghost use Rattle.std.specs.Option.{option_and_then};
ghost use Rattle.race_history.specs.Deciding.{Decides};
ghost use Rattle.pair_core.specs.Calls.{step_of};
ghost use Rattle.pair_core.specs.History.{Show, Hide, Near, Post};
ghost use Rattle.race_messages.specs.Steps.{step_for};
ghost use Rattle.race_steps.specs.Asked.{AreAllOrFirst, message_step, messages_taken, object_shown, objects_shown};
ghost use Rattle.race_steps.specs.Walking.{Fits};

use crate::fit::Fit;
use crate::steps::step_at;
use kept_pair::{MAX_KEPT_STEPS, StepList};
use lane_periods::Objects;
use pair_core::PairStep;
use race_messages::Message;
use tn_types::{Class, Payload};

// Whether it is the step of a message.
fn is_message(step: &PairStep) -> bool
    ensures { result ≡ is_some (message_step (step_of step.now)) }
{
    matches!(
        step,
        PairStep::Show { .. }
            | PairStep::Hide { .. }
            | PairStep::Near { .. }
            | PairStep::Post { .. }
    )
}

// Whether it is this show.
fn is_show(step: &PairStep, kind: u8, block: u8, level: u8, control: bool) -> bool
    ensures { Decides result (step_of step.now ≡ Show kind block level control) }
{
    match step {
        PairStep::Show {
            kind: own_kind,
            block: own_block,
            level: own_level,
            control: own_control,
        } => {
            *own_kind == kind
                && *own_block == block
                && *own_level == level
                && *own_control == control
        }
        _ => false,
    }
}

// Whether it hides this period.
fn is_hide(step: &PairStep, n: u32) -> bool
    ensures { Decides result (step_of step.now ≡ Hide n) }
{
    match step {
        PairStep::Hide { n: own } => *own == n,
        _ => false,
    }
}

// Whether it brings this period to this level.
fn is_near(step: &PairStep, n: u32, level: u8) -> bool
    ensures { Decides result (step_of step.now ≡ Near n level) }
{
    match step {
        PairStep::Near {
            n: own,
            level: own_level,
        } => *own == n && *own_level == level,
        _ => false,
    }
}

// Whether it posts this event at the server.
fn is_post(step: &PairStep, class: Class, payload: &Payload) -> bool
    ensures { Decides result (step_of step.now ≡ Post class payload.now) }
{
    match step {
        PairStep::Post {
            class: own_class,
            payload: own,
        } => *own_class == class && own.as_slice() == payload.as_slice(),
        _ => false,
    }
}

// Whether the step is that of the message.
fn is_step_for(step: &PairStep, message: &Message) -> bool
    ensures { Decides result (step_of step.now ≡ step_for message.now) }
{
    match message {
        Message::Show {
            object: _,
            kind,
            block,
            level,
            control,
        } => is_show(step, *kind, *block, *level, *control),
        Message::Hide { n } => is_hide(step, *n),
        Message::Near { n, level } => is_near(step, *n, *level),
        Message::Post { class, payload } => is_post(step, *class, payload),
    }
}

// What the step of this place is beside message k.
fn message_fit(steps: &StepList, i: u32, given: &[Message], k: usize) -> Fit
    requires { i < length steps.now.list }
    ensures { Fits (option_and_then message_step (slice_get steps.now.list i)) (slice_get (map step_for given.now) k) result }
{
    let step = step_at(steps, i);
    if !is_message(step) {
        return Fit::Nothing;
    }
    match given.get(k) {
        Some(message) => {
            if is_step_for(step, message) {
                Fit::Next
            } else {
                Fit::Other
            }
        }
        None => Fit::Other,
    }
}

/// Whether the steps of messages are those of the messages that are given, or where the client is full the first of them.
pub(crate) fn messages_are(steps: &StepList, given: &[Message], is_full: bool) -> bool
    ensures { Decides result (AreAllOrFirst is_full (messages_taken steps.now.list) (map step_for given.now)) }
{
    let mut k: usize = 0;
    for i in 0..steps.len() {
        match message_fit(steps, i, given, k) {
            Fit::Nothing => {}
            Fit::Next => k += 1,
            Fit::Other => return false,
        }
    }
    is_full || k >= given.len()
}

/// How many steps are those of messages.
pub(crate) fn message_count(steps: &StepList) -> u32
    ensures count { result ≡ length (messages_taken steps.now.list) }
    ensures few { result ≤ MAX_KEPT_STEPS }
{
    let mut count: u32 = 0;
    for i in 0..steps.len() {
        if is_message(step_at(steps, i)) {
            count += 1;
        }
    }
    count
}

// The object of a show.
fn object_shown(message: &Message) -> Option<u32>
    ensures { result ≡ object_shown message.now }
{
    match message {
        Message::Show {
            object,
            kind: _,
            block: _,
            level: _,
            control: _,
        } => Some(*object),
        _ => None,
    }
}

// What a message shows beside the object of period n.
fn object_fit(message: &Message, shown: &Objects, n: u32) -> Fit
    ensures { Fits (object_shown message.now) (slice_get shown.now n) result }
{
    let Some(object) = object_shown(message) else {
        return Fit::Nothing;
    };
    match shown.get(n) {
        Some(own) => { if own == object { Fit::Next } else { Fit::Other } }
        None => Fit::Other,
    }
}

/// Whether these are the objects of the shows among these messages.
pub(crate) fn objects_are(taken: &[Message], shown: &Objects) -> bool
    requires few { length taken.now ≤ MAX_KEPT_STEPS }
    ensures { Decides result (objects_shown taken.now ≡ shown.now) }
{
    let mut n: u32 = 0;
    for message in taken {
        match object_fit(message, shown, n) {
            Fit::Nothing => {}
            Fit::Next => n += 1,
            Fit::Other => return false,
        }
    }
    shown.get(n).is_none()
}

/// So many of the messages, or all of them.
pub(crate) fn first_messages(given: &[Message], count: u32) -> &[Message]
    ensures { result.now ≡ take count given.now }
{
    if given.len() <= count as usize {
        return given;
    }
    &given[..count as usize]
}
