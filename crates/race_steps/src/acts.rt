//! The steps of a client and of its network against the client's lines.
ghost use Rattle.std.specs.Prelude.{◌≡◌, ◌<◌, ◌≤◌, true, Some, length, drop, slice_get, is_some};
ghost use Rattle.std.specs.List.{filter_map};
ghost use Rattle.std.specs.Option.{option_and_then};
ghost use Rattle.race_history.specs.Deciding.{Decides};
ghost use Rattle.pair_core.specs.Calls.{step_of};
ghost use Rattle.race_steps.specs.Asked.{AreAllOrFirst, Posts, Samples, Packs, Gets, Brings, BringsRaw};
ghost use Rattle.race_steps.specs.Asked.{act_done, act_said, act_asked, acts_done, acts_asked};
ghost use Rattle.race_steps.specs.Walking.{Fits};

use crate::fit::Fit;
use crate::moves::is_same;
use crate::steps::step_at;
use bit_stream::bits_of_move;
use kept_pair::StepList;
use match_script::{BodyLine, LineDatagram, LinePayload};
use pair_core::PairStep;
use tn_types::{Class, MoveBits};

// Whether the step is one of the client, or of the network between it and the server.
fn is_act(step: &PairStep) -> bool
    ensures { result ≡ is_some (act_done (step_of step.now)) }
{
    match step {
        PairStep::Show { .. }
        | PairStep::Hide { .. }
        | PairStep::Near { .. }
        | PairStep::Post { .. }
        | PairStep::Pack => false,
        _ => true,
    }
}

// Whether the line is one of this client that asks for such a step.
fn asks(line: &BodyLine, client: u8) -> bool
    ensures { result ≡ is_some (act_asked client line.now) }
{
    match line {
        BodyLine::ClientPost { client: own, .. }
        | BodyLine::Move { client: own, .. }
        | BodyLine::ClientPack { client: own }
        | BodyLine::Down { client: own, .. }
        | BodyLine::Up { client: own, .. }
        | BodyLine::Raw { client: own, .. } => *own == client,
        _ => false,
    }
}

// Whether the client posts this event.
fn is_client_post(step: &PairStep, class: Class, payload: &LinePayload) -> bool
    ensures { Decides result (act_done (step_of step.now) ≡ Some (Posts class payload.now)) }
{
    match step {
        PairStep::ClientPost {
            class: own_class,
            payload: own,
        } => *own_class == class && own.as_slice() == payload.as_slice(),
        _ => false,
    }
}

// Whether the client takes up this move.
fn is_sample(step: &PairStep, m: &MoveBits) -> bool
    ensures { Decides result (act_done (step_of step.now) ≡ Some (Samples m.now)) }
{
    match step {
        PairStep::Sample { m: own } => is_same(own, m),
        _ => false,
    }
}

// Whether the client gets the server's datagram of this place.
fn is_down(step: &PairStep, k: u32) -> bool
    ensures { Decides result (act_done (step_of step.now) ≡ Some (Gets k)) }
{
    match step {
        PairStep::Down { k: own } => *own == k,
        _ => false,
    }
}

// Whether the server gets the client's datagram of this place.
fn is_up(step: &PairStep, k: u32) -> bool
    ensures { Decides result (act_done (step_of step.now) ≡ Some (Brings k)) }
{
    match step {
        PairStep::Up { k: own, room: _ } => *own == k,
        _ => false,
    }
}

// Whether the server gets these bytes.
fn is_raw(step: &PairStep, bytes: &LineDatagram) -> bool
    ensures { Decides result (act_done (step_of step.now) ≡ Some (BringsRaw bytes.now)) }
{
    match step {
        PairStep::Raw {
            bytes: own,
            room: _,
        } => own.as_slice() == bytes.as_slice(),
        _ => false,
    }
}

// Whether the client makes a datagram.
fn is_client_pack(step: &PairStep) -> bool
    ensures { Decides result (act_done (step_of step.now) ≡ Some Packs) }
{
    matches!(step, PairStep::ClientPack)
}

// Whether the step, which is one of a client, is the one that the line asks for, of whatever client.
fn is_act_of(step: &PairStep, line: &BodyLine) -> bool
    requires act { is_some (act_done (step_of step.now)) ≡ true }
    ensures { Decides result (act_done (step_of step.now) ≡ act_said line.now) }
{
    match line {
        BodyLine::ClientPost {
            client: _,
            class,
            payload,
        } => is_client_post(step, *class, payload),
        BodyLine::Move { client: _, m } => is_sample(step, &bits_of_move(m)),
        BodyLine::ClientPack { client: _ } => is_client_pack(step),
        BodyLine::Down { client: _, k } => is_down(step, *k),
        BodyLine::Up { client: _, k } => is_up(step, *k),
        BodyLine::Raw { client: _, bytes } => is_raw(step, bytes),
        _ => false,
    }
}

// What the step of this place is beside line k, which asks the client for a step if it is there.
fn act_fit(steps: &StepList, i: u32, lines: &[BodyLine], k: usize, client: u8) -> Fit
    requires there { i < length steps.now.list }
    requires asked { k < length lines.now → is_some (option_and_then (act_asked client) (slice_get lines.now k)) ≡ true }
    ensures { Fits (option_and_then act_done (slice_get steps.now.list i))
        (option_and_then (act_asked client) (slice_get lines.now k)) result }
{
    let step = step_at(steps, i);
    if !is_act(step) {
        return Fit::Nothing;
    }
    match lines.get(k) {
        Some(line) => {
            if is_act_of(step, line) {
                Fit::Next
            } else {
                Fit::Other
            }
        }
        None => Fit::Other,
    }
}

// The first place from this one on of a line that asks the client for a step, or the end.
fn next_line(lines: &[BodyLine], from: usize, client: u8) -> usize
    requires { from ≤ length lines.now }
    ensures within { result ≤ length lines.now }
    ensures same { filter_map (act_asked client) (drop result lines.now) ≡ filter_map (act_asked client) (drop from lines.now) }
    ensures asked { result < length lines.now → is_some (option_and_then (act_asked client) (slice_get lines.now result)) ≡ true }
{
    for k in from..lines.len() {
        if asks(&lines[k], client) {
            return k;
        }
    }
    lines.len()
}

/// How many lines ask the client for a step.
pub(crate) fn acts_count(lines: &[BodyLine], client: u8) -> usize
    ensures { result ≡ length (acts_asked client lines.now) }
{
    let mut count: usize = 0;
    for line in lines {
        if asks(line, client) {
            count += 1;
        }
    }
    count
}

/// Whether the steps of the client are those of its lines, or where it is full the first of them.
pub(crate) fn acts_are(steps: &StepList, lines: &[BodyLine], client: u8, is_full: bool) -> bool
    ensures { Decides result (AreAllOrFirst is_full (acts_done steps.now.list) (acts_asked client lines.now)) }
{
    let mut k: usize = next_line(lines, 0, client);
    for i in 0..steps.len() {
        match act_fit(steps, i, lines, k, client) {
            Fit::Nothing => {}
            Fit::Next => k = next_line(lines, k + 1, client),
            Fit::Other => return false,
        }
    }
    is_full || k >= lines.len()
}
