//! The journal of one client.
ghost use Rattle.std.specs.Prelude.{◌≡◌, ◌++◌, ◌<◌, OnOk, Some, codes, length, slice_get};
ghost use Rattle.std.specs.Fmt.{decimal};
ghost use Rattle.kept_pair.specs.pair_core.Calls.{step_of};
ghost use Rattle.kept_pair.specs.pair_core.History.{PairStep as Step};
ghost use Rattle.race_text.specs.Text.{of_each};
ghost use Rattle.race_text.specs.Journal.{is_show, shown_before, step_line, full_line, journal_text};

use crate::draft::Draft;
use crate::steps::put_step;
use kept_pair::pair_core::PairStep;
use kept_pair::{KeptPair, MAX_KEPT_STEPS, StepList};
use lane_periods::Objects;
use std::alloc::Global;
use tn_types::NoMemory;

fn is_show(step: &PairStep) -> bool
    ensures { result ≡ is_show (step_of step.now) }
{
    matches!(
        step,
        PairStep::Show {
            kind: _,
            block: _,
            level: _,
            control: _
        }
    )
}

// Whether a period is shown in this place.
fn shows(steps: &StepList, place: u32) -> bool
    requires { place < length steps.now.list }
    ensures { (step : Step) → slice_get steps.now.list place ≡ Some step → result ≡ is_show step }
{
    match steps.get(place) {
        Some(step) => is_show(step),
        None => false,
    }
}

// What each line begins with.
fn put_client(text: &mut Draft, client: u8) -> Result<(), NoMemory>
    ensures added { OnOk result (text.new.added ≡ text.old.added ++ codes "j " ++ decimal client ++ codes " ") }
    ensures before { text.new.before ≡ text.old.before }
{
    text.push_str("j ")?;
    text.push_number(u64::from(client))?;
    text.push_str(" ")
}

// The line of the step of a place, before which so many periods were shown.
fn put_line(
    text: &mut Draft,
    alloc: Global,
    client: u8,
    steps: &StepList,
    objects: &Objects,
    place: u32,
    n: u32,
) -> Result<(), NoMemory>
    requires place { place < length steps.now.list }
    requires shown { n ≡ shown_before steps.now.list place }
    ensures added { OnOk result (text.new.added ≡ text.old.added ++ step_line client objects.now steps.now.list place) }
    ensures before { text.new.before ≡ text.old.before }
{
    let Some(step) = steps.get(place) else {
        unreachable!()
    };
    put_client(text, client)?;
    put_step(
        text,
        alloc,
        objects,
        n,
        step,
        steps.drains(place),
        steps.reads(place),
    )?;
    text.push_str("\n")
}

// The lines of all steps.
fn put_steps(
    text: &mut Draft,
    alloc: Global,
    client: u8,
    steps: &StepList,
    objects: &Objects,
) -> Result<(), NoMemory>
    ensures added { OnOk result (text.new.added
        ≡ text.old.added ++ of_each (length steps.now.list) (step_line client objects.now steps.now.list)) }
    ensures before { text.new.before ≡ text.old.before }
{
    let mut shown = 0;
    for place in 0..steps.len() {
        put_line(text, alloc, client, steps, objects, place, shown)?;
        if shows(steps, place) {
            shown += 1;
        }
    }
    Ok(())
}

// The line after them.
fn put_full(text: &mut Draft, client: u8, full: bool) -> Result<(), NoMemory>
    ensures added { OnOk result (text.new.added ≡ text.old.added ++ full_line client full) }
    ensures before { text.new.before ≡ text.old.before }
{
    if !full {
        return Ok(());
    }
    put_client(text, client)?;
    text.push_str("full ")?;
    text.push_number(u64::from(MAX_KEPT_STEPS))?;
    text.push_str("\n")
}

/// Adds a line for each step that was kept for this client, with the objects of its periods, and one more where it is full.
pub fn put_journal(
    text: &mut Draft,
    alloc: Global,
    client: u8,
    pair: &KeptPair,
    objects: &Objects,
    full: bool,
) -> Result<(), NoMemory>
    ensures added { OnOk result (text.new.added ≡ text.old.added ++ journal_text client objects.now pair.now.steps full) }
    ensures before { text.new.before ≡ text.old.before }
{
    put_steps(text, alloc, client, pair.steps(), objects)?;
    put_full(text, client, full)
}
