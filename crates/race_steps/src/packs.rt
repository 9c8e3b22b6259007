//! The packs of a client, counted.
ghost use Rattle.std.specs.Prelude.{◌≡◌};
ghost use Rattle.race_history.specs.Deciding.{Decides};
ghost use Rattle.pair_core.specs.Calls.{step_of};
ghost use Rattle.race_steps.specs.Asked.{IsAllOrFewer, is_pack_step, is_pack_line, packs_made, packs_asked};

use crate::steps::step_at;
use kept_pair::StepList;
use match_script::BodyLine;
use pair_core::PairStep;

// Whether it is a pack.
fn is_pack_step(step: &PairStep) -> bool
    ensures { result ≡ is_pack_step (step_of step.now) }
{
    matches!(step, PairStep::Pack)
}

// Whether it is a line `pack` of the client.
fn is_pack_line(line: &BodyLine, client: u8) -> bool
    ensures { result ≡ is_pack_line client line.now }
{
    match line {
        BodyLine::Pack { client: own } => *own == client,
        _ => false,
    }
}

/// How many of the steps are packs.
fn packs_made(steps: &StepList) -> usize
    ensures { result ≡ packs_made steps.now.list }
{
    let mut count: usize = 0;
    for i in 0..steps.len() {
        if is_pack_step(step_at(steps, i)) {
            count += 1;
        }
    }
    count
}

/// How many of the lines are lines `pack` of the client.
pub(crate) fn packs_asked(lines: &[BodyLine], client: u8) -> usize
    ensures { result ≡ packs_asked client lines.now }
{
    let mut count: usize = 0;
    for line in lines {
        if is_pack_line(line, client) {
            count += 1;
        }
    }
    count
}

/// Whether there is a pack for each line `pack` of the client, or where it is full no more packs.
pub(crate) fn packs_are(steps: &StepList, lines: &[BodyLine], client: u8, is_full: bool) -> bool
    ensures { Decides result (IsAllOrFewer is_full (packs_made steps.now.list) (packs_asked client lines.now)) }
{
    let made = packs_made(steps);
    let asked = packs_asked(lines, client);
    if is_full {
        made <= asked
    } else {
        made == asked
    }
}
