//! The line of a client.
ghost use Rattle.std.specs.Prelude.{◌≡◌, ◌<◌, ◌^◌, ◌++◌, List, IfOk, OnOk, length};
ghost use Rattle.stream_manager.specs.Limits.{Terms};
ghost use Rattle.pair_core.specs.History.{PairStep as Step};
ghost use Rattle.pair_core.specs.Stands.{StandsFor};
ghost use Rattle.kept_pair.specs.Kept.{Replays};
ghost use Rattle.race_text.specs.Showing.{told_at_end, show_line};

use crate::draft::Draft;
use crate::left::left_over;
use crate::taken::taken_from;
use client_seat::copies_of;
use dirty_lanes::FinalWords;
use kept_pair::KeptPair;
use lane_periods::Objects;
use match_report::{Told, put_line};
use pair_core::Pair;
use race_history::TickMoves;
use std::alloc::Global;
use tn_types::NoMemory;

/// What is told of a client, of which ticks took so many moves.
fn told_of(
    alloc: Global,
    client: u8,
    pair: &Pair,
    objects: &Objects,
    words: &FinalWords,
    taken: u32,
) -> Result<Told, NoMemory>
    requires client { client < words.now.clients }
    requires stands { (t : Terms) × (steps : List Step) × StandsFor pair.now t steps }
    ensures { IfOk result (λ told. (t : Terms) (steps : List Step) → StandsFor pair.now t steps
        → told ≡ told_at_end t steps client taken objects.now words.now) }
{
    let left = left_over(alloc, pair, client, objects, words)?;
    let copies = copies_of(alloc, pair, left.as_slice())?;
    let client_end = pair.client();
    Ok(Told::Show {
        client,
        events: client_end.delivered(),
        sampled: client_end.sampled(),
        accepted: pair.conn().accepted(),
        taken,
        control: client_end.control(),
        copies,
    })
}

/// The pair is what the kept steps make of a new one.
fn learn_steps(pair: &KeptPair)
    ensures { Replays pair.now.pair pair.now.steps }
{
    // for its clauses
    let _steps = pair.steps();
}

/// Adds the report's line of what a client has at the end: its counts, and its copies, of which a field is marked where it is
/// settled. These are the objects of its periods, the mask words at the end, and the moves that ticks took.
pub fn put_show(
    text: &mut Draft,
    alloc: Global,
    client: u8,
    pair: &KeptPair,
    objects: &Objects,
    words: &FinalWords,
    ticks: &TickMoves,
) -> Result<(), NoMemory>
    requires client { client < words.now.clients }
    requires ticks { length ticks.now < 2 ^ 32 }
    ensures added { OnOk result (text.new.added ≡ text.old.added ++ show_line client pair.now objects.now words.now ticks.now) }
    ensures before { text.new.before ≡ text.old.before }
{
    learn_steps(pair);
    let taken = taken_from(ticks, client);
    let told = told_of(alloc, client, pair.pair(), objects, words, taken)?;
    let mut line = Vec::new(alloc);
    put_line(alloc, &told, &mut line)?;
    text.push(line.as_slice())
}
