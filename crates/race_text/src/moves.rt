//! The moves that ticks took.
ghost use Rattle.std.specs.Prelude.{◌≡◌, ◌++◌, ◌<◌, ◌^◌, OnOk, length};
ghost use Rattle.std.specs.List.{flat_map};
ghost use Rattle.race_text.specs.Text.{move_words, taken_word, moves_of, tick_line, moves_text};

use crate::draft::Draft;
use bit_stream::move_of_bits;
use race_history::TickMoves;
use tn_types::{Move, MoveBits, NoMemory};

// The parts of a move.
fn put_move(text: &mut Draft, m: &Move) -> Result<(), NoMemory>
    ensures added { OnOk result (text.new.added ≡ text.old.added ++ move_words m.now) }
    ensures before { text.new.before ≡ text.old.before }
{
    text.push_signed(i64::from(m.dx))?;
    text.push_str(",")?;
    text.push_signed(i64::from(m.dy))?;
    text.push_str(",")?;
    text.push_flag(m.fire)?;
    text.push_str(",")?;
    text.push_flag(m.act)
}

// What a tick took from one client.
fn put_taken(text: &mut Draft, taken: &Option<MoveBits>) -> Result<(), NoMemory>
    ensures added { OnOk result (text.new.added ≡ text.old.added ++ taken_word taken.now) }
    ensures before { text.new.before ≡ text.old.before }
{
    match taken {
        None => text.push_str(" -"),
        Some(m) => {
            text.push_str(" ")?;
            put_move(text, &move_of_bits(*m))
        }
    }
}

// What a tick took from each client.
fn put_each(text: &mut Draft, moves: &[Option<MoveBits>]) -> Result<(), NoMemory>
    ensures added { OnOk result (text.new.added ≡ text.old.added ++ flat_map taken_word moves.now) }
    ensures before { text.new.before ≡ text.old.before }
{
    for taken in moves {
        put_taken(text, taken)?;
    }
    Ok(())
}

// What the tick in a place took, counted from 0.
fn moves_of(ticks: &TickMoves, place: u32) -> &[Option<MoveBits>]
    ensures { result.now ≡ moves_of ticks.now place }
{
    match ticks.get(place) {
        Some(moves) => moves,
        None => &[],
    }
}

// The line of the tick in a place, counted from 0.
fn put_tick(text: &mut Draft, ticks: &TickMoves, place: u32) -> Result<(), NoMemory>
    ensures added { OnOk result (text.new.added ≡ text.old.added ++ tick_line ticks.now place) }
    ensures before { text.new.before ≡ text.old.before }
{
    text.push_str("t ")?;
    text.push_number(u64::from(place) + 1)?;
    put_each(text, moves_of(ticks, place))?;
    text.push_str("\n")
}

/// Adds a line for each tick, with the move that it took from each client.
#[tactic(auto, using(crate::proofs::Each::each_more))]
pub fn put_moves(text: &mut Draft, ticks: &TickMoves) -> Result<(), NoMemory>
    requires { length ticks.now < 2 ^ 32 }
    ensures added { OnOk result (text.new.added ≡ text.old.added ++ moves_text ticks.now) }
    ensures before { text.new.before ≡ text.old.before }
{
    for place in 0..ticks.len() {
        put_tick(text, ticks, place)?;
    }
    Ok(())
}
