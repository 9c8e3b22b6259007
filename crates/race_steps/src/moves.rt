//! The moves that ticks took against those that the server accepted.
ghost use Rattle.std.specs.Prelude.{◌≡◌, ◌<◌, ◌^◌, length, slice_get};
ghost use Rattle.std.specs.Option.{option_and_then};
ghost use Rattle.tn_types.specs.Prefix.{IsPrefixOf};
ghost use Rattle.race_history.specs.Deciding.{Decides};
ghost use Rattle.race_history.specs.Moves.{move_taken, moves_taken};
ghost use Rattle.race_steps.specs.Walking.{Fits};

use crate::fit::Fit;
use race_history::TickMoves;
use tn_types::MoveBits;

/// Whether the moves are the same.
pub(crate) fn is_same(a: &MoveBits, b: &MoveBits) -> bool
    ensures { Decides result (a.now ≡ b.now) }
{
    *a == *b
}

// What a tick took from the client.
fn taken(moves: &TickMoves, tick: u32, client: u8) -> Option<MoveBits>
    requires { tick < length moves.now }
    ensures { result ≡ option_and_then (move_taken client) (slice_get moves.now tick) }
{
    moves.taken(tick, client)
}

// What a tick took from the client beside move k of those that were accepted.
fn move_fit(moves: &TickMoves, tick: u32, client: u8, accepted: &[MoveBits], k: usize) -> Fit
    requires { tick < length moves.now }
    ensures { Fits (option_and_then (move_taken client) (slice_get moves.now tick)) (slice_get accepted.now k) result }
{
    let Some(taken) = taken(moves, tick, client) else {
        return Fit::Nothing;
    };
    match accepted.get(k) {
        Some(own) => {
            if is_same(&taken, own) {
                Fit::Next
            } else {
                Fit::Other
            }
        }
        None => Fit::Other,
    }
}

/// Whether the moves that ticks took from the client are the first of those that the server accepted.
pub(crate) fn moves_are_first(moves: &TickMoves, client: u8, accepted: &[MoveBits]) -> bool
    requires { length moves.now < 2 ^ 32 }
    ensures { Decides result (IsPrefixOf (moves_taken client moves.now) accepted.now) }
{
    let mut k: usize = 0;
    for tick in 0..moves.len() {
        match move_fit(moves, tick, client, accepted, k) {
            Fit::Nothing => {}
            Fit::Next => k += 1,
            Fit::Other => return false,
        }
    }
    true
}
