//! How many moves ticks took.
ghost use Rattle.std.specs.Prelude.{◌≡◌, ◌<◌, ◌^◌, length};
ghost use Rattle.race_history.specs.Moves.{moves_taken};

use race_history::TickMoves;

/// How many moves all ticks took from the client.
pub(crate) fn taken_from(ticks: &TickMoves, client: u8) -> u32
    requires { length ticks.now < 2 ^ 32 }
    ensures { result ≡ length (moves_taken client ticks.now) }
{
    let mut count = 0;
    for tick in 0..ticks.len() {
        if ticks.taken(tick, client).is_some() {
            count += 1;
        }
    }
    count
}
