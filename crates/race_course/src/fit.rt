//! Whether moves are those of a script's ticks.
ghost use Rattle.race_history.specs.Deciding.{Decides};
ghost use Rattle.race_history.specs.Moves.{MovesFit};
ghost use Rattle.race_course.specs.Messages.{is_tick, ticks_in};
ghost use Rattle.std.specs.Prelude.{◌≡◌};

use match_script::{BodyLine, Script};
use race_history::TickMoves;

fn is_tick(line: &BodyLine) -> bool
    ensures { result ≡ is_tick line.now }
{
    match line {
        BodyLine::Tick => true,
        _ => false,
    }
}

fn ticks_in(lines: &[BodyLine]) -> usize
    ensures { result ≡ ticks_in lines.now }
{
    lines.iter().filter(|line| is_tick(line)).count()
}

/// Whether there are moves for each `tick` line of a script, in each one or none of each client.
pub fn moves_fit(script: &Script, moves: &TickMoves) -> bool
    ensures { Decides result (MovesFit (ticks_in script.now.body) script.now.head.clients moves.now) }
{
    moves.fits(ticks_in(script.body.as_slice()), script.head.clients)
}
