//! Ticks that take no move.
ghost use Rattle.std.specs.Prelude.{◌≡◌, IfOk};
ghost use Rattle.legal_race.specs.race_course.Messages.{is_tick};
ghost use Rattle.plain_race.specs.Idle.{idle_row, idle_in};

use legal_race::race_history::TickMoves;
use match_script::{BodyLine, Script};
use std::alloc::{AllocError, Global};
use tn_types::{MoveBits, NoMemory};

fn is_tick(line: &BodyLine) -> bool
    ensures { result ≡ is_tick line.now }
{
    match line {
        BodyLine::Tick => true,
        _ => false,
    }
}

// No move of any client.
fn no_moves(alloc: Global, clients: u8) -> Result<Vec<Option<MoveBits>>, AllocError>
    ensures { IfOk result (λ row. row.items ≡ idle_row clients) }
{
    let mut row = Vec::new(alloc);
    for _i in 0..clients {
        row.push(None)?;
    }
    Ok(row)
}

/// The moves of a script's ticks, none of which takes one.
pub(crate) fn idle_moves(alloc: Global, script: &Script) -> Result<TickMoves, NoMemory>
    ensures { IfOk result (λ moves. moves ≡ idle_in script.now) }
{
    let Ok(row) = no_moves(alloc, script.head.clients) else {
        return Err(NoMemory);
    };
    let mut moves = TickMoves::new(alloc);
    for line in script.body.as_slice() {
        if is_tick(line) {
            moves.push(alloc, row.as_slice())?;
        }
    }
    Ok(moves)
}
