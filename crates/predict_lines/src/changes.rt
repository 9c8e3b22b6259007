//! What a line of a match did at one client's end.
ghost use Rattle.std.specs.Prelude.{◌≡◌};
ghost use Rattle.predict_lines.specs.Changes.{change_of, is_taken, is_sampled};

use bit_stream::bits_of_move;
use match_report::Told;
use match_script::BodyLine;
use tn_types::MoveBits;

/// What a line did at a client's end, as far as a prediction hears of it.
#[derive(Clone, Copy, Debug, PartialEq, Eq)]
pub enum EndChange {
    /// A packet came and was not refused: a data packet or a ping.
    Came,
    /// A move of the player was taken up.
    Sampled(MoveBits),
    /// Neither.
    Nothing,
}

// Whether a datagram came and was not refused.
fn is_taken(told: &Told) -> bool
    ensures { result ≡ is_taken told.now }
{
    match told {
        Told::Came {
            way: _,
            client: _,
            k: _,
            moves: _,
            events: _,
        } => true,
        _ => false,
    }
}

// Whether a move was sampled and not refused.
fn is_sampled(told: &Told) -> bool
    ensures { result ≡ is_sampled told.now }
{
    match told {
        Told::Moved { client: _, number } => number.is_ok(),
        _ => false,
    }
}

/// What a line did at a client's end, by what it told.
pub fn change_of(client: u8, line: &BodyLine, told: &Told) -> EndChange
    ensures { result ≡ change_of client line.now told.now }
{
    match line {
        BodyLine::Down {
            client: named,
            k: _,
        } => {
            if *named == client && is_taken(told) {
                EndChange::Came
            } else {
                EndChange::Nothing
            }
        }
        BodyLine::Move { client: named, m } => {
            if *named == client && is_sampled(told) {
                EndChange::Sampled(bits_of_move(m))
            } else {
                EndChange::Nothing
            }
        }
        _ => EndChange::Nothing,
    }
}
