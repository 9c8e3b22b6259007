//! Why a call of a channel did nothing, as numbers. They go on with those of `tribes_ends`.
ghost use Rattle.std.specs.Prelude.{◌≡◌};
ghost use Rattle.tribes_channel.specs.Codes.{open_why, hold_why, next_why, piece_why};

use crate::faults::{NextFault, OpenFault};
use messages::{HoldFault, PieceFault};
use tribes_ends::Why;

fn told(code: i32, first: u32, second: u32) -> Why
    ensures { result ≡ record { code = code; first = first; second = second } }
{
    Why {
        code,
        first,
        second,
    }
}

/// Why there is no channel.
pub fn open_why(fault: OpenFault) -> Why
    ensures { result ≡ open_why fault }
{
    match fault {
        OpenFault::NoMemory => told(-3, 0, 0),
        OpenFault::BadLongest { longest } => told(-76, longest, 0),
    }
}

/// Why a parcel was not taken up.
pub fn hold_why(fault: HoldFault) -> Why
    ensures { result ≡ hold_why fault }
{
    match fault {
        HoldFault::TooLong { most } => told(-8, most, 0),
        HoldFault::NoPlaces { needed, free } => told(-75, needed, free),
    }
}

fn piece_why(fault: PieceFault) -> Why
    ensures { result ≡ piece_why fault }
{
    match fault {
        PieceFault::Empty => told(-80, 0, 0),
        PieceFault::UnknownForm { form } => told(-81, u32::from(form), 0),
        PieceFault::NotBegun => told(-82, 0, 0),
        PieceFault::NotEnded => told(-83, 0, 0),
        PieceFault::OnePiece { length } => told(-84, length, 0),
        PieceFault::MoreBytes => told(-85, 0, 0),
        PieceFault::FewerBytes => told(-86, 0, 0),
        PieceFault::TooLong { length, most } => told(-87, length, most),
    }
}

/// Why nothing is handed out.
pub fn next_why(fault: NextFault) -> Why
    ensures { result ≡ next_why fault }
{
    match fault {
        NextFault::NoRoom { needed } => told(-9, needed, 0),
        NextFault::BadPiece(fault) => piece_why(fault),
    }
}
