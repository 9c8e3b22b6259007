//! Why a call of a channel did nothing.

use messages::PieceFault;

/// Why there is no channel.
#[derive(Clone, Copy)]
pub enum OpenFault {
    /// The longest message is none of 23 to 65,535 bytes.
    BadLongest { longest: u32 },
    /// Memory was not to be had.
    NoMemory,
}

/// Why nothing is handed out.
#[derive(Clone, Copy)]
pub enum NextFault {
    /// The place for a parcel is too small: it has to have `needed`. Nothing changed.
    NoRoom { needed: u32 },
    /// The other end sent a piece that no honest end sends: the channel takes nothing more.
    BadPiece(PieceFault),
}
