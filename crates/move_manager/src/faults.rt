//! Why a move, or what a packet says of moves, is refused.

/// Why a move is not sampled. Nothing changed.
#[derive(Clone, Copy, Debug, PartialEq, Eq)]
pub enum MoveFault {
    /// A bit is set that is not written: a move of this connection has so many.
    TooWide { width: u32 },
    /// As many moves were sampled as a connection has in its life, 1 to 16,777,215.
    Worn { life: u32 },
    /// The server has not told yet that it has these: the first and the last of 32.
    Full { first: u32, last: u32 },
}

/// The server told of more moves than were sampled. Nothing changed.
#[derive(Clone, Copy, Debug, PartialEq, Eq)]
pub struct MoveAhead {
    /// What it told.
    pub count: u32,
    /// Moves sampled so far.
    pub sampled: u32,
}

/// A packet begins with a move after the next one. Nothing changed.
#[derive(Clone, Copy, Debug, PartialEq, Eq)]
pub struct MoveGap {
    /// The packet's first move.
    pub first: u32,
    /// Moves accepted so far, which is the number of the next one.
    pub accepted: u32,
}
