//! Why a parcel is not held, a piece not taken, and nothing handed out.

/// Why a parcel was not taken up. Nothing changed.
#[derive(Clone, Copy, Debug, PartialEq, Eq)]
pub enum HoldFault {
    /// It has more bytes than one of its kind may have: 23 or 65,535.
    TooLong { most: u32 },
    /// It has so many pieces, and so many places are free.
    NoPlaces { needed: u32, free: u32 },
}

/// Why a piece ended what comes in: no honest end sends it after those that came.
#[derive(Clone, Copy, Debug, PartialEq, Eq)]
pub enum PieceFault {
    /// It has no byte.
    Empty,
    /// Its first byte is none of 0 to 4.
    UnknownForm { form: u8 },
    /// It goes on with a message, and none is begun.
    NotBegun,
    /// It begins anew, and a message is not at its end.
    NotEnded,
    /// It begins a message that fits one piece.
    OnePiece { length: u32 },
    /// It has more bytes than its message has left, or is none of its last while it might be.
    MoreBytes,
    /// It has fewer bytes than it has to.
    FewerBytes,
    /// Its message is longer than the inbox.
    TooLong { length: u32, most: u32 },
}

/// The place for a parcel has fewer bytes than the parcel, `needed`. Nothing changed.
#[derive(Clone, Copy, Debug, PartialEq, Eq)]
pub struct SmallPlace {
    pub needed: u32,
}
