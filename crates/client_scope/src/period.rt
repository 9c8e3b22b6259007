//! What is kept of a period, and what a scan tells of it.

/// A period that is shown and not hidden.
#[derive(Clone, Copy, Debug, PartialEq, Eq)]
pub struct ShownPeriod {
    /// Its number: periods of a client are numbered from 0.
    pub n: u32,
    /// The number of its object.
    pub object: u32,
    /// How near the last scan saw it, 0 to 3.
    pub level: u8,
}

/// A period whose level is another one than before.
#[derive(Clone, Copy, Debug, PartialEq, Eq)]
pub struct Near {
    /// The period's number.
    pub n: u32,
    /// Its new level, 0 to 3.
    pub level: u8,
}
