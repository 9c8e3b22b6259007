//! How a period begins.

/// How a period begins: the kind and the datablock of its object, how near it is, and whether it is the client's own player.
#[derive(Clone, Copy, Debug, PartialEq, Eq)]
pub struct Showing {
    /// The number of the kind.
    pub kind: u8,
    /// The number of the datablock, 0 to 63.
    pub block: u8,
    /// How near the object is, 0 to 3.
    pub level: u8,
    /// Whether the client controls it.
    pub control: bool,
}
