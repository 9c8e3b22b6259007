//! Why something is not told, or not answered.

/// What a timeline refuses. Nothing changed.
#[derive(Clone, Copy, Debug, PartialEq, Eq)]
pub enum Refusal {
    /// There is no slot of this number.
    NoSlot,
    /// No packet has this number: it is 0 or above 16,777,215.
    NoPacket,
    /// A packet of a higher number told before.
    GoesBack,
    /// There is no field of this number.
    NoField,
    /// The table has no kind of this number.
    NoKind,
}
