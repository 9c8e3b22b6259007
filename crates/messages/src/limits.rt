//! The numbers of docs/messages.md.

/// Bytes of a message, at most.
pub const MAX_MESSAGE_BYTES: usize = 65_535;

/// Bytes of a parcel that one piece carries: an event's 24 without the one that tells the form.
pub const MAX_SINGLE_BYTES: usize = 23;

/// Bytes of a message that its first piece carries, which has two for the length.
pub const FIRST_BYTES: usize = 21;
