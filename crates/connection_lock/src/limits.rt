//! How much one pack takes (docs/wire.md, "Limits").

/// Messages of the simulation that one pack takes.
pub const MAX_TAKEN_MESSAGES: u32 = 4_096;
