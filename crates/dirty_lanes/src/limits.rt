//! How many fields of an object the lanes hold (docs/wire.md, "Limits").

/// Fields of an object in the lanes.
pub const MAX_LANE_FIELDS: usize = 16;
