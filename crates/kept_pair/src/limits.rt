//! How many steps of a pair are kept (docs/wire.md, "Limits").

/// Steps that are kept of one pair.
pub const MAX_KEPT_STEPS: u32 = 65_536;
