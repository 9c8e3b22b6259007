//! How far the world reaches (docs/wire.md, "Limits").

/// The greatest coordinate, in centimetres.
pub const MAX_COORDINATE: u32 = 65_535;
