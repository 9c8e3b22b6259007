//! The versions of the format, and the limits of a script and of its match (docs/wire.md, "Limits").

/// The first version that a script's first line names.
pub const MIN_VERSION: u8 = 1;
/// The last one.
pub const MAX_VERSION: u8 = 2;

/// The greatest RADIUS of a match, in centimetres.
pub const MAX_RADIUS: u32 = 65_535;

/// Body lines of a script.
pub const MAX_BODY_LINES: u32 = 100_000;

/// Lines `tick` of a match in threads.
pub const MAX_THREAD_TICKS: u32 = 4_096;

/// Lines that a match counts: ticks, scans and packs.
pub const MAX_COUNTED_LINES: u32 = 4_000_000;
