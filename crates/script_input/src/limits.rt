//! How long a script may be (docs/wire.md, "Limits").

/// Bytes of a script.
pub const MAX_SCRIPT_BYTES: usize = 1_048_576;
