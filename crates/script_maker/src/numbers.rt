//! The numbers of a made script.

/// The version of the format and of the datagrams.
pub const MADE_VERSION: u8 = 1;

/// Bytes of a datagram at the most.
pub const MADE_SIZE: u32 = 400;

/// How far a player sees, in centimetres.
pub const MADE_RADIUS: u32 = 16_000;

/// Blocks of the script.
pub const MADE_BLOCKS: u8 = 4;

/// Bytes of each block.
pub const MADE_BLOCK_BYTES: u8 = 8;

/// Players and spawns together.
pub const MADE_OBJECTS: u8 = 60;

/// Centimetres from the edges of the world at which the flag of team 0 stands.
pub const FLAG_NEAR: i64 = 8_000;

/// Centimetres from the same edge at which the other one stands.
pub const FLAG_FAR: i64 = 57_535;

/// Coordinates from which a place is drawn.
pub const COORDINATES: u32 = 65_536;

/// Steps of a move from which each is drawn.
pub const STEPS: u32 = 16;

/// A move fires, and uses, once in so many draws.
pub const ACTS_ONCE_IN: u32 = 8;

/// The server posts once in so many draws.
pub const POSTS_ONCE_IN: u32 = 4;

/// Payloads from which that of a post is drawn: all numbers of two bytes.
pub const PAYLOADS: u32 = 65_536;

/// Chances of a delivery.
pub const CHANCES: u32 = 10;

/// Lines of a round at the most: its tick, and for each of 16 clients a move, a scan, a post, two packs, and two deliveries that
/// bring two datagrams each.
pub const MOST_LINES_OF_A_ROUND: usize = 145;
