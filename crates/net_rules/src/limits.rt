/// A turn calls `receive` so often at the most.
pub const MAX_RECEIVES: u32 = 10_000;

/// So many milliseconds lie between two turns.
pub const TURN_MILLISECONDS: u64 = 50;

/// So many datagrams without a pause are a large batch, behind which a link rests for a millisecond at most.
pub const LARGE_BATCH: u32 = 64;

/// A server is asked for so many turns at the most.
pub const MAX_TURNS: u32 = 100_000;

/// The first byte of a hello.
pub const HELLO: u8 = 2;

/// So many bytes has a hello.
pub const HELLO_BYTES: usize = 5;

/// The first byte of a welcome.
pub const WELCOME: u8 = 3;

/// So many bytes has a welcome.
pub const WELCOME_BYTES: usize = 12;

/// Room for a datagram, and one byte that tells that it is too long.
pub const MAX_RECEIVED_BYTES: usize = 1_201;
