//! The limits of the connection, each once, and those that several crates above it share; a crate that alone has a limit keeps
//! its own (docs/wire.md, "Limits", lists all). Counts are of what they name; sizes of datagrams, blocks and events are bytes;
//! widths of fields are bits.

/// Clients of a match, numbered from 0.
pub const MAX_CLIENTS: u8 = 16;

/// The least SIZE of a match: bytes that a datagram may have.
pub const MIN_DATAGRAM_BYTES: usize = 128;

/// The greatest SIZE of a match: bytes that a datagram may have.
pub const MAX_DATAGRAM_BYTES: usize = 1_200;

/// Bytes that an end can be given as a datagram.
pub const MAX_READ_BYTES: usize = 65_536;

/// The greatest LIFE of a match, at which each counter of a connection ends.
pub const MAX_LIFE: u32 = 16_777_215;

/// Datagrams sent one way over a connection.
pub const MAX_DATAGRAMS: u32 = 4_294_967_295;

/// Data packets of one end that have no verdict yet.
pub const MAX_UNJUDGED_PACKETS: u32 = 32;

/// The widest number that is written in one piece, in bits.
pub const MAX_WORD_BITS: u32 = 32;

/// Kinds of object in a table.
pub const MAX_KINDS: usize = 16;

/// Fields of a kind.
pub const MAX_FIELDS: usize = 16;

/// Fields that a list of them can hold before it is tested against `MAX_FIELDS`.
pub const MAX_LISTED_FIELDS: usize = 32;

/// Bits of a field's level.
pub const MAX_FIELD_BITS: u32 = 24;

/// Bits of all fields of a kind together.
pub const MAX_KIND_BITS: u64 = 192;

/// Datablocks of a script.
pub const MAX_BLOCKS: usize = 64;

/// Bytes of a datablock.
pub const MAX_BLOCK_BYTES: usize = 40;

/// How many blocks from the first unacknowledged one on may be due.
pub const MAX_BLOCKS_AHEAD: usize = 16;

/// Bytes of an event.
pub const MAX_EVENT_BYTES: usize = 24;

/// How many guaranteed events from the first unacknowledged one on may be due, and may come before those that they follow.
pub const MAX_EVENTS_AHEAD: usize = 64;

/// Guaranteed events of an end that are posted and not acknowledged.
pub const MAX_UNACKNOWLEDGED_EVENTS: usize = 256;

/// Unguaranteed events of an end that wait to be sent.
pub const MAX_WAITING_EVENTS: usize = 64;

/// Bits of a move, at most.
pub const MAX_MOVE_BITS: u32 = 64;

/// Bits of a move of this project's own world: a step each way and two flags.
pub const WORLD_MOVE_BITS: u32 = 10;

/// Moves of a client that are sampled and not acknowledged.
pub const MAX_UNACKNOWLEDGED_MOVES: usize = 32;

/// Accepted moves of a client that wait for a tick.
pub const MAX_WAITING_MOVES: usize = 32;

/// Blocks in a packet.
pub const MAX_PACKET_BLOCKS: usize = 15;

/// Events in a packet.
pub const MAX_PACKET_EVENTS: usize = 31;

/// Ghosts in a packet.
pub const MAX_PACKET_GHOSTS: usize = 128;

/// Moves in a packet.
pub const MAX_PACKET_MOVES: usize = 32;

/// Slots for ghosts, numbered from 0.
pub const MAX_SLOTS: usize = 256;

/// Periods of a connection that are shown and not hidden.
pub const MAX_SHOWN_PERIODS: usize = 1_024;

/// Periods of a connection, gone ones too.
pub const MAX_SHOWS: u32 = 4_294_967_295;

/// The greatest level of distance.
pub const MAX_DISTANCE_LEVEL: u8 = 3;

/// Objects of a match, dead ones too.
pub const MAX_OBJECTS: usize = 1_024;

/// Packets since a period's last turn that its priority counts (docs/connection.md, "Candidates").
pub const MAX_SKIPS: u32 = 65_535;

/// The least step of a move.
pub const MIN_STEP: i8 = -8;

/// The greatest step of a move.
pub const MAX_STEP: i8 = 7;
