//! Plain types that several crates share: what travels in a datagram, what a packet did, and where a pack takes its values
//! from. The limits of the connection stand here, and the words on lists that definitions are made of.
#![tactic(auto)]

mod bytes;
mod choices;
mod limits;
mod moves;
mod raw_bytes;
mod said;
mod short_list;
mod steps;
mod values;
mod words;

pub use bytes::{Bytes, are_bytes};
pub use choices::{Choice, Class, Drain, End, NoMemory, Op, PacketKind, Read, Verdict};
pub use limits::{
    MAX_BLOCK_BYTES, MAX_BLOCKS, MAX_BLOCKS_AHEAD, MAX_CLIENTS, MAX_DATAGRAM_BYTES, MAX_DATAGRAMS,
    MAX_DISTANCE_LEVEL, MAX_EVENT_BYTES, MAX_EVENTS_AHEAD, MAX_FIELD_BITS, MAX_FIELDS,
    MAX_KIND_BITS, MAX_KINDS, MAX_LIFE, MAX_LISTED_FIELDS, MAX_MOVE_BITS, MAX_OBJECTS,
    MAX_PACKET_BLOCKS, MAX_PACKET_EVENTS, MAX_PACKET_GHOSTS, MAX_PACKET_MOVES, MAX_READ_BYTES,
    MAX_SHOWN_PERIODS, MAX_SHOWS, MAX_SKIPS, MAX_SLOTS, MAX_STEP, MAX_UNACKNOWLEDGED_EVENTS,
    MAX_UNACKNOWLEDGED_MOVES, MAX_UNJUDGED_PACKETS, MAX_WAITING_EVENTS, MAX_WAITING_MOVES,
    MAX_WORD_BITS, MIN_DATAGRAM_BYTES, MIN_STEP, WORLD_MOVE_BITS,
};
pub use moves::{Move, MoveBits};
pub use raw_bytes::RawBytes;
pub use short_list::ShortList;
pub use steps::Steps;
pub use values::Values;
pub use words::{
    first_fault_is_first, fitting_is_longest, least_is_least, those_below_are_all_that_pass,
};

/// The bytes of an event.
pub type Payload = Bytes<MAX_EVENT_BYTES>;

/// The bytes of a datablock.
pub type BlockBytes = Bytes<MAX_BLOCK_BYTES>;
