//! The widths of parts, as `wire_format` has them for itself: each clause here names its number, so that another one is refused.

/// Whether a packet is data or a ping.
pub(crate) const KIND_WIDTH: u32 = 2;
/// The kind of a data packet.
pub(crate) const DATA: u32 = 0;
/// The kind of a ping.
pub(crate) const PING: u32 = 1;
/// The number of a client.
pub(crate) const CLIENT_WIDTH: u32 = 4;
/// The number of a packet, an event or a move.
pub(crate) const NUMBER_WIDTH: u32 = 24;
/// The greatest of these numbers.
pub(crate) const MAX_NUMBER: u32 = (1 << NUMBER_WIDTH) - 1;
/// What of the number of an event stands in a packet of version 2.
pub(crate) const LOW_NUMBER_WIDTH: u32 = 7;
/// Which of the last 32 packets were processed.
pub(crate) const MASK_WIDTH: u32 = 32;
/// Whether an optional part follows.
pub(crate) const FLAG_WIDTH: u32 = 1;
/// The slot of a ghost.
pub(crate) const SLOT_WIDTH: u32 = 8;
/// A byte of a block or an event.
pub(crate) const BYTE_WIDTH: u32 = 8;
/// The number of a datablock.
pub(crate) const BLOCK_NUMBER_WIDTH: u32 = 6;
/// How many bytes a datablock has.
pub(crate) const BLOCK_LENGTH_WIDTH: u32 = 6;
/// How many bytes an event has.
pub(crate) const EVENT_LENGTH_WIDTH: u32 = 5;
/// What a ghost item does to its slot.
pub(crate) const OP_WIDTH: u32 = 2;
/// The op of a kill.
pub(crate) const KILL: u32 = 0;
/// The op of a create.
pub(crate) const CREATE: u32 = 1;
/// The op of an update.
pub(crate) const UPDATE: u32 = 2;
/// The number of a kind in the table of kinds.
pub(crate) const KIND_NUMBER_WIDTH: u32 = 4;
/// A step of a move each way, raised by 8.
pub(crate) const STEP_WIDTH: u32 = 4;
/// The first version in which the terms say how wide a move is.
pub(crate) const OWN_VERSION: u8 = 3;
/// From this version on updates have no kind and events a low number.
pub(crate) const LOW_VERSION: u8 = 2;
