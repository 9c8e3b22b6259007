//! The next datagram of a server's end in one call: what was drained is absorbed, a data packet is planned, its values are asked
//! for and sealed, or a ping is made (docs/connection.md, "Sending").
#![tactic(auto)]

mod asking;
mod made;
mod noting;
mod packer;
mod packing;
mod said;
mod writing;

pub use asking::MAX_PACKET_VALUES;
pub use made::{Made, TooSmall};
pub use noting::Noting;
pub use packer::Packer;
pub use stream_manager;
pub use writing::{ping_into, seal_into};
