//! A datagram as text (docs/packets.md): one part a line, with its bit, its bits, what it is, its value, and what the value means; or in one
//! line.
#![tactic(auto)]

mod brief;
mod meanings;
mod names;
mod table;
mod text;

pub use brief::told_text;
pub use packet_parts;
pub use table::table_text;
