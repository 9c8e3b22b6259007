//! A tag behind each datagram, by which an end knows that it is from who has the key.
#![tactic(auto)]

mod keyed_end;
mod laws;
mod sides;

pub use keyed_end::{KEY_BYTES, KeyedEnd, TagFault};
pub use laws::{other_end_verifies, verifies_only_what_is_tagged};
pub use sides::{Side, TagBytes};
