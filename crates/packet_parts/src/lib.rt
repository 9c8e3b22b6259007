//! A datagram taken apart: each part of it with its bit, its bits, what it is, and its value (docs/packets.md).
//!
//! `server_parts` and `client_parts` read as the decoders of `wire_format` do, and keep what they read: the parts up to the end,
//! or up to the first fault.
#![tactic(auto)]

mod ghosts;
mod items;
mod packets;
mod part;
mod reader;
mod widths;

pub use packets::{Telling, client_parts, server_parts};
pub use part::{Part, PartList, PartName};
