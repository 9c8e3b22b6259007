//! A number of what both ends of a connection have to agree on, by which ends that were made for different games find it out at once.
#![tactic(auto)]

mod protocol;

pub use protocol::{FORM_VERSION, Protocol, protocol_number};
