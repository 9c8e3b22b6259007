//! What is promised of messages over a connection: laws of both ends' channels and the network between them. It has no code.
#![tactic(auto)]

mod laws;

pub use laws::{channels_keep_in_step, messages_over_a_connection};
