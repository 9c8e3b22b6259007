//! What the simulation of a match in threads tells a connection, and the step that each message asks for.
#![tactic(auto)]

mod message;

pub use message::Message;
