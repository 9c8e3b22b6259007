//! The demo of a client of a match: each datagram that the client took, in order, written while the match is run.
#![tactic(auto)]

mod laws;
mod recording;

pub use demo_format;
pub use demo_taken;
pub use laws::{recorded_are_taken, replay_shows_the_client};
pub use match_engine;
pub use recording::write_demo_of;
