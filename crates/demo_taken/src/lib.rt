//! What a demo of a client records, as laws over the steps of its connection. It has no code.
#![tactic(auto)]

mod laws;

pub use demo_view;
pub use laws::{replay_shows_what_the_client_shows, taken_are_viewed, taken_come_with_the_answer};
