//! What is promised of a connection under a key: an end takes only what the other end made. It has no code.
#![tactic(auto)]

mod laws;

pub use laws::nothing_is_raw;
