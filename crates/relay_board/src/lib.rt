//! What a packet changed of the copies of a relay's client: found once, for all spectators.
#![tactic(auto)]

mod board;

pub use board::{Board, Change, none_beyond, value_of};
