//! The values that each field of each object of a match had, by version, and the moves that each tick took.
#![tactic(auto)]

mod history;
pub mod laws;
mod moves;
mod object;
mod race;

pub use history::History;
pub use kept_pair;
pub use kept_pair::pair_core;
pub use moves::TickMoves;
pub use race::{Race, RaceClient, RaceClients};
