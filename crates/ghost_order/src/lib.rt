//! The items of a packet in the order in which it takes them: kills first, then by falling priority, and of equal ones by rising slot.
//!
//! A `Ranking` brings items, at most one for each slot, into order by numbers that are kept as sets of slots, and writes the first of
//! them into `Choices`. `new` alone takes memory.
#![tactic(auto)]

mod choices;
mod numbers;
mod ranking;
mod sequence;

pub use choices::Choices;
pub use ranking::{Ranked, Ranking};
