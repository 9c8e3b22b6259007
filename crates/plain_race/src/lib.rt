//! A race that is legal for its script, made plainly: on one thread, with no locks and no rings. No tick takes a move, each client's
//! own lines and packs come first, and its messages after them.
#![tactic(auto)]

mod client;
mod idle;
mod lines;
mod messages;
mod plain;
mod steps;
mod values;
mod words;
mod zero_values;

pub use legal_race;
pub use legal_race::race_history;
pub use plain::plain_race;
