//! The end of a match in threads: what nobody took becomes steps, and what is left is the race.
#![tactic(auto)]

mod ending;
mod left;

pub use ending::end;
pub use race_history::kept_pair;
