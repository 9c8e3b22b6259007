//! The counts of a match's report, made line by line with no report kept, and the summary that `big` writes of them.
#![tactic(auto)]

mod adding;
mod counting;
mod counts;
mod summary;

pub use counting::count;
pub use counts::Counts;
pub use match_engine;
pub use match_engine::match_laws;
pub use summary::put_counts;
