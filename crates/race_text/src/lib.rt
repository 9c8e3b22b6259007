//! The text of a race: the values by version, the moves that ticks took, what each client's connection kept, the mask words at the end,
//! and what each client has then.
#![tactic(auto)]

mod draft;
mod history;
mod journal;
mod left;
mod moves;
mod packs;
mod show;
mod steps;
mod taken;
mod words;

pub use draft::Draft;
pub use history::put_history;
pub use journal::put_journal;
pub use moves::put_moves;
pub use show::put_show;
pub use words::put_words;
