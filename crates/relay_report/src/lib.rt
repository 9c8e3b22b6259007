//! What a relay with spectators reports: definitions, laws, and its lines.
#![tactic(auto)]

mod laws;
mod text;

pub use laws::{packs_are_of_what_was_met, same_lists_same_packs, same_met_same_packs};
pub use match_engine;
pub use text::put_relayed;
