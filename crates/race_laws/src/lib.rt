//! What may be concluded from the text of a legal race.
//!
//! It has no code. Its law speaks of every race that is legal for a script, whoever made it up.
#![tactic(auto)]

mod laws;

pub use laws::settled_shows_newest;
