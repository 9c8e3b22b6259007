//! Which objects of a world a client sees, and how near they are. The rules stand in docs/world.md, "Scope".
#![tactic(auto)]

mod candidates;
mod gather;
mod scope;
mod viewer;
mod whole_words;
mod word_set;

pub use scope::{visible, visible_counted};
pub use viewer::Seen;
