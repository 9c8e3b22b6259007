//! Joining a match over a link: hellos until a welcome comes, and from then on the client's end of a connection, turn by turn.
#![tactic(auto)]

mod joiner;
mod joining;
mod listening;
mod player;
mod welcomes;

pub use joining::join;
