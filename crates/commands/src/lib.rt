//! The commands of the program: its words on the command line, and what they ask for.
#![tactic(auto)]

mod command;
mod grammar;
mod number;

pub use command::{Command, MAX_REPLAYED};
pub use grammar::command_of;
