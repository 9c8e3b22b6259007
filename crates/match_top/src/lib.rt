//! The calls of the program over a source and a sink that run one match: `run`, `alone C` and `big`.
#![tactic(auto)]

mod laws;
mod serving;

pub use laws::laws_of_commands;
pub use serving::{top_alone, top_big, top_run};
