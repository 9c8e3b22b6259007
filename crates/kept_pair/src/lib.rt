//! A connection that keeps its steps, so that what was done can be told, and compared, when it has ended.
//!
//! It makes the steps of a pair, and lists each as it was made: a pack with what was drained and read.
#![tactic(auto)]

mod entry;
mod events;
mod fault;
mod given;
mod limits;
mod may;
mod pair;
mod step_list;

pub use fault::KeepFault;
pub use limits::MAX_KEPT_STEPS;
pub use pair::KeptPair;
pub use pair_core;
pub use step_list::StepList;
