//! A match in threads: its run, written to a sink, and the call of the program over a source and a sink.
#![tactic(auto)]

mod judgement;
mod laws;
mod run;
mod threads;

pub use judgement::Judgement;
pub use laws::laws_of_races;
pub use plain_race::legal_race::tell;
pub use race_run::{FreeGate, Gate};
pub use run::{judge, run_threads};
pub use threads::top_threads;
