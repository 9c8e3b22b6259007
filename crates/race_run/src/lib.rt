//! A match in threads: the simulation, and for each client a packer and a net activity, beside one another.
#![tactic(auto)]

mod activity;
mod asked;
mod connecting;
mod run;
mod start;

pub use race_sim::{Actor, FreeGate, Gate, Place};
pub use run::race;
