//! The simulation of a match in threads: it makes the world's ticks, gives their values to the lanes, and tells each connection what
//! its client's scope and posts ask for.
#![tactic(auto)]

mod gate;
mod lines;
mod outgoing;
mod port;
mod simulation;

pub use gate::{Actor, FreeGate, Gate, Place};
pub use lines::{Simulated, simulate};
pub use outgoing::Waiting;
pub use port::Port;
pub use simulation::Simulation;
