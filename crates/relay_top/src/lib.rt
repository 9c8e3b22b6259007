//! The call of the program that runs a relay with spectators, over a source and a sink.
#![tactic(auto)]

mod laws;
mod reading;
mod serving;

pub use laws::laws_of_relays;
pub use serving::top_relay;
