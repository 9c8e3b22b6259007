//! The call of the program that predicts a client's player, over a source and a sink.
#![tactic(auto)]

mod laws;
mod serving;

pub use laws::laws_of_predictions;
pub use serving::top_predict;
