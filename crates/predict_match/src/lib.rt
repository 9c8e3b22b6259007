//! The run of a match beside a prediction of one client's player.
#![tactic(auto)]

mod running;

pub use predict_laws::{predict_lines, value_is_servers};
pub use running::run_predicted;
