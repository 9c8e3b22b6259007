//! What a prediction promises of the server.
#![tactic(auto)]

mod laws;

pub use laws::value_is_servers;
pub use predict_lines;
