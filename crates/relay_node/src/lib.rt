//! A relay with spectators: the run of a match beside the connections of those who look on at one of its clients.
#![tactic(auto)]

mod laws;
mod node;
mod running;

pub use laws::lines_stand_as_in_the_text;
pub use relay_report;
pub use relay_script;
pub use running::run_relay;
