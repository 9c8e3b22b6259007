//! What a script and the moves of its ticks make: a connection for each client, the values of all
//! fields by version, and the messages that each client is to get.
#![tactic(auto)]

mod client;
mod connection;
mod course;
mod fit;
pub mod laws;
mod making;
mod scan;

pub use connection::new_pair;
pub use course::Course;
pub use fit::moves_fit;
pub use own_lists::pair_core;
pub use scan::scan_messages;
