//! Both ends of a connection, and the network between them.
//!
//! The network brings only datagrams that were sent, named by their place: any number of times, in any order, as late as
//! it likes (docs/connection.md, "The network"). Beside it stands whoever sends the server raw bytes.
#![tactic(auto)]

mod datagrams;
mod packing;
mod pair;
mod step;
mod steps;

pub use conn_packing;
pub use conn_packing::stream_manager;
pub use pair::Pair;
pub use step::{Answer, PairStep};
