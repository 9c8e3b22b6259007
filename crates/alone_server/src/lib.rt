//! A server that serves one client alone: it is fed the client's own list, and tells what the match tells.
#![tactic(auto)]

mod periods;
mod server;
mod values;

pub use own_items;
pub use server::{AloneHeader, AloneServer};
