//! Own lists: what a match tells each client's server, from which alone the server can serve it.
#![tactic(auto)]

mod laws;
mod showing;

pub use laws::own_lists_hold;
pub use pair_steps::pair_core;
pub use showing::Showing;
