//! A spectator of a relay: the server that serves it alone, which is told what the relay's client was told.
#![tactic(auto)]

mod spectator;
mod watch;

pub use alone_server;
pub use relay_board;
pub use spectator::Spectator;
