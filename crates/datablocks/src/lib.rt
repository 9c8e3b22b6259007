//! Datablocks: bytes that every client is to hold, on their way to one client. The rules stand in
//! docs/connection.md, "Blocks".
#![tactic(auto)]

mod progress;
mod receiver;
mod said;
mod sender;
mod words;

pub use receiver::{BlockFault, BlockReceiver};
pub use sender::{BlockSender, DueBlocks};
