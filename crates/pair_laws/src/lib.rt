//! What is promised of a connection, over all that it did: laws of both ends and the network between them.
#![tactic(auto)]

mod exchange;
mod held_blocks;
mod laws;
mod loose_events;
mod refusals;
mod verdicts;

pub use exchange::packets_are_exchanged;
pub use held_blocks::{held_blocks_are_as_given, received_blocks_are_held};
pub use laws::{accepts_in_order, acknowledged_is_delivered, delivers_in_order};
pub use loose_events::loose_events_in_order;
pub use refusals::honest_runs_refuse_little;
pub use verdicts::verdicts_are_true;
