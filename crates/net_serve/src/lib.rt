//! A server of a match over a link: turns, hellos and welcomes, arrivals as raw lines, events that are posted on, and the script
//! of all of it, written line by line.
#![tactic(auto)]

mod arriving;
mod fault;
mod laws;
mod listening;
mod server;
mod serving;
mod telling;
mod watch;

pub use laws::{is_read_again, packs_are_sent, raws_are_arrivals, ticks_are_turns};
pub use match_engine::match_laws;
pub use serving::{Offer, serve};
pub use watch::{Nobody, Watch};
