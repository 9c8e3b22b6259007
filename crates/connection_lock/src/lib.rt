//! One connection under a lock: a pair that keeps its steps, the seat through which its packs read the lanes, and the ends of the
//! rings from and to the simulation.
#![tactic(auto)]

mod limits;
mod line;
mod locked;
mod net_line;
mod packing;
mod shared;
mod taking;

pub use kept_pair;
pub use lane_periods::Objects;
pub use limits::MAX_TAKEN_MESSAGES;
pub use locked::{DoneLines, Ended, Locked};
pub use net_line::NetLine;
pub use shared::SharedPair;
