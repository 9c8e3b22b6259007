//! Which fields of which object changed for whom.
//!
//! The simulation writes the fields of objects, and raises bits for the clients that are to hear of it. The
//! packer of a client drains the bits of an object, and reads the fields that it sends. `PlainLanes` are for one
//! thread. `Lanes` are words that the simulation and all packers share, with no lock, each on a seat of its own. The
//! rules are those of docs/world.md, "Lanes".
#![tactic(auto)]

mod ends;
mod fresh;
mod lanes;
mod laws;
mod limits;
mod plain;
mod rule;
mod seats;
pub mod view;
mod words;

pub use ends::{CloseRefused, FinalWords, close};
pub use fresh::{FreshLanes, PackSeats};
pub use lanes::{LaneName, Lanes};
pub use laws::{each_bit_was_raised, newest_was_read, raise_tells, read_pays, write_is_pending};
pub use limits::MAX_LANE_FIELDS;
pub use plain::PlainLanes;
pub use seats::{PackSeat, SimSeat};
