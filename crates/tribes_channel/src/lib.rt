//! Messages of any length and short events over one end of a connection, for callers that can promise nothing: each number and length
//! is tested, and what may not be done answers why, and changes nothing.
#![tactic(auto)]

mod channel;
mod faults;
mod receiving;
mod sending;
mod why;

pub use channel::{Channel, Handed, Places};
pub use faults::{NextFault, OpenFault};
pub use messages::{HoldFault, ParcelKind, PieceFault};
pub use why::{hold_why, next_why, open_why};
