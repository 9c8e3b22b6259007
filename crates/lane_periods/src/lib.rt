//! The periods of one connection, by the objects behind them, and what its packer's seat drains and reads of them.
#![tactic(auto)]

mod drains;
mod objects;
mod periods;
mod values;

pub use drains::drain_all;
pub use objects::Objects;
pub use periods::Periods;
pub use values::SeatValues;
