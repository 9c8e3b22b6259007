//! The periods of one client: which objects its scans begin, go on and cease to see. The rules stand in docs/world.md,
//! "Periods".
#![tactic(auto)]

mod marks;
mod period;
mod scope;
mod walks;

pub use period::{Near, ShownPeriod};
pub use scope::Scope;
