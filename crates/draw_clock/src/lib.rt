//! When to draw: a clock that follows the packets that come, in the moments of a timeline.
#![tactic(auto)]

mod clock;
mod pace;

pub use clock::{ClockParts, ClockRefusal, DrawClock, MAX_TIME, Pace};
pub use pace::FINE;
