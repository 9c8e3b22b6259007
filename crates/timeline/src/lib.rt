//! What a client draws of the others: for each field of each slot the last values that came, and between two of them a value for each
//! moment.
//!
//! A moment is a packet's number with a fraction, `MOMENTS` to a packet (docs/timeline.md).
#![tactic(auto)]

mod between;
mod frames;
mod laws;
mod refusal;
mod slot;
mod told;

pub use between::{Interpolation, Keyframe, MOMENTS};
pub use laws::{
    moment_of_a_packet_is_its_value, newest_value_stays, value_is_between, window_is_enough,
};
pub use refusal::Refusal;
pub use told::{MAX_DEPTH, Shape, Timeline, USUAL_DEPTH};
