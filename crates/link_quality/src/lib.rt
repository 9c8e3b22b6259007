//! How a connection goes: the round trip, what was lost of late, and how much goes each way.
#![tactic(auto)]

mod packets;
mod smoothing;
mod traffic;
mod verdicts;

pub use packets::{LinkQuality, QualityRefusal, WAITING_PACKETS};
pub use smoothing::{MAX_ROUND_TRIP, RoundTrip};
pub use traffic::{MeterParts, MeterRefusal, SECOND, Traffic, TrafficMeter};
pub use verdicts::JUDGED_PACKETS;
