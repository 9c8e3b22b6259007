//! The window of one end of a connection: which packets were sent, which came, and what became of each. Beside it
//! stand the words on fates, and how far something is on its way that is sent until it is received.
//!
//! No call takes memory, and none loops. The rules are those of docs/connection.md, "The window".
#![tactic(auto)]

mod laws;
mod masks;
mod progress;
mod said;
mod window;

pub use laws::{horizon_is_final, verdict_is_final};
pub use progress::Progress;
pub use window::Window;

/// What a pack makes now.
#[derive(Clone, Copy, Debug, PartialEq, Eq)]
pub enum SendState {
    /// A ping: 32 packets are unjudged.
    Held,
    /// Nothing: fewer are unjudged, and `life` packets were sent.
    Worn,
    /// A data packet.
    Room,
}

/// What becomes of a datagram of the other end.
#[derive(Clone, Copy, Debug, PartialEq, Eq)]
pub enum Arrival {
    /// A data packet whose number is no longer above the horizon. It is dropped whole.
    Old { seq: u32, horizon: u32 },
    /// Any other one. It is taken.
    Fresh,
}

/// An acknowledgement whose horizon is above the last number that was sent.
#[derive(Clone, Copy, Debug, PartialEq, Eq)]
pub struct AckAhead {
    pub horizon: u32,
    pub last: u32,
}

/// The verdicts of `count` packets from `first` on: bit i is set where packet `first + i` is Received, and
/// clear where it is Lost. No bit from `count` on is set.
#[derive(Clone, Copy, Debug, PartialEq, Eq)]
pub struct Notices {
    pub first: u32,
    pub count: u32,
    pub bits: u32,
}
