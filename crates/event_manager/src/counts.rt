//! How many places of a sender are taken.
ghost use Rattle.std.specs.Prelude.{◌≡◌, ◌≤◌, length};
ghost use Rattle.event_manager.specs.Sending.{unacked_count, waiting_of};
ghost use Rattle.event_manager.specs.SenderStands.{SenderAnswers};

use crate::EventSender;
use tn_types::{MAX_UNACKNOWLEDGED_EVENTS, MAX_WAITING_EVENTS};

impl EventSender {
    /// How many guaranteed events are unacknowledged, at most 256.
    pub fn unacknowledged(&self) -> u32
        ensures value { result ≡ length self.now.entries }
        ensures few { result ≤ MAX_UNACKNOWLEDGED_EVENTS }
        ensures log { SenderAnswers self.now unacked_count result }
    {
        self.entries.len() as u32
    }

    /// How many unguaranteed events wait, at most 64.
    pub fn waiting(&self) -> u32
        ensures value { result ≡ length self.now.waiting }
        ensures few { result ≤ MAX_WAITING_EVENTS }
        ensures log { SenderAnswers self.now (λ fate log. length (waiting_of log)) result }
    {
        self.waiting.len() as u32
    }
}
