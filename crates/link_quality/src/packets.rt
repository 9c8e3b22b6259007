//! What became of the packets, and how long it took to hear of them.
ghost use Rattle.std.specs.Prelude.{◌≡◌, ◌≤◌, ◌<◌, ◌-◌, [], IfOk, OnOk, OnErr, IfSome};
ghost use Rattle.tn_types.specs.Histories.{Does, Answers};
ghost use Rattle.tn_types.specs.Checks.{then_check};
ghost use Rattle.link_quality.specs.Smoothing.{IsSmall};
ghost use Rattle.link_quality.specs.Packets.{smoothed_by};

use crate::smoothing::{MAX_ROUND_TRIP, RoundTrip, after_trip};
use crate::verdicts::{JUDGED_PACKETS, VerdictWindow};
use circular_buffer::HeapCircularBuffer;
use std::alloc::Global;
use std::marker::Model;
use tn_types::{NoMemory, Verdict};

/// How many packets may wait for their verdicts.
pub const WAITING_PACKETS: usize = 64;

/// What is refused. Nothing changed.
#[derive(Clone, Copy, Debug, PartialEq, Eq)]
pub enum QualityRefusal {
    /// A later time was told before.
    TimeGoesBack,
    /// As many packets wait for their verdicts as may.
    TooMany,
    /// No packet waits for its verdict.
    NothingWaits,
}

/// How the packets of one end go. Nothing after `new` takes memory.
///
/// A clause sees `Quality`, and what it means by the list of what was told. The rules are in docs/pace.md.
#[derive(Drop)]
pub struct LinkQuality {
    waiting: HeapCircularBuffer<u64>,
    verdicts: VerdictWindow,
    smoothed: Option<RoundTrip>,
    last: u64,
}

impl Model for LinkQuality {
    ghost use Rattle.link_quality.specs.Packets.{Quality};

    ghost Value = { Quality };

    ghost use Rattle.link_quality.specs.View.{quality_of, IsSound};

    ghost view = { quality_of };

    ghost invariant = { λ q. IsSound q };
}

impl LinkQuality {
    ghost use Rattle.link_quality.specs.Packets.{Sent, Judged, StandsFor, time_check, sent_check, judged_check, losses_of, trips_of};
    ghost use Rattle.link_quality.specs.Smoothing.{smoothed_of};

    /// Of a connection that sent nothing. `NoMemory` is the one error.
    pub fn new(alloc: Global) -> Result<LinkQuality, NoMemory>
        ensures { IfOk result (λ q. StandsFor q []) }
    {
        let Ok(waiting) = HeapCircularBuffer::with_capacity(alloc, WAITING_PACKETS) else {
            return Err(NoMemory);
        };
        let Ok(verdicts) = VerdictWindow::new(alloc) else {
            return Err(NoMemory);
        };
        Ok(LinkQuality {
            waiting,
            verdicts,
            smoothed: None,
            last: 0,
        })
    }

    /// A data packet was sent at this time, in milliseconds. Refused as `TimeGoesBack`, else as `TooMany`.
    #[tactic(auto, using(crate::proofs::PacketFacts::sent_more))]
    pub fn sent(&mut self, now: u64) -> Result<(), QualityRefusal>
        ensures answer { result ≡ then_check (time_check self.old now) (sent_check self.old) }
        ensures log { OnOk result (Does StandsFor self.old (Sent now) self.new) }
        ensures refused { OnErr result (self.new ≡ self.old) }
    {
        if now < self.last {
            return Err(QualityRefusal::TimeGoesBack);
        }
        match self.waiting.try_push_back(now) {
            Ok(()) => {
                self.last = now;
                Ok(())
            }
            Err(_) => Err(QualityRefusal::TooMany),
        }
    }

    /// The oldest packet that waits was judged at this time. Refused as `TimeGoesBack`, else as `NothingWaits`.
    #[tactic(auto, using(crate::proofs::PacketFacts::judged_more, crate::proofs::PacketFacts::none_to_judge))]
    pub fn judged(&mut self, verdict: Verdict, now: u64) -> Result<(), QualityRefusal>
        ensures answer { result ≡ then_check (time_check self.old now) (judged_check self.old.waiting) }
        ensures log { OnOk result (Does StandsFor self.old (Judged verdict now) self.new) }
        ensures refused { OnErr result (self.new ≡ self.old) }
    {
        if now < self.last {
            return Err(QualityRefusal::TimeGoesBack);
        }
        match self.waiting.pop_front() {
            None => Err(QualityRefusal::NothingWaits),
            Some(sent) => {
                self.last = now;
                self.verdicts.add(verdict);
                self.smoothed = smoothed_by(verdict, self.smoothed, now.saturating_sub(sent));
                Ok(())
            }
        }
    }

    /// The smoothed round trip, once a packet came.
    pub fn round_trip(&self) -> Option<RoundTrip>
        ensures { Answers StandsFor self.now (λ log. smoothed_of (trips_of log)) result }
    {
        self.smoothed
    }

    /// How many were lost of the last `JUDGED_PACKETS` that were judged.
    pub fn losses(&self) -> usize
        ensures { Answers StandsFor self.now losses_of result }
    {
        self.verdicts.lost()
    }
}

// The smoothed round trip once a packet is judged: a lost one tells nothing of it.
fn smoothed_by(verdict: Verdict, smoothed: Option<RoundTrip>, trip: u64) -> Option<RoundTrip>
    requires small { IfSome smoothed IsSmall }
    ensures value { result ≡ smoothed_by verdict smoothed trip }
    ensures small { IfSome result IsSmall }
{
    match verdict {
        Verdict::Received => Some(after_trip(smoothed, trip.min(MAX_ROUND_TRIP))),
        Verdict::Lost => smoothed,
    }
}
