//! How much goes one way in a second.
ghost use Rattle.std.specs.Prelude.{◌≡◌, ◌<◌, ◌≤◌, ◌/◌, ◌↔◌, [], IfOk, OnOk, OnErr, IsErr};
ghost use Rattle.tn_types.specs.Histories.{Does, Answers};
ghost use Rattle.link_quality.specs.Traffic.{no_traffic, with_datagram, current_at, before_at};

use std::marker::Model;

/// Milliseconds of a second.
pub const SECOND: u64 = 1_000;

/// How much went in a second: each count stays at 4,294,967,295 where more did.
#[repr(C)]
#[derive(Clone, Copy, Debug, PartialEq, Eq)]
pub struct Traffic {
    /// How many datagrams.
    pub datagrams: u32,
    /// How many bytes they have.
    pub bytes: u32,
}

/// A meter's numbers, for callers that keep it themselves.
#[repr(C)]
#[derive(Clone, Copy)]
pub struct MeterParts {
    /// The second of the last datagram that was told.
    pub second: u64,
    /// What went in it so far.
    pub current: Traffic,
    /// What went in the second before it.
    pub before: Traffic,
}

/// What a meter refuses. Nothing changed.
#[derive(Clone, Copy, Debug, PartialEq, Eq)]
pub enum MeterRefusal {
    /// A time of a later second was told before.
    SecondIsPast,
}

/// What goes one way. The caller's clock has seconds of 1,000 milliseconds, the first one from 0 on; what is told is how much went in the whole
/// second before. No call takes memory.
///
/// A clause sees `Meter`, and what it means by the list of the datagrams. The rules are in docs/pace.md.
#[derive(Drop)]
pub struct TrafficMeter {
    second: u64,
    current: Traffic,
    before: Traffic,
}

impl Model for TrafficMeter {
    ghost use Rattle.link_quality.specs.Traffic.{Meter};

    ghost Value = { Meter };

    ghost view = { λ m. record { second = m.second; current = m.current; before = m.before } };
}

fn no_traffic() -> Traffic
    ensures { result ≡ no_traffic }
{
    Traffic {
        datagrams: 0,
        bytes: 0,
    }
}

fn with_datagram(traffic: Traffic, bytes: u32) -> Traffic
    ensures { result ≡ with_datagram traffic bytes }
{
    Traffic {
        datagrams: traffic.datagrams.saturating_add(1),
        bytes: traffic.bytes.saturating_add(bytes),
    }
}

impl TrafficMeter {
    ghost use Rattle.link_quality.specs.Traffic.{Datagram, StandsFor, second_check, traffic_before, meter_from};

    /// Nothing went yet.
    pub fn new() -> TrafficMeter
        ensures { StandsFor result [] }
    {
        TrafficMeter {
            second: 0,
            current: no_traffic(),
            before: no_traffic(),
        }
    }

    /// The meter of these numbers.
    pub fn of_parts(parts: MeterParts) -> TrafficMeter
        ensures { result ≡ meter_from parts }
    {
        TrafficMeter {
            second: parts.second,
            current: parts.current,
            before: parts.before,
        }
    }

    /// Its numbers.
    pub fn parts(&self) -> MeterParts
        ensures { meter_from result ≡ self.now }
    {
        MeterParts {
            second: self.second,
            current: self.current,
            before: self.before,
        }
    }

    /// A datagram of so many bytes went at this time, in milliseconds. Refused exactly as `SecondIsPast`.
    #[tactic(auto, using(crate::proofs::Meters::one_more))]
    pub fn went(&mut self, bytes: u32, now: u64) -> Result<(), MeterRefusal>
        ensures answer { result ≡ second_check self.old (now / SECOND) }
        ensures log { OnOk result (Does StandsFor self.old (record { bytes = bytes; time = now }) self.new) }
        ensures refused { OnErr result (self.new ≡ self.old) }
    {
        let second = now / SECOND;
        if second < self.second {
            return Err(MeterRefusal::SecondIsPast);
        }
        let before = self.before_at(second);
        let current = self.current_at(second);
        self.before = before;
        self.current = with_datagram(current, bytes);
        self.second = second;
        Ok(())
    }

    /// How much went in the whole second before this time's. Refused exactly as `SecondIsPast`.
    #[tactic(auto, using(crate::proofs::Meters::told_before))]
    pub fn in_last_second(&self, now: u64) -> Result<Traffic, MeterRefusal>
        ensures answer { IsErr result ↔ (now / SECOND < self.now.second) }
        ensures told { IfOk result (Answers StandsFor self.now (traffic_before (now / SECOND))) }
    {
        let second = now / SECOND;
        if second < self.second {
            return Err(MeterRefusal::SecondIsPast);
        }
        Ok(self.before_at(second))
    }

    // What went in a second that is not past, and in the one before it.
    fn current_at(&self, second: u64) -> Traffic
        requires on { self.now.second ≤ second }
        ensures value { result ≡ current_at self.now second }
    {
        if second == self.second {
            self.current
        } else {
            no_traffic()
        }
    }

    fn before_at(&self, second: u64) -> Traffic
        requires on { self.now.second ≤ second }
        ensures value { result ≡ before_at self.now second }
    {
        if second == self.second {
            return self.before;
        }
        if second - self.second == 1 {
            self.current
        } else {
            no_traffic()
        }
    }
}
