//! The clock: packets that come, and the moment that is drawn.
ghost use Rattle.std.specs.Prelude.{◌≡◌, ◌≤◌, ◌<◌, ◌+◌, ◌^◌, ◌*◌, ◌/◌, [], IfOk, IfSome, IsSome, OnOk, OnErr, IsTrue, ◌↔◌};
ghost use Rattle.tn_types.specs.Histories.{Does};
ghost use Rattle.tn_types.specs.Checks.{then_check};
ghost use Rattle.draw_clock.specs.Clocking.{bound_of, target_of, gone_to, IsBounded, clock_from};

use crate::pace::{FINE, distance, followed};
use std::marker::Model;
use tn_types::MAX_LIFE;

/// The greatest time, in milliseconds.
pub const MAX_TIME: u64 = 70_368_744_177_664;

/// The clock's units to a moment of a timeline.
pub const FINE_OF_MOMENT: u64 = 256;

/// How a clock goes.
#[repr(C)]
#[derive(Clone, Copy)]
pub struct Pace {
    /// Milliseconds from one packet of the server to the next, not 0.
    pub period: u32,
    /// How many packets the moment that is drawn lies behind the last one.
    pub delay: u16,
    /// How many packets the moment may be ahead of the last one that came.
    pub ahead: u16,
}

/// What a clock refuses. Nothing changed.
#[derive(Clone, Copy, Debug, PartialEq, Eq)]
pub enum ClockRefusal {
    /// The time is above `MAX_TIME`.
    NoTime,
    /// A later time was told before.
    TimeGoesBack,
    /// No packet has this number: it is above 16,777,215.
    NoPacket,
    /// A packet of this or a higher number came before.
    NotNewer,
}

/// A clock's numbers, for callers that keep it themselves.
#[repr(C)]
#[derive(Clone, Copy)]
pub struct ClockParts {
    pub pace: Pace,
    /// When it began.
    pub start: u64,
    /// The packet that came last, 0 if none did, and when.
    pub newest: u32,
    pub came: u64,
    /// When it was read last, and where it is, in its own units.
    pub read: u64,
    pub position: u64,
}

/// Which moment is drawn. No call takes memory.
///
/// A clause sees `Clock`, and what it means by the list of what came and was read.
#[derive(Drop)]
pub struct DrawClock {
    pace: Pace,
    start: u64,
    newest: u32,
    came: u64,
    read: u64,
    position: u64,
}

impl Model for DrawClock {
    ghost use Rattle.draw_clock.specs.Clocking.{Clock, IsBounded};

    ghost Value = { Clock };

    ghost use Rattle.draw_clock.specs.View.{clock_of};

    ghost view = { clock_of };

    ghost invariant = { λ c. IsBounded (clock_of c) };
}

impl DrawClock {
    ghost use Rattle.draw_clock.specs.Clocking.{Came, Read, StandsFor, time_check, packet_check, bound_of, then_ok};

    /// A clock at the beginning, before any packet came. `now` is the caller's time in milliseconds.
    pub fn new(pace: Pace, now: u64) -> DrawClock
        requires period { 0 < pace.period }
        requires time { now ≤ MAX_TIME }
        ensures log { StandsFor result [] }
        ensures pace { (result.pace ≡ pace) × (result.start ≡ now) }
    {
        DrawClock {
            pace,
            start: now,
            newest: 0,
            came: now,
            read: now,
            position: 0,
        }
    }

    /// The clock of these numbers: `None` exactly if no clock has them.
    pub fn of_parts(parts: ClockParts) -> Option<DrawClock>
        ensures some { IsSome result ↔ IsBounded (clock_from parts) }
        ensures value { IfSome result (λ c. c ≡ clock_from parts) }
    {
        let bounded = are_bounded(parts);
        if bounded {
            return Some(DrawClock {
                pace: parts.pace,
                start: parts.start,
                newest: parts.newest,
                came: parts.came,
                read: parts.read,
                position: parts.position,
            });
        }
        None
    }

    /// Its numbers.
    pub fn parts(&self) -> ClockParts
        ensures { clock_from result ≡ self.now }
    {
        ClockParts {
            pace: self.pace,
            start: self.start,
            newest: self.newest,
            came: self.came,
            read: self.read,
            position: self.position,
        }
    }

    /// A data packet came. Refused as the first that holds of `NoTime`, `TimeGoesBack`, `NoPacket` and `NotNewer`.
    #[tactic(auto, using(crate::proofs::ClockFacts::came_more, crate::proofs::ClockFacts::second_check, crate::proofs::ClockFacts::first_refuses))]
    pub fn came(&mut self, packet: u32, now: u64) -> Result<(), ClockRefusal>
        ensures answer { result ≡ then_check (time_check self.old now) (packet_check self.old packet) }
        ensures log { OnOk result (Does StandsFor self.old (Came packet now) self.new) }
        ensures pace { (self.new.pace ≡ self.old.pace) × (self.new.start ≡ self.old.start) }
        ensures stays { self.new.position ≡ self.old.position }
        ensures refused { OnErr result (self.new ≡ self.old) }
    {
        if let Err(refusal) = self.checked(now) {
            return Err(refusal);
        }
        if MAX_LIFE < packet {
            return Err(ClockRefusal::NoPacket);
        }
        if packet <= self.newest {
            return Err(ClockRefusal::NotNewer);
        }
        self.newest = packet;
        self.came = now;
        Ok(())
    }

    /// The moment to draw at this time, `MOMENTS` of a timeline to a packet. Refused as `NoTime`, else as `TimeGoesBack`.
    #[tactic(auto, using(crate::proofs::ClockFacts::read_more))]
    pub fn moment(&mut self, now: u64) -> Result<u64, ClockRefusal>
        ensures answer { result ≡ then_ok (time_check self.old now) (self.new.position / FINE_OF_MOMENT) }
        ensures log { OnOk result (Does StandsFor self.old (Read now) self.new) }
        ensures pace { (self.new.pace ≡ self.old.pace) × (self.new.start ≡ self.old.start) }
        ensures never_back { self.old.position ≤ self.new.position }
        ensures bound { self.new.position ≤ bound_of self.new.pace self.new.newest }
        ensures refused { OnErr result (self.new ≡ self.old) }
    {
        if let Err(refusal) = self.checked(now) {
            return Err(refusal);
        }
        let since = now - self.came;
        let elapsed = now - self.read;
        self.position = gone(self.pace, self.newest, since, elapsed, self.position);
        self.read = now;
        Ok(self.position / FINE_OF_MOMENT)
    }

    // What is refused of a time.
    fn checked(&self, now: u64) -> Result<(), ClockRefusal>
        ensures { result ≡ time_check self.now now }
    {
        if MAX_TIME < now {
            return Err(ClockRefusal::NoTime);
        }
        if now < self.came || now < self.read {
            return Err(ClockRefusal::TimeGoesBack);
        }
        Ok(())
    }
}

// Whether a clock may have these numbers.
fn are_bounded(parts: ClockParts) -> bool
    ensures { IsTrue result ↔ IsBounded (clock_from parts) }
{
    if parts.pace.period == 0
        || MAX_LIFE < parts.newest
        || MAX_TIME < parts.came
        || MAX_TIME < parts.read
    {
        return false;
    }
    parts.position <= bound(parts.pace, parts.newest)
}

// As far as the clock may go.
fn bound(pace: Pace, newest: u32) -> u64
    requires newest { newest ≤ MAX_LIFE }
    requires ahead { pace.ahead ≤ 65535 }
    ensures value { result ≡ bound_of pace newest }
    ensures small { result ≤ 2 ^ 50 }
{
    if newest <= pace.delay as u32 {
        return 0;
    }
    (newest as u64 + pace.ahead as u64) * FINE
}

// Where the clock is to be so long after the last packet.
fn target(pace: Pace, newest: u32, since: u64) -> u64
    requires newest { newest ≤ MAX_LIFE }
    requires period { 0 < pace.period }
    requires since { since ≤ MAX_TIME }
    ensures value { result ≡ target_of pace newest since }
    ensures small { result ≤ 2 ^ 62 + 2 ^ 50 }
{
    let told = newest as u64 * FINE + distance(since, pace.period);
    told.saturating_sub(pace.delay as u64 * FINE)
}

// Where the clock goes from its place.
fn gone(pace: Pace, newest: u32, since: u64, elapsed: u64, at: u64) -> u64
    requires newest { newest ≤ MAX_LIFE }
    requires ahead { pace.ahead ≤ 65535 }
    requires period { 0 < pace.period }
    requires since { since ≤ MAX_TIME }
    requires elapsed { elapsed ≤ MAX_TIME }
    requires bound { at ≤ bound_of pace newest }
    ensures value { result ≡ gone_to pace newest since elapsed at }
    ensures on { at ≤ result }
    ensures within { result ≤ bound_of pace newest }
{
    let bound = bound(pace, newest);
    let target = target(pace, newest, since);
    let step = distance(elapsed, pace.period);
    let second = distance(1000, pace.period);
    let next = followed(at, step, target, second);
    bound.min(next)
}
