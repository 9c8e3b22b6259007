//! What may go now.
ghost use Rattle.std.specs.Prelude.{◌≡◌, ◌≤◌, ◌<◌, ◌-◌, ◌*◌, ◌/◌, ◌↔◌, [], IfOk, OnOk, OnErr, IsErr, IfSome, IsSome, IsNone, IsTrue};
ghost use Rattle.tn_types.specs.Histories.{Does, Answers};
ghost use Rattle.pace.specs.Rates.{AreTerms};
ghost use Rattle.pace.specs.Pacing.{IsBetween, pacing_from};

use crate::rate::{
    PaceTerms, THOUSANDTHS, are_terms, eased, raised, saved_up, wait_for, whole_bytes,
};
use std::marker::Model;

/// What is refused. Nothing changed.
#[derive(Clone, Copy, Debug, PartialEq, Eq)]
pub enum PaceRefusal {
    /// A later time was told before.
    TimeGoesBack,
}

/// A pace's numbers, for callers that keep it themselves.
#[repr(C)]
#[derive(Clone, Copy)]
pub struct PaceParts {
    pub terms: PaceTerms,
    /// When it began.
    pub start: u64,
    /// The rate, in bytes a second.
    pub rate: u32,
    /// What is saved up, in thousandths of a byte.
    pub saved: u64,
    /// The time that was told last.
    pub last: u64,
    /// When a loss lowered the rate last.
    pub eased: u64,
}

// Whether a pace may have these numbers.
fn are_between(parts: PaceParts) -> bool
    ensures { IsTrue result ↔ IsBetween (pacing_from parts) }
{
    if !are_terms(parts.terms) || parts.rate < parts.terms.least || parts.terms.most < parts.rate {
        return false;
    }
    parts.saved <= parts.terms.burst as u64 * THOUSANDTHS
}

/// How many bytes the next datagram should have: a rate that each packet that came raises by a step, and that a loss lowers by a quarter, at most
/// once in a round trip. No call takes memory.
///
/// A clause sees `Pacing`, and what it means by the list of what was told. The rules are in docs/pace.md.
#[derive(Drop)]
pub struct Pace {
    terms: PaceTerms,
    start: u64,
    rate: u32,
    saved: u64,
    last: u64,
    eased: u64,
}

impl Model for Pace {
    ghost use Rattle.pace.specs.Pacing.{Pacing, IsBetween};

    ghost Value = { Pacing };

    ghost use Rattle.pace.specs.View.{pacing_of};

    ghost view = { pacing_of };

    ghost invariant = { λ p. IsBetween (pacing_of p) };
}

impl Pace {
    ghost use Rattle.pace.specs.Pacing.{Came, WasLost, Went, StandsFor, rate_of, allowed_at, time_check};
    ghost use Rattle.pace.specs.Waiting.{IsWaitOf};

    /// At the beginning: the least rate, and all saved up that may be. `now` is the caller's time in milliseconds.
    pub fn new(terms: PaceTerms, now: u64) -> Pace
        requires terms { AreTerms terms }
        ensures log { StandsFor result [] }
        ensures terms { (result.terms ≡ terms) × (result.start ≡ now) }
    {
        Pace {
            terms,
            start: now,
            rate: terms.least,
            saved: terms.burst as u64 * THOUSANDTHS,
            last: now,
            eased: now,
        }
    }

    /// The pace of these numbers: `None` exactly if none has them.
    pub fn of_parts(parts: PaceParts) -> Option<Pace>
        ensures some { IsSome result ↔ IsBetween (pacing_from parts) }
        ensures value { IfSome result (λ p. p ≡ pacing_from parts) }
    {
        if are_between(parts) {
            return Some(Pace {
                terms: parts.terms,
                start: parts.start,
                rate: parts.rate,
                saved: parts.saved,
                last: parts.last,
                eased: parts.eased,
            });
        }
        None
    }

    /// Its numbers.
    pub fn parts(&self) -> PaceParts
        ensures { pacing_from result ≡ self.now }
    {
        PaceParts {
            terms: self.terms,
            start: self.start,
            rate: self.rate,
            saved: self.saved,
            last: self.last,
            eased: self.eased,
        }
    }

    /// A packet is known to have come. Refused exactly as `TimeGoesBack`.
    #[tactic(auto, using(crate::proofs::PaceFacts::came_more))]
    pub fn came(&mut self, now: u64) -> Result<(), PaceRefusal>
        ensures answer { result ≡ time_check self.old now }
        ensures log { OnOk result (Does StandsFor self.old (Came now) self.new) }
        ensures refused { OnErr result (self.new ≡ self.old) }
    {
        if now < self.last {
            return Err(PaceRefusal::TimeGoesBack);
        }
        self.saved = saved_up(self.terms, self.saved, self.rate, now - self.last);
        self.rate = raised(self.terms, self.rate);
        self.last = now;
        Ok(())
    }

    /// A packet is known to be lost, while a round trip takes so many milliseconds. Refused exactly as `TimeGoesBack`.
    #[tactic(auto, using(crate::proofs::PaceFacts::lost_eases, crate::proofs::PaceFacts::lost_stays))]
    pub fn lost(&mut self, round_trip: u64, now: u64) -> Result<(), PaceRefusal>
        ensures answer { result ≡ time_check self.old now }
        ensures log { OnOk result (Does StandsFor self.old (WasLost now round_trip) self.new) }
        ensures refused { OnErr result (self.new ≡ self.old) }
    {
        if now < self.last {
            return Err(PaceRefusal::TimeGoesBack);
        }
        self.saved = saved_up(self.terms, self.saved, self.rate, now - self.last);
        self.last = now;
        if round_trip <= now.saturating_sub(self.eased) {
            self.rate = eased(self.terms, self.rate);
            self.eased = now;
        }
        Ok(())
    }

    /// A datagram of so many bytes went. Refused exactly as `TimeGoesBack`.
    #[tactic(auto, using(crate::proofs::PaceFacts::went_more))]
    pub fn went(&mut self, bytes: u32, now: u64) -> Result<(), PaceRefusal>
        ensures answer { result ≡ time_check self.old now }
        ensures log { OnOk result (Does StandsFor self.old (Went bytes now) self.new) }
        ensures refused { OnErr result (self.new ≡ self.old) }
    {
        if now < self.last {
            return Err(PaceRefusal::TimeGoesBack);
        }
        let saved = saved_up(self.terms, self.saved, self.rate, now - self.last);
        self.saved = saved.saturating_sub(bytes as u64 * THOUSANDTHS);
        self.last = now;
        Ok(())
    }

    /// How many bytes a datagram may have now. Refused exactly as `TimeGoesBack`.
    #[tactic(auto, using(crate::proofs::PaceFacts::allowed_now))]
    pub fn allowed(&self, now: u64) -> Result<u32, PaceRefusal>
        ensures answer { IsErr result ↔ (now < self.now.last) }
        ensures told { IfOk result (Answers StandsFor self.now (λ log. allowed_at self.now.terms self.now.start log now)) }
    {
        if now < self.last {
            return Err(PaceRefusal::TimeGoesBack);
        }
        let saved = saved_up(self.terms, self.saved, self.rate, now - self.last);
        Ok(whole_bytes(saved, self.terms.burst))
    }

    /// The rate, in bytes a second.
    pub fn rate(&self) -> u32
        ensures told { Answers StandsFor self.now (rate_of self.now.terms self.now.start) result }
        ensures least { self.now.terms.least ≤ result }
        ensures most { result ≤ self.now.terms.most }
    {
        self.rate
    }

    /// In how many milliseconds a datagram of so many bytes may go, if nothing is told until then; `None` exactly where it has more bytes than
    /// may be saved up. Refused exactly as `TimeGoesBack`.
    #[tactic(auto, using(crate::proofs::Waits::waits))]
    pub fn wait(&self, bytes: u32, now: u64) -> Result<Option<u64>, PaceRefusal>
        ensures answer { IsErr result ↔ (now < self.now.last) }
        ensures none { IfOk result (λ w. IsNone w ↔ (self.now.terms.burst < bytes)) }
        ensures told { IfOk result (λ w. IfSome w (λ ms. IsWaitOf self.now bytes now ms)) }
    {
        if now < self.last {
            return Err(PaceRefusal::TimeGoesBack);
        }
        if bytes > self.terms.burst {
            return Ok(None);
        }
        let saved = saved_up(self.terms, self.saved, self.rate, now - self.last);
        Ok(Some(wait_for(bytes, saved, self.rate)))
    }
}
