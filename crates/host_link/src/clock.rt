//! The system's clock, which sees when turns are late and when the next line of counts is due.
ghost use Rattle.std.specs.Prelude.{◌≡◌, None};

use crate::counters::Counters;
use net_rules::TURN_MILLISECONDS;
use std::io::Eprint;
use std::time::Clock as SystemTimes;
use tn_outside::{Clock, Failed, SystemClock};

/// A turn that begins so much after its time is late, in milliseconds.
const LATE_MILLISECONDS: u64 = 10;

/// Between two lines of counts, in milliseconds.
const TOLD_MILLISECONDS: u64 = 10_000;

/// The system's clock for a match that is hosted. It tells no answers.
#[derive(Drop)]
pub struct HostClock<'a, R: SystemTimes> {
    clock: SystemClock<'a, R>,
    rt: &'a R,
    counters: &'a Counters,
    // the start of the match
    start: Option<u64>,
    // when the next turn is due, since the start
    due: u64,
    // when the next line of counts is due, since the start
    line: u64,
}

impl<'a, R: SystemTimes + Eprint> HostClock<'a, R> {
    /// A clock that starts now. Fails where the system has none.
    pub fn new(rt: &'a R, counters: &'a Counters) -> Result<HostClock<'a, R>, Failed> {
        let clock = SystemClock::new(rt)?;
        Ok(HostClock {
            clock,
            rt,
            counters,
            start: None,
            due: 0,
            line: TOLD_MILLISECONDS,
        })
    }

    // A turn begins at each answer after its time.
    fn note_turn(&mut self, passed: u64)
        ensures { self.new.clock ≡ self.old.clock }
    {
        if passed >= self.due {
            if passed - self.due > LATE_MILLISECONDS {
                self.counters.note_late();
            }
            self.due = self.due.saturating_add(TURN_MILLISECONDS);
        }
    }

    fn note_line(&mut self, passed: u64)
        ensures { self.new.clock ≡ self.old.clock }
    {
        if passed >= self.line {
            let counters = self.counters;
            let seconds = passed / 1_000;
            // Where standard error is closed, nobody reads it.
            let _ = eprintln!(self.rt; "{seconds} s {counters}");
            self.line = self.line.saturating_add(TOLD_MILLISECONDS);
        }
    }

    fn note(&mut self, now: u64)
        ensures { self.new.clock ≡ self.old.clock }
    {
        match self.start {
            Some(start) => {
                let passed = now.saturating_sub(start);
                self.note_turn(passed);
                self.note_line(passed);
            }
            None => self.start = Some(now),
        }
    }
}

impl<R: SystemTimes + Eprint> Clock for HostClock<'_, R> {
    ghost ahead = { λ _. None };

    ghost faults = { λ c. c.clock.faults };

    fn now(&mut self) -> Result<u64, Failed> {
        let now = self.clock.now()?;
        self.note(now);
        Ok(now)
    }
}
