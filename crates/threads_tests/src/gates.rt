//! Gates that hold activities.

use race_run::{Actor, Gate, Place};
use std::sync::atomic::{AtomicBool, AtomicU64, Ordering};
use std::thread::sleep;
use std::time::{Clock, Duration};

// A turn of a wait in microseconds, and how many there are before it is given up.
const TURN_MICROS: u64 = 100;

const TURNS: u32 = 100_000;

/// Holds each line until the one before it was done. One line, if it is named, is held only until the simulation is inside a tick, where
/// the simulation is held until that line was done.
#[derive(Drop)]
pub(crate) struct LineGate<'a, C: Clock> {
    clock: &'a C,
    // the line that is done inside the tick
    within: Option<u32>,
    // so many lines were done, in order
    done: AtomicU64,
    inside: AtomicBool,
    // a wait was given up
    gave_up: AtomicBool,
}

impl<'a, C: Clock> LineGate<'a, C> {
    pub(crate) fn new(clock: &'a C, within: Option<u32>) -> LineGate<'a, C> {
        LineGate {
            clock,
            within,
            done: AtomicU64::new(0),
            inside: AtomicBool::new(false),
            gave_up: AtomicBool::new(false),
        }
    }

    // Whether somebody waited too long.
    pub(crate) fn gave_up(&self) -> bool {
        self.gave_up.load(Ordering::SeqCst)
    }

    // Waits until so many lines were done.
    fn wait_for(&self, lines: u64) {
        for _ in 0..TURNS {
            if self.done.load(Ordering::SeqCst) >= lines {
                return;
            }
            sleep(self.clock, Duration::from_micros(TURN_MICROS));
        }
        self.gave_up.store(true, Ordering::SeqCst);
    }

    // Waits until the simulation is inside the tick.
    fn wait_inside(&self) {
        for _ in 0..TURNS {
            if self.inside.load(Ordering::SeqCst) {
                return;
            }
            sleep(self.clock, Duration::from_micros(TURN_MICROS));
        }
        self.gave_up.store(true, Ordering::SeqCst);
    }
}

impl<'a, C: Clock> Gate for LineGate<'a, C> {
    fn pass(&self, _actor: Actor, place: Place) {
        match place {
            Place::Before(line) => {
                if self.within == Some(line) {
                    self.wait_inside();
                } else {
                    self.wait_for(u64::from(line));
                }
            }
            Place::Inside(_) => {
                if let Some(line) = self.within {
                    self.inside.store(true, Ordering::SeqCst);
                    self.wait_for(u64::from(line));
                }
            }
            Place::After(_) => {
                self.done.fetch_add(1, Ordering::SeqCst);
            }
        }
    }
}

/// Holds nobody, and notes whether a packer was at work while the simulation was.
#[derive(Drop)]
pub(crate) struct WatchGate {
    simulates: AtomicBool,
    saw_both: AtomicBool,
}

impl WatchGate {
    pub(crate) fn new() -> WatchGate {
        WatchGate {
            simulates: AtomicBool::new(false),
            saw_both: AtomicBool::new(false),
        }
    }

    // Whether a packer came to a line, or left it, between two ends of a line of the simulation.
    pub(crate) fn saw_both(&self) -> bool {
        self.saw_both.load(Ordering::SeqCst)
    }
}

impl Gate for WatchGate {
    fn pass(&self, actor: Actor, place: Place) {
        match (actor, place) {
            (Actor::Sim, Place::Before(_)) => self.simulates.store(true, Ordering::SeqCst),
            (Actor::Sim, Place::After(_)) => self.simulates.store(false, Ordering::SeqCst),
            (Actor::Packer(_), _) => {
                if self.simulates.load(Ordering::SeqCst) {
                    self.saw_both.store(true, Ordering::SeqCst);
                }
            }
            _ => {}
        }
    }
}
