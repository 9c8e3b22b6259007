//! What a scan tells a client's server: which periods end, which come nearer or go away, and what begins.
ghost use Rattle.std.specs.Prelude.{◌≡◌, List, []};
ghost use Rattle.own_lists.specs.Course.{scan_steps, hide_step, near_step, show_step, with_steps};

use crate::seat::Seat;
use client_scope::Near;
use own_lists::Showing;
use own_lists::pair_core::PairStep;

impl Seat {
    ghost use Rattle.std.specs.Prelude.{map};
    ghost use Rattle.client_seat.specs.Stands.{MayMake, Becomes};

    // These periods end.
    fn hide_all(&mut self, hides: &[u32])
        requires { MayMake self.old (map hide_step hides.now) }
        ensures stands { Becomes self.old (λ t k. with_steps (map hide_step hides.now) k) self.new }
        ensures keeping { self.new.pair.keeps_all ≡ self.old.pair.keeps_all }
    {
        for n in hides {
            self.pair.step(&PairStep::Hide { n: *n });
        }
    }

    // The objects of these periods are at other levels.
    fn near_all(&mut self, nears: &[Near])
        requires { MayMake self.old (map near_step nears.now) }
        ensures stands { Becomes self.old (λ t k. with_steps (map near_step nears.now) k) self.new }
        ensures keeping { self.new.pair.keeps_all ≡ self.old.pair.keeps_all }
    {
        for near in nears {
            self.pair.step(&PairStep::Near {
                n: near.n,
                level: near.level,
            });
        }
    }

    // Periods begin.
    fn show_all(&mut self, shows: &[Showing])
        requires { MayMake self.old (map show_step shows.now) }
        ensures stands { Becomes self.old (λ t k. with_steps (map show_step shows.now) k) self.new }
        ensures keeping { self.new.pair.keeps_all ≡ self.old.pair.keeps_all }
    {
        for show in shows {
            self.pair.step(&PairStep::Show {
                kind: show.kind,
                block: show.block,
                level: show.level,
                control: show.control,
            });
        }
    }

    /// The scope of the client is brought up to date: first these periods end, then these are at their new levels, and then a
    /// period begins for each of `shows`. Each of these steps has to be one that may be made after those before it.
    pub fn scan(&mut self, hides: &[u32], nears: &[Near], shows: &[Showing])
        requires { MayMake self.old (scan_steps hides.now nears.now shows.now) }
        ensures stands { Becomes self.old (λ t k. with_steps (scan_steps hides.now nears.now shows.now) k) self.new }
        ensures keeping { self.new.pair.keeps_all ≡ self.old.pair.keeps_all }
    {
        self.hide_all(hides);
        self.near_all(nears);
        self.show_all(shows);
    }
}
