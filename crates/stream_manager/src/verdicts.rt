//! The verdicts that one arrival brought, kept until the next one.
ghost use Rattle.std.specs.Prelude.{◌≡◌, ◌≤◌, [], length, slice_get};
ghost use Rattle.stream_manager.specs.Settling.{AreFew};
ghost use Rattle.stream_manager.specs.Verdicts.{noticed};

use crate::settling::verdict_at;
use notify_window::Notices;
use std::marker::Model;
use tn_types::{MAX_UNJUDGED_PACKETS, Verdict};

/// The packets that one arrival judged, at most 32, in rising order, each with its verdict. No call takes memory.
///
/// A clause sees the list of their numbers and verdicts.
#[derive(Drop)]
pub struct Verdicts {
    notices: Notices,
}

impl Model for Verdicts {
    ghost use Rattle.std.specs.Prelude.{ℕ, List};
    ghost use Rattle.tn_types.specs.declared.choices.Verdict.{Verdict};
    ghost use Rattle.stream_manager.specs.Settling.{AreFew};
    ghost use Rattle.stream_manager.specs.Verdicts.{noticed};

    ghost Value = { List (ℕ × Verdict) };

    ghost view = { λ v. noticed v.notices };

    ghost invariant = { λ v. AreFew v.notices };
}

impl Verdicts {
    /// None.
    pub(crate) fn none() -> Verdicts
        ensures { result ≡ [] }
    {
        Verdicts {
            notices: Notices {
                first: 1,
                count: 0,
                bits: 0,
            },
        }
    }

    /// Those of these notices take the place of what was kept.
    pub(crate) fn keep(&mut self, notices: &Notices)
        requires { AreFew notices.now }
        ensures { self.new ≡ noticed notices.now }
    {
        self.notices = *notices;
    }

    /// How many packets were judged.
    pub fn count(&self) -> u32
        ensures value { result ≡ length self.now }
        ensures few { result ≤ MAX_UNJUDGED_PACKETS }
    {
        self.notices.count
    }

    /// The packet at a place and its verdict, the least number at place 0; `None` exactly where there are not so many.
    pub fn get(&self, place: u32) -> Option<(u32, Verdict)>
        ensures { result ≡ slice_get self.now place }
    {
        if place >= self.notices.count {
            return None;
        }
        Some((
            self.notices.first + place,
            verdict_at(self.notices.bits, place),
        ))
    }
}
