//! What the periods answer of those that are shown.

ghost use Rattle.std.specs.Prelude.{◌≡◌, ◌≤◌, ◌↔◌, IsTrue};
ghost use Rattle.ghost_model.specs.Scope.{had_control, up_periods};
ghost use Rattle.ghost_scope.specs.Shown.{IsUp, IsAlive, up_count, has_control};
ghost use Rattle.ghost_scope.specs.StandsFor.{Answers};

use crate::Periods;
use crate::entries::{any_control, count_entries};
use tn_types::MAX_SHOWN_PERIODS;

impl Periods {
    /// Whether the period was shown and isn't hidden.
    pub fn is_up(&self, n: u32) -> bool
        ensures { IsTrue result ↔ IsUp self.now n }
    {
        n < self.shown && self.phase(n).is_up()
    }

    /// Whether the period was shown and isn't Gone.
    pub fn is_alive(&self, n: u32) -> bool
        ensures { IsTrue result ↔ IsAlive self.now n }
    {
        n < self.shown && !self.phase(n).is_gone()
    }

    /// How many periods are shown and not hidden.
    pub fn up_count(&self) -> usize
        ensures value { result ≡ up_count self.now }
        ensures told { Answers self.now up_periods result }
    {
        count_entries(self.as_slice())
    }

    /// Whether so many are, that no further one may be shown.
    pub fn is_full(&self) -> bool
        ensures { IsTrue result ↔ (MAX_SHOWN_PERIODS ≤ up_count self.now) }
    {
        self.up_count() >= MAX_SHOWN_PERIODS
    }

    /// Whether a period that is shown and not hidden was shown with control.
    pub fn has_control(&self) -> bool
        ensures value { result ≡ has_control self.now }
        ensures told { Answers self.now had_control result }
    {
        any_control(self.as_slice())
    }
}
