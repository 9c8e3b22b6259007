//! Whether a step that the simulation asks for may be made.
ghost use Rattle.std.specs.Prelude.{IsTrue, ◌↔◌};
ghost use Rattle.pair_core.specs.History.{Show, Hide, Near};

use crate::pair::KeptPair;
use tn_types::{MAX_BLOCKS, MAX_DISTANCE_LEVEL, MAX_SHOWS};

impl KeptPair {
    ghost use Rattle.kept_pair.specs.Kept.{MayStep};

    /// Whether a period may begin so.
    pub fn may_show(&self, kind: u8, block: u8, level: u8, control: bool) -> bool
        ensures { IsTrue result ↔ MayStep self.now (Show kind block level control) }
    {
        // what the kept steps make of a new pair
        let _steps = self.steps();
        let conn = self.pair().conn();
        if !conn.has_kind(kind) {
            return false;
        }
        if block as usize >= MAX_BLOCKS {
            return false;
        }
        if level > MAX_DISTANCE_LEVEL {
            return false;
        }
        if conn.is_full() {
            return false;
        }
        if conn.shows() >= MAX_SHOWS {
            return false;
        }
        if !control {
            return true;
        }
        !conn.has_control()
    }

    /// Whether the period may end.
    pub fn may_hide(&self, n: u32) -> bool
        ensures { IsTrue result ↔ MayStep self.now (Hide n) }
    {
        // what the kept steps make of a new pair
        let _steps = self.steps();
        self.pair().conn().is_up(n)
    }

    /// Whether the period's object may be at this level.
    pub fn may_come_near(&self, n: u32, level: u8) -> bool
        ensures { IsTrue result ↔ MayStep self.now (Near n level) }
    {
        // what the kept steps make of a new pair
        let _steps = self.steps();
        self.pair().conn().is_up(n) && level <= MAX_DISTANCE_LEVEL
    }
}
