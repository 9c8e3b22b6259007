//! The rule over the words and all views, and what each kind of step tells.
//!
//! There are six kinds: a store, an or, a swap and a load on the words, and a load of word 0 where a seat is made or
//! joined. The rule holds between any two of them.

ghost use Rattle.std.specs.Prelude.{◌≡◌, ◌<◌, ◌^◌};
ghost use Rattle.dirty_lanes.specs.declared.limits.TheConstants.{MAX_LANE_FIELDS};
ghost use Rattle.dirty_lanes.specs.Rule.{RuleHolds, with_write, with_raise, with_drain, with_read, NotBelow, IsOpened, one_less, new_packer, with_packer};

use crate::view::View;
use atomic_table::{Join, Play, Split, TableRule};

/// What the table is told when it is made.
#[derive(Clone, Copy)]
pub struct LaneSize {
    pub objects: u32,
    pub clients: u32,
}

/// The rule of the lanes.
pub struct LaneRule;

impl TableRule<(), View, LaneSize> for LaneRule {
    ghost use Rattle.std.specs.Prelude.{[]};
    ghost use Rattle.dirty_lanes.specs.Rule.{RuleHolds};
    ghost use Rattle.dirty_lanes.specs.declared.view.View.TheVariants.{Sim};

    ghost holds = { λ k s. RuleHolds k.objects s };

    ghost first = { λ k. Sim (record { left = k.clients; joined = []; steps = [] }) };
}

pub(crate) struct Stores;

impl Play<(), View> for Stores {
    ghost then = { λ s me n w. (w.0 ≡ with_write s.word s.first me.0) × (w.1 ≡ me.1) };
}

pub(crate) struct Raises;

impl Play<(), View> for Raises {
    ghost then = { λ s me n w. (w.0 ≡ with_raise s.word s.first me.0) × (w.1 ≡ me.1) };
}

pub(crate) struct Swaps;

impl Play<(), View> for Swaps {
    ghost then = { λ s me n w. (w.0 ≡ with_drain s.word n me.0) × (w.1 ≡ me.1) × (n < 2 ^ MAX_LANE_FIELDS) };
}

pub(crate) struct Loads;

impl Play<(), View> for Loads {
    ghost then = { λ s me n w. (w.0 ≡ with_read s.word n me.0) × (w.1 ≡ me.1) × NotBelow s.word n me.0 × IsOpened n };
}

pub(crate) struct NewPacker;

impl Split<View> for NewPacker {
    ghost left = { one_less };

    ghost right = { new_packer };
}

pub(crate) struct Ends;

impl Join<View> for Ends {
    ghost use Rattle.dirty_lanes.specs.declared.view.View.TheVariants.{Spent};
    ghost use Rattle.dirty_lanes.specs.Rule.{with_packer};

    ghost both = { with_packer };

    ghost spent = { Spent };
}
