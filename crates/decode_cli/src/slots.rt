//! The kinds that the slots of a client hold, each one of the kinds of a match.
ghost use Rattle.std.specs.Prelude.{◌≡◌};
ghost use Rattle.world_rules.specs.Kinds.{match_kinds};
ghost use Rattle.wire_format.specs.Ghosts.{held_in, AreOfTable};

use packet_text::packet_parts::{Part, PartName};
use std::marker::Model;
use wire_format::HeldKinds;

/// How many kinds a match has.
const KINDS: u32 = 6;
/// The op of a kill.
const KILL: u32 = 0;

/// For each slot the kind that it holds, if any.
#[derive(Drop)]
pub(crate) struct Slots {
    held: HeldKinds,
}

impl Model for Slots {
    ghost use Rattle.std.specs.Prelude.{ℕ, List, Option};
    ghost use Rattle.world_rules.specs.Kinds.{match_kinds};
    ghost use Rattle.wire_format.specs.Ghosts.{held_in, AreOfTable};

    ghost Value = { List (Option ℕ) };

    ghost view = { λ s. s.held };

    ghost invariant = { λ s. AreOfTable match_kinds (held_in s.held) };
}

impl Slots {
    /// No slot holds a kind.
    #[tactic(auto, using(crate::proofs::Held::none_of_table))]
    pub(crate) fn new() -> Slots {
        Slots {
            held: HeldKinds::new(),
        }
    }

    /// Says which kind a slot holds; false where there is no such kind.
    #[tactic(auto, using(crate::proofs::Held::set_of_table))]
    pub(crate) fn put(&mut self, slot: u8, kind: u32) -> bool {
        if kind >= KINDS {
            return false;
        }
        self.held.set(slot, Some(kind as u8));
        true
    }

    /// Says that a slot holds none.
    #[tactic(auto, using(crate::proofs::Held::clear_of_table))]
    pub(crate) fn clear(&mut self, slot: u8) {
        self.held.set(slot, None);
    }

    /// The kinds, lent.
    pub(crate) fn held(&self) -> &HeldKinds
        ensures value { result.now ≡ self.now }
        ensures table { AreOfTable match_kinds (held_in result.now) }
    {
        &self.held
    }

    /// What the slots hold after a packet of these parts.
    pub(crate) fn follow(&mut self, parts: &[Part]) {
        let mut slot = 0;
        for part in parts {
            match part.name {
                PartName::Slot => slot = part.value,
                PartName::Op => {
                    if part.value == KILL {
                        self.clear((slot % 256) as u8);
                    }
                }
                PartName::GhostKind => {
                    self.put((slot % 256) as u8, part.value);
                }
                _ => {}
            }
        }
    }
}
