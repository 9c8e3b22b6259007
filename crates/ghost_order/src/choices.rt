//! A list of choices in memory that is taken once.

ghost use Rattle.std.specs.Prelude.{◌≡◌, ◌<◌, ◌≤◌, ◌++◌, ◌∷◌, [], length, map, take, IfOk};
ghost use Rattle.ghost_order.specs.Ranks.{choice_of, keyed};

use crate::numbers::Numbers;
use crate::ranking::Ranked;
use std::alloc::Global;
use std::marker::Model;
use tn_types::{Choice, MAX_SLOTS, NoMemory, Op};

/// What stands in a place where there is no choice.
pub(crate) fn no_choice() -> Choice {
    Choice {
        n: 0,
        slot: 0,
        op: Op::Kill,
        mask: 0,
    }
}

/// At most two choices for each slot: a kill and a create have room.
#[derive(Drop)]
pub struct Choices {
    // of all places the first `count` are the list
    items: Vec<Choice>,
    count: usize,
}

impl Model for Choices {
    ghost use Rattle.std.specs.Prelude.{List, ◌≡◌, ◌≤◌, ◌*◌, length, take};
    ghost use Rattle.tn_types.specs.declared.limits.TheConstants.{MAX_SLOTS};
    ghost use Rattle.tn_types.specs.declared.choices.Choice.{Choice};

    ghost Value = { List Choice };

    ghost view = { λ c. take c.count c.items.items };

    ghost invariant = { λ c. (length c.items.items ≡ 2 * MAX_SLOTS) × (c.count ≤ 2 * MAX_SLOTS) };
}

impl Choices {
    /// The most choices of a list.
    pub const CAPACITY: usize = 2 * MAX_SLOTS;

    /// No choice. No later call takes memory.
    pub fn new(alloc: Global) -> Result<Choices, NoMemory>
        ensures { IfOk result (λ c. c ≡ []) }
    {
        match vec![in alloc; no_choice(); Choices::CAPACITY] {
            Ok(items) => Ok(Choices { items, count: 0 }),
            Err(_) => Err(NoMemory),
        }
    }

    /// Adds a choice at the end.
    pub fn push(&mut self, choice: Choice)
        requires { length self.old < Self.CAPACITY }
        ensures { self.new ≡ self.old ++ choice ∷ [] }
    {
        self.items[self.count] = choice;
        self.count += 1;
    }

    /// Adds the choices of the slots that are the last eight bits of the numbers, in their order, up to `most` choices.
    pub(crate) fn append(&mut self, numbers: &Numbers, items: &[Ranked], most: usize)
        requires items { length items.now ≡ MAX_SLOTS }
        requires room { length self.old ≤ most }
        requires most { most ≤ Self.CAPACITY }
        ensures { self.new ≡ take most (self.old ++ map (λ n. choice_of (keyed items.now n)) numbers.now) }
    {
        self.count = numbers.append_to(items, most, self.items.as_mut_slice(), self.count);
    }

    /// Keeps the first `count`.
    pub fn truncate(&mut self, count: usize)
        ensures { self.new ≡ take count self.old }
    {
        if count < self.count {
            self.count = count;
        }
    }

    /// The choices, in order.
    pub fn as_slice(&self) -> &[Choice]
        ensures { result.now ≡ self.now }
    {
        &self.items[0..self.count]
    }
}
