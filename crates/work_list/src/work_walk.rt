//! A walk over the slots that have work.

ghost use Rattle.std.specs.Prelude.{◌≡◌, ◌<◌, ◌+◌, ◌/◌, ◌%◌, ◌^◌, ℕ, [], ◌≢◌, length, drop, slice_index_or, IfSome, None, true};
ghost use Rattle.work_list.specs.Work.{IsUnique, has, first_of, steps_for};
ghost use Rattle.work_list.specs.Bits.{members, to_come};

use crate::work_list::{WIDTH, WORDS};
use std::marker::Model;
use std::sync::ledger::Ledger;
use tn_types::{MAX_SLOTS, Steps};

/// The members that a walk still comes to, by rising number.
#[derive(Drop)]
pub struct WorkWalk<'a> {
    words: &'a [u64; WORDS],
    // the first slot of the word that it is at: a member costs one addition, and no multiplication
    base: usize,
    // what is left of that word: it stays in a register, and the next member waits for no look at the list
    rest: u64,
}

impl<'a> Model for WorkWalk<'a> {
    ghost use Rattle.std.specs.Prelude.{◌≡◌, ◌<◌, ◌/◌, ◌%◌, ◌^◌, ℕ, List, length, slice_index_or};
    ghost use Rattle.work_list.specs.Bits.{to_come};

    ghost Value = { List ℕ };

    ghost view = { λ a. to_come a.words.now (a.base / 64) a.rest };

    ghost invariant = { λ a. (length a.words.now ≡ 4) × (a.base < 256) × (a.base % 64 ≡ 0)
        × ((i : ℕ) → slice_index_or a.words.now i 0 < 2 ^ 64) };
}

// The first slot of the first word from this one on of which something is left, and what is left of it: of this one `rest`.
fn filled(words: &[u64; WORDS], base: usize, rest: u64) -> Option<(usize, u64)>
    requires first { (base < MAX_SLOTS) × (base % WIDTH ≡ 0) }
    requires words { length words.now ≡ WORDS }
    requires fits { (i : ℕ) → slice_index_or words.now i 0 < 2 ^ 64 }
    ensures first { IfSome result (λ left. (left.0 < MAX_SLOTS) × (left.0 % WIDTH ≡ 0)) }
    ensures some { IfSome result (λ left. left.1 ≢ 0) }
    ensures same { IfSome result (λ left. to_come words.now (left.0 / WIDTH) left.1 ≡ to_come words.now (base / WIDTH) rest) }
    ensures none { result ≡ None → to_come words.now (base / WIDTH) rest ≡ [] }
{
    if rest != 0 {
        return Some((base, rest));
    }
    'words: for at in base / WIDTH + 1..WORDS {
        if words[at] != 0 {
            return Some((WIDTH * at, words[at]));
        }
    }
    None
}

impl<'a> WorkWalk<'a> {
    // At the front of the members that these words say.
    pub(crate) fn over(words: &'a [u64; WORDS]) -> WorkWalk<'a>
        requires { length words.now ≡ WORDS }
        ensures { result ≡ members words.now }
    {
        let rest = words[0];
        WorkWalk {
            words,
            base: 0,
            rest,
        }
    }

    /// The first member that is still to come, and None exactly at the end. It takes a step exactly where there is one.
    pub fn next_work<L: Ledger>(&mut self, steps: &mut Steps<L>) -> Option<u8>
        ensures next { result ≡ first_of self.old }
        ensures others { self.new ≡ drop 1 self.old }
        ensures member { IfSome result (λ slot. has self.old slot ≡ true) }
        ensures steps { steps.new ≡ steps.old + steps_for result }
        ensures unique { IsUnique self.old }
    {
        let (base, rest) = filled(self.words, self.base, self.rest)?;
        self.base = base;
        self.rest = rest & (rest - 1);
        steps.tick();
        Some((base + rest.trailing_zeros() as usize) as u8)
    }
}
