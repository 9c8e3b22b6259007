//! Which objects lie before each line of a coordinate, a column or a row of cells, as bits: so those between two lines are
//! found 64 at a time.
ghost use Rattle.std.specs.Prelude.{◌≡◌, ℕ, ◌<◌, ◌≤◌, ◌+◌, ◌*◌, ◌-◌, min, IfOk, ◌==◌, if◌then◌else◌};
ghost use Rattle.std.specs.Int.{bit_at};
ghost use Rattle.world_cells.specs.Lines.{has, IsAt, IsPut};

use std::alloc::{AllocError, Global};
use std::marker::Model;
use tn_types::MAX_OBJECTS;

// Words of 64 bits, one bit for each object.
const WORDS: usize = MAX_OBJECTS / 64;

// The ends before which an object may lie: those of 16 lines, and the first, before which none does.
const ENDS: usize = 17;

/// For each end of a line a bit for each object that lies before it.
#[derive(Drop)]
pub(crate) struct Lines {
    words: Vec<u64>,
}

impl Model for Lines {
    ghost use Rattle.std.specs.Prelude.{◌≡◌, ℕ, List, length};

    ghost Value = { List ℕ };

    ghost view = { λ a. a.words.items };

    ghost invariant = { λ a. length a.words.items ≡ 272 };
}

// A word with or without the bit of this place.
pub(crate) fn with_bit(word: u64, place: usize, has: bool) -> u64
    requires { place < 64 }
    ensures { (k : ℕ) → k < 64 → bit_at result k ≡ (if k == place then if has then 1 else 0 else bit_at word k) }
{
    if has {
        word | 1 << place
    } else {
        word & !(1 << place)
    }
}

// The bits of a word that another one doesn't have.
fn apart(word: u64, other: u64) -> u64
    ensures { (k : ℕ) → k < 64 → bit_at result k ≡ min (bit_at word k) (1 - bit_at other k) }
{
    word & !other
}

impl Lines {
    /// No object lies anywhere.
    pub(crate) fn new(alloc: Global) -> Result<Lines, AllocError>
        ensures { IfOk result (λ lines. (line n : ℕ) → has lines line n ≡ 0) }
    {
        Ok(Lines {
            words: vec![in alloc; 0; ENDS * WORDS]?,
        })
    }

    /// The object of this number goes from a line to another; line 16 is none.
    pub(crate) fn shift(&mut self, number: u32, from: u8, to: u8)
        requires number { number < MAX_OBJECTS }
        requires from { from ≤ 16 }
        requires to { to ≤ 16 }
        ensures { IsAt number from self.old → IsPut number to self.old self.new }
    {
        let n = number as usize;
        for line in from.min(to)..from.max(to) {
            let at = (line as usize + 1) * WORDS + n / 64;
            self.words[at] = with_bit(self.words[at], n % 64, to <= line);
        }
    }

    /// Which of 64 objects lie in the lines from one on and before another.
    pub(crate) fn between(&self, from: u8, to: u8, word: usize) -> u64
        requires word { word < 16 }
        requires from { from ≤ 16 }
        requires to { to ≤ 16 }
        ensures { (k : ℕ) → k < 64 → bit_at result k
            ≡ min (has self.now to (64 * word + k)) (1 - has self.now from (64 * word + k)) }
    {
        apart(
            self.words[to as usize * WORDS + word],
            self.words[from as usize * WORDS + word],
        )
    }
}
