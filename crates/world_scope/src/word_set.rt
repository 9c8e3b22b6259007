//! A set of the numbers of objects, a bit for each, and beside it a bit for each word that may have one, so that a walk passes over
//! the others without a look at them.
ghost use Rattle.std.specs.Prelude.{◌≡◌, ℕ, ◌<◌, ◌≤◌, ◌/◌, ◌%◌, max, length, replicate, slice_index, slice_index_or, ◌==◌, if◌then◌else◌};
ghost use Rattle.std.specs.Int.{bit_at};
ghost use Rattle.std.specs.List.{list_any};
ghost use Rattle.world_cells.specs.NumberSet.{bit_of};
ghost use Rattle.world_scope.specs.Marks.{AreMarks};

use std::marker::Model;
use tn_types::MAX_OBJECTS;

/// Words of 64 bits, one bit for each number of an object.
pub const WORDS: usize = MAX_OBJECTS / 64;

/// Numbers of objects; contracts see the words.
#[derive(Drop)]
pub struct WordSet {
    words: [u64; WORDS],
    marks: u64,
}

impl Model for WordSet {
    ghost use Rattle.std.specs.Prelude.{ℕ, List};
    ghost use Rattle.world_scope.specs.Marks.{IsMarked};

    ghost Value = { List ℕ };

    ghost view = { λ a. a.words };

    ghost invariant = { λ a. IsMarked a.words a.marks };
}

/// A bit for each of the first words.
pub fn first_marks(words: usize) -> u64
    requires { words ≤ WORDS }
    ensures { AreMarks words result }
{
    (1 << words) - 1
}

impl WordSet {
    /// No number.
    pub fn new() -> WordSet
        ensures { result ≡ replicate WORDS 0 }
    {
        WordSet {
            words: [0; WORDS],
            marks: 0,
        }
    }

    /// Puts these numbers in. Their marks are gathered in a register: in memory, each would wait for the one before it to be stored.
    pub fn put_all(&mut self, numbers: &[u32])
        requires { (k : ℕ) → k < length numbers.now → slice_index_or numbers.now k 0 < MAX_OBJECTS }
        ensures { (n : ℕ) → n < MAX_OBJECTS
            → bit_of self.new n ≡ (if list_any (λ number. n == number) numbers.now then 1 else bit_of self.old n) }
    {
        let mut marks = self.marks;
        for number in numbers {
            let n = *number as usize;
            self.words[n / 64] |= 1 << (n % 64);
            marks |= 1 << (n / 64);
        }
        self.marks = marks;
    }

    /// Puts in those of a word's numbers that have a bit. Marks of this word and of others come along, so that a walk over words
    /// writes the same marks each time.
    pub fn join(&mut self, word: usize, bits: u64, words: usize, marks: u64)
        requires word { word < words }
        requires words { words ≤ WORDS }
        requires marks { AreMarks words marks }
        ensures { (n : ℕ) → bit_of self.new n
            ≡ max (bit_of self.old n) (if n / 64 == word then bit_at bits (n % 64) else 0) }
    {
        self.words[word] |= bits;
        self.marks |= marks;
    }

    /// The numbers in a word.
    pub fn word(&self, word: usize) -> u64
        requires { word < WORDS }
        ensures { result ≡ slice_index self.now word }
    {
        self.words[word]
    }

    /// A bit for each word that may have a number.
    pub fn marks(&self) -> u64
        ensures few { (word : ℕ) → WORDS ≤ word → bit_at result word ≡ 0 }
        ensures none { (word : ℕ) → bit_at result word ≡ 0 → slice_index self.now word ≡ 0 }
    {
        self.marks
    }
}
