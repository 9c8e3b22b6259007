//! A set of the numbers of objects, a bit for each, whose words without a number are passed over.
ghost use Rattle.std.specs.Prelude.{◌≡◌, ℕ, ◌<◌, ◌≤◌, IfOk, ◌+◌, ◌*◌, ◌/◌, ◌%◌, ◌==◌, if◌then◌else◌, slice_index_or};
ghost use Rattle.std.specs.Int.{bit_at};
ghost use Rattle.world_cells.specs.NumberSet.{bit_of};

use crate::lines::with_bit;
use std::alloc::{AllocError, Global};
use std::marker::Model;
use tn_types::MAX_OBJECTS;

// Words of 64 bits, one bit for each number.
const WORDS: usize = MAX_OBJECTS / 64;

/// Numbers of objects. Nothing after `all` and `none` takes memory.
#[derive(Drop)]
pub struct NumberSet {
    words: Vec<u64>,
}

impl Model for NumberSet {
    ghost use Rattle.std.specs.Prelude.{◌≡◌, ℕ, List, length};

    ghost Value = { List ℕ };

    ghost view = { λ a. a.words.items };

    ghost invariant = { λ a. length a.words.items ≡ 16 };
}

impl NumberSet {
    /// All numbers.
    pub fn all(alloc: Global) -> Result<NumberSet, AllocError>
        ensures { IfOk result (λ set. (n : ℕ) → n < MAX_OBJECTS → bit_of set n ≡ 1) }
    {
        Ok(NumberSet {
            words: vec![in alloc; u64::MAX; WORDS]?,
        })
    }

    /// No number.
    pub fn none(alloc: Global) -> Result<NumberSet, AllocError>
        ensures { IfOk result (λ set. (n : ℕ) → bit_of set n ≡ 0) }
    {
        Ok(NumberSet {
            words: vec![in alloc; 0; WORDS]?,
        })
    }

    /// Puts a number in, or takes it out.
    pub fn set(&mut self, number: u32, has: bool)
        requires { number < MAX_OBJECTS }
        ensures { (n : ℕ) → bit_of self.new n ≡ (if n == number then if has then 1 else 0 else bit_of self.old n) }
    {
        let n = number as usize;
        self.words[n / 64] = with_bit(self.words[n / 64], n % 64, has);
    }

    /// Takes a number out.
    pub fn remove(&mut self, number: u32)
        requires { number < MAX_OBJECTS }
        ensures { (n : ℕ) → bit_of self.new n ≡ (if n == number then 0 else bit_of self.old n) }
    {
        self.set(number, false);
    }

    /// Those of 64 numbers, from number `64 * word` on, that are in the set, a bit for each.
    pub fn word(&self, word: usize) -> u64
        requires { word < WORDS }
        ensures { (k : ℕ) → k < 64 → bit_at result k ≡ bit_of self.now (64 * word + k) }
    {
        self.words[word]
    }

    /// A number from this one on, at most the end, before which none is in the set: this one within a word of 64 numbers, and
    /// at its start that of the first word that has one.
    pub fn next(&self, from: usize, end: usize) -> usize
        requires order { from ≤ end }
        requires most { end ≤ MAX_OBJECTS }
        ensures order { from ≤ result }
        ensures most { result ≤ end }
        ensures none { (n : ℕ) → from ≤ n → n < result → bit_of self.now n ≡ 0 }
        ensures within { 0 < from % 64 → result ≡ from }
        ensures word { from % 64 ≡ 0 → result < end → 0 < slice_index_or self.now (result / 64) 0 }
    {
        if from % 64 != 0 {
            return from;
        }
        self.next_word(from, end)
    }

    // The start of the first word with a number, from the word that starts here on.
    fn next_word(&self, from: usize, end: usize) -> usize
        requires order { from ≤ end }
        requires most { end ≤ MAX_OBJECTS }
        requires start { from % 64 ≡ 0 }
        ensures order { from ≤ result }
        ensures most { result ≤ end }
        ensures none { (n : ℕ) → from ≤ n → n < result → bit_of self.now n ≡ 0 }
        ensures word { result < end → 0 < slice_index_or self.now (result / 64) 0 }
    {
        let mut at = from;
        while at < end && self.words[at / 64] == 0 {
            at += 64;
        }
        at.min(end)
    }
}
