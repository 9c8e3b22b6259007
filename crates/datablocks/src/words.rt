//! A word of 64 bits as a set of numbers.
ghost use Rattle.std.specs.Prelude.{◌≡◌, ℕ, ◌<◌};
ghost use Rattle.std.specs.Int.{bit_at};

use tn_types::MAX_BLOCKS;

/// The word with bit `number` set.
#[tactic(auto, using(crate::proofs::Bits::bit_set, crate::proofs::Bits::bit_kept))]
pub fn with_bit(word: u64, number: usize) -> u64
    requires { number < MAX_BLOCKS }
    ensures set { bit_at result number ≡ 1 }
    ensures others { (b : ℕ) → (b ≡ number → ⊥) → bit_at result b ≡ bit_at word b }
{
    word | (1 << number)
}
