//! Where a pack takes its values from.
ghost use Rattle.std.specs.Prelude.{◌≡◌, ℕ, ℤ, ◌≤ℤ◌, Option, IfSome, IsSome, List, [], ◌∷◌, ◌++◌};
ghost use Rattle.tn_types.specs.declared.choices.Read.{Read};

use crate::choices::Read;

/// Gives the value of a field of a period when it is asked, each in the field's range.
pub trait Values {
    /// The least and the greatest value of a field of a period; `None` where it may not be asked for.
    ghost ranges: { Self → ℕ → ℕ → Option (ℤ × ℤ) };

    /// What was asked of the first until it was the second, and nothing else happened to it: exactly these reads, the oldest
    /// first.
    ghost asks: { Self → List Read → Self → Type 0 };

    /// The value of a field of period `n`: it lies in the field's range, and this one read was asked.
    fn value(&mut self, n: u32, field: u8) -> Read
        requires { IsSome (ranges self.old n field) }
        ensures asked { (result.n ≡ n) × (result.field ≡ field) }
        ensures range { IfSome (ranges self.old n field) (λ r. (r.0 ≤ℤ result.value) × (result.value ≤ℤ r.1)) }
        ensures asks { asks self.old (result ∷ []) self.new };

    /// Where nothing was asked, it is what it was.
    ghost asks_none: { (x : Self) → asks x [] x };

    /// What is asked after other reads stands after them.
    ghost asks_more: { (x y z : Self) (first later : List Read) → asks x first y → asks y later z → asks x (first ++ later) z };

    /// Asking changes no range, nor what may be asked for.
    ghost asks_ranges: { (x y : Self) (reads : List Read) (n f : ℕ) → asks x reads y → ranges y n f ≡ ranges x n f };
}
