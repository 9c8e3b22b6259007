//! The words on lists that definitions are made of, and that each is what it is named for.

ghost use Rattle.std.specs.Prelude.{ℕ, List, Bool, Option};
ghost use Rattle.tn_types.specs.Fitting.{fitting, IsLongestFitting};
ghost use Rattle.tn_types.specs.Least.{least, IsLeast, those_below, AreThoseBelow};
ghost use Rattle.tn_types.specs.Checks.{first_fault, IsFirstFault};

/// A share of a list is its longest front that fits.
pub fn fitting_is_longest<A>()
    ensures { (size : A → ℕ) (room : ℕ) (xs : List A) → IsLongestFitting size room xs (fitting size room xs) }
{}

/// The least number that passes is one, and none below it passes.
pub fn least_is_least()
    ensures { (f : ℕ → Bool) (n : ℕ) → IsLeast f n (least f n) }
{}

/// The numbers that pass are all of them, rising.
pub fn those_below_are_all_that_pass()
    ensures { (f : ℕ → Bool) (n : ℕ) → AreThoseBelow f n (those_below f n) }
{}

/// The first fault is that of an item before which none is faulty.
pub fn first_fault_is_first<A, E>()
    ensures { (fault : List A → A → Option E) (before xs : List A) → IsFirstFault fault before xs (first_fault fault before xs) }
{}
