//! What a pair tells of its periods after its steps.
ghost use Rattle.std.specs.Prelude.{◌≡◌, ℕ, true};
ghost use Rattle.tn_types.specs.BitWords.{has_bit};
ghost use Rattle.kept_pair.specs.Kept.{newest_first, terms_in};
ghost use Rattle.lane_periods.specs.Periods.{has};
ghost use Rattle.pair_steps.specs.Steps.{shows_in, up_in};
ghost use Rattle.race_reads.specs.Legal.{is_field_due};

use kept_pair::KeptPair;

/// How many periods were shown.
pub(crate) fn shows(pair: &KeptPair) -> u32
    ensures { result ≡ shows_in (newest_first pair.now.steps) }
{
    // for its clauses
    let _steps = pair.steps();
    pair.pair().conn().shows()
}

/// Whether the period is shown and not hidden.
pub(crate) fn is_up(pair: &KeptPair, n: u32) -> bool
    ensures { result ≡ has n (up_in (newest_first pair.now.steps)) }
{
    // for its clauses
    let _steps = pair.steps();
    pair.pair().conn().is_up(n)
}

/// The fields of a period that are due: bit f for field f.
pub(crate) fn due_bits(pair: &KeptPair, n: u32) -> u32
    requires { has n (up_in (newest_first pair.now.steps)) ≡ true }
    ensures { (field : ℕ) → has_bit result field ≡ is_field_due (terms_in pair.now) (newest_first pair.now.steps) n field }
{
    // for its clauses
    let _steps = pair.steps();
    pair.pair().conn().due_bits(n)
}
