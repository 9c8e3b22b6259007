//! What two honest ends refuse of one another, over all that a connection did.

ghost use Rattle.pair_core.specs.History.{PairStep};
ghost use Rattle.pair_core.specs.Conditions.{IsHonestStep};
ghost use Rattle.pair_core.specs.Answers.{answer};
ghost use Rattle.pair_laws.specs.Laws.{Always};
ghost use Rattle.pair_laws.specs.Refusals.{RefusesLittle};

/// Whatever the network brings of what the ends sent, the only refusals are that nothing was sent at a place and that a data
/// packet is old, both ways: acknowledgements, moves, events, blocks and ghosts always fit.
pub fn honest_runs_refuse_little()
    ensures { Always (λ t steps. (step : PairStep) → IsHonestStep step → RefusesLittle (answer t steps step)) }
{}
