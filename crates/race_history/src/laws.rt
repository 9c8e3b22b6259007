//! What holds of every history.
ghost use Rattle.std.specs.Prelude.{◌≡◌, Bool, List, Option};
ghost use Rattle.tn_types.specs.declared.moves.MoveBits.{MoveBits as OneMove};
ghost use Rattle.world_sim.specs.Worlds.{Worlds};
ghost use Rattle.race_history.specs.Deciding.{Decides};
ghost use Rattle.race_history.specs.History.{Values, IsHistory, IsHistoryOf};

/// Whoever tells all values of the same worlds tells the same.
pub fn values_are_determined()
    ensures { (worlds : List Worlds) → (last : Worlds) → (one other : Values) → IsHistory worlds last one → IsHistory worlds last other
        → one ≡ other }
{}

/// Beside values that were made of a first world and the moves of its ticks, a comparison decides whether others are those of the
/// same worlds.
pub fn comparison_decides()
    ensures { (first : Worlds) → (ticks : List (List (Option OneMove))) → (told made : Values) → (same : Bool)
        → IsHistoryOf first ticks made → Decides same (told ≡ made) → Decides same (IsHistoryOf first ticks told) }
{}
