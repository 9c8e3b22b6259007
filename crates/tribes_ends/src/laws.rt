//! What a game's own prediction may rest on.
ghost use Rattle.tribes_ends.specs.Played.{AcceptedChangesNothing};

/// A prediction is the copy that came last with all pending moves played on it, by any step of any game. If the server played the moves
/// that it tells as accepted, and nothing else changed what they change, the prediction stays as it was (docs/prediction.md, "In a game").
pub fn accepted_moves_change_nothing<S>()
    ensures { AcceptedChangesNothing S }
{}
