//! What holds of predictions.
ghost use Rattle.client_predict.specs.Laws.{AcceptedChangesNothing, OffsetSettles};

/// A packet that tells what was predicted changes nothing: its base is the last one after the first of the pending moves, which the
/// server took, and the rest of them is still pending. Then the value is the one before, and the offset too: no correction is added.
pub fn accepted_changes_nothing()
    ensures { AcceptedChangesNothing }
{}

/// After 22 sampled moves or more, with no packet told between, nothing is left of the offset.
pub fn offset_settles()
    ensures { OffsetSettles }
{}
