ghost use Rattle.own_lists.specs.Agreement.{OwnListsHold};

/// After any lines of a match, each client's own list is one that a server may be fed with which knows nothing else of the
/// match, and agrees with the world (docs/proofs/match.md, "Own lists").
pub fn own_lists_hold()
    ensures { OwnListsHold }
{}
