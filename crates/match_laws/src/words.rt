//! What ticks take, and what the words of a report say.

ghost use Rattle.match_laws.specs.Applied.{AppliedAreAccepted, AppliedInOrder};
ghost use Rattle.match_laws.specs.Words.{PrintedInOrder};

/// The moves that ticks took from a client are the first that its server accepted, and at every line those of an honest client
/// are the first that it sampled, in order and each once (docs/proofs/match.md, "Applied moves").
pub fn applied_in_order()
    ensures accepted { AppliedAreAccepted }
    ensures sampled { AppliedInOrder }
{}

/// For each client with no line `raw`, at every line, the words `g:` of a report's `down` lines are the first of the events in the
/// script's `post` lines that the report answers with a number; the like for `up` and `cpost` (docs/proofs/match.md, "The printed
/// words").
pub fn printed_in_order()
    ensures { PrintedInOrder }
{}
