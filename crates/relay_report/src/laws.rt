//! The laws of what a relay reports.
ghost use Rattle.relay_report.specs.Laws.{PacksAreOfWhatWasMet, SameMetSamePacks, SameListsSamePacks};

/// What the packs of a spectator print is a function of the header's numbers and blocks, the packets that the relay's client took, the
/// spectator's lines, and their order.
pub fn packs_are_of_what_was_met()
    ensures { PacksAreOfWhatWasMet }
{}

/// So two relay scripts print the same packs for a spectator that meets the same.
pub fn same_met_same_packs()
    ensures { SameMetSamePacks }
{}

/// And so do two relay scripts whose matches tell the relay's client the same.
pub fn same_lists_same_packs()
    ensures { SameListsSamePacks }
{}
