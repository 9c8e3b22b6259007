//! What the words of a report's `show` lines say, and what is found in an own list by looking back.

ghost use Rattle.report_laws.specs.Shown.{PrintedAsShown, PrintedValues};
ghost use Rattle.report_laws.specs.Moves.{PrintedCounts};
ghost use Rattle.report_laws.specs.Honest.{HonestByLines, OneHolder};
ghost use Rattle.report_laws.specs.Looking.{LooksBack};
ghost use Rattle.report_laws.specs.Settled.{MarkedWhereSettled, SettledIsLast, ChangesAreCaught};
ghost use Rattle.report_laws.specs.Promises.{ReportLaws};

use match_laws::{changes_recover, copies_show_values, settled_is_newest};

/// Each `show` line prints the client's copies as they are then: slot, kind, block, and each field with the value that it shows, and
/// with `s` where it is settled (docs/proofs/match.md, "The printed values").
pub fn printed_as_shown()
    ensures { PrintedAsShown }
{}

/// For each client with no line `raw`: each field that a `show` line prints shows a value that the object had, and one with `s` the
/// newest (docs/proofs/match.md, "The printed values").
pub fn printed_values()
    ensures { PrintedValues }
{
    copies_show_values();
    settled_is_newest();
}

/// The numbers of a `show` line are the lengths of the lists that the laws on moves speak of (docs/proofs/match.md, "The printed values").
pub fn printed_counts()
    ensures { PrintedCounts }
{}

/// No line `raw` of a client among the first lines, and no foreign bytes among the steps of its journal: it is one thing.
pub fn honest_by_lines()
    ensures { HonestByLines }
{}

/// No two periods of a client hold one slot.
pub fn one_holder()
    ensures { OneHolder }
{}

/// What is kept of an own list, item by item, is what is found by looking back over it (docs/proofs/match.md, "Looking back").
pub fn looks_back()
    ensures { LooksBack }
{}

/// A field that a client is shown is told as settled exactly where a shown and not hidden period holds the slot, the field is settled
/// there, and no write of it came since the last drain (docs/proofs/match.md, "Looking back").
pub fn marked_where_settled()
    ensures { MarkedWhereSettled }
{}

/// What an honest client is told as settled is shown for the newest value that its own list tells (docs/proofs/match.md, "Looking back").
pub fn settled_is_last()
    ensures { SettledIsLast }
{
    settled_is_newest();
}

/// Each field of each shown and not hidden period of an honest client is due, or was written since the last drain, or an unjudged
/// packet carries it, or the client's copy has the level of its newest value (docs/proofs/match.md, "Looking back").
pub fn changes_are_caught()
    ensures { ChangesAreCaught }
{
    changes_recover();
}

/// What the report of every script says: each law of this crate (docs/proofs/match.md, "The printed values").
pub fn laws_of_reports()
    ensures { ReportLaws }
{
    printed_as_shown();
    printed_values();
    printed_counts();
    honest_by_lines();
    one_holder();
    looks_back();
    marked_where_settled();
    settled_is_last();
    changes_are_caught();
}
