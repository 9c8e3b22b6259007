//! What honest clients are shown of the world.
ghost use Rattle.match_laws.specs.Values.{CopiesShowValues, SettledIsNewest, ChangesRecover};

use client_seat::own_lists::own_lists_hold;
use pair_copies::copies_show_reads;

/// At every line, each field of each copy that an honest client has shows a value that the object had at or after the show of
/// the copy's period (docs/proofs/match.md, "Shown values").
pub fn copies_show_values()
    ensures { CopiesShowValues }
{
    own_lists_hold();
    copies_show_reads();
}

/// At every line, each field that is told as settled shows the object's newest value (docs/proofs/match.md, "Settled fields").
pub fn settled_is_newest()
    ensures { SettledIsNewest }
{
    own_lists_hold();
    copies_show_reads();
}

/// At every line, each field of each shown and not hidden period of an honest client is due, or was written and not drained, or
/// an unjudged packet carries it, or the client's copy has the level of the newest value (docs/proofs/match.md, "Changes recover").
pub fn changes_recover()
    ensures { ChangesRecover }
{
    own_lists_hold();
    copies_show_reads();
}
