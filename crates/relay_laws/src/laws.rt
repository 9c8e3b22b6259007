//! The laws.
ghost use Rattle.relay_laws.specs.Shown.{SpectatorsShowWhatWasSo, PeriodsStandForOne};
ghost use Rattle.relay_laws.specs.Settled.{SettledShowsTheRelays};
ghost use Rattle.relay_laws.specs.Delivered.{SpectatorsDeliverWhatWasPosted};

use match_laws::own_lists::own_lists_hold;
use match_laws::{copies_show_values, events_in_order, settled_is_newest};
use pair_copies::copies_show_reads;

/// Where the relay's client is honest, each field that a spectator shows, before every line of the relay, is shown for a value that an
/// object of the match had, at or after the show of its period at the relay's client (docs/proofs/reach.md, "What spectators see").
pub fn spectators_show_what_was_so()
    ensures { SpectatorsShowWhatWasSo }
{
    own_lists_hold();
    copies_show_reads();
    copies_show_values();
    events_in_order();
}

/// And there a period of a spectator never stands for two periods of the relay's client, so that all that is told of a copy is of one
/// object (docs/proofs/reach.md, "What spectators see").
pub fn spectators_periods_stand_for_one()
    ensures { PeriodsStandForOne }
{
    own_lists_hold();
    copies_show_reads();
}

/// And there each field that is marked as settled at a spectator shows what the relay's copy of the same object shows now, and the value
/// that the object has now where that one is marked as settled in the match too (docs/proofs/reach.md, "What spectators see").
pub fn settled_shows_the_relays()
    ensures { SettledShowsTheRelays }
{
    own_lists_hold();
    copies_show_reads();
    copies_show_values();
    settled_is_newest();
    events_in_order();
}

/// Where the relay's client is honest, the guaranteed events that were delivered to a spectator, before every line of the relay, are the
/// first that the match's server posted to the relay's client, in order (docs/proofs/reach.md, "What spectators see").
pub fn spectators_deliver_what_was_posted()
    ensures { SpectatorsDeliverWhatWasPosted }
{
    own_lists_hold();
    events_in_order();
}
