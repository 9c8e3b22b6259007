//! All laws together.
ghost use Rattle.match_laws.specs.Promises.{MatchLaws};

use crate::laws::{
    events_in_order, isolation, little_is_refused, loose_events_in_order, moves_in_order,
    non_interference,
};
use crate::values::{changes_recover, copies_show_values, settled_is_newest};
use crate::words::{applied_in_order, printed_in_order};

/// What every match keeps: each law of this crate (docs/proofs/match.md, "The laws of a match").
pub fn laws_of_matches()
    ensures { MatchLaws }
{
    isolation();
    non_interference();
    copies_show_values();
    settled_is_newest();
    changes_recover();
    events_in_order();
    moves_in_order();
    loose_events_in_order();
    little_is_refused();
    applied_in_order();
    printed_in_order();
}
