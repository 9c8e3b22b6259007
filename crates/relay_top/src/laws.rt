//! What a relay keeps.
ghost use Rattle.relay_top.specs.Text.{RelayLaws};

use relay_laws::{
    settled_shows_the_relays, spectators_deliver_what_was_posted, spectators_periods_stand_for_one,
    spectators_show_what_was_so,
};
use relay_node::relay_report::{
    packs_are_of_what_was_met, same_lists_same_packs, same_met_same_packs,
};

/// What a spectator is sent, and what it shows.
pub fn laws_of_relays()
    ensures { RelayLaws }
{
    packs_are_of_what_was_met();
    same_met_same_packs();
    same_lists_same_packs();
    spectators_show_what_was_so();
    spectators_periods_stand_for_one();
    settled_shows_the_relays();
    spectators_deliver_what_was_posted();
}
