//! What every match over a link keeps.
ghost use Rattle.net_top.specs.Outcome.{NetLaws};

use net_rules::turns_are_one;
use net_serve::match_laws::isolation;
use net_serve::{is_read_again, packs_are_sent, raws_are_arrivals, ticks_are_turns};

/// What is served is one run, and what is sent in it is what the script's report says.
pub fn laws_of_links()
    ensures { NetLaws }
{
    turns_are_one();
    packs_are_sent();
    isolation();
    raws_are_arrivals();
    ticks_are_turns();
    is_read_again();
}
