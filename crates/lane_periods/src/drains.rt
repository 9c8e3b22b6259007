//! The drains of a pack.
ghost use Rattle.std.specs.Prelude.{◌≡◌, ℕ, ◌<◌, ◌≤◌, ◌%◌, ◌^◌, [], true, length, slice_index, vec_capacity};
ghost use Rattle.lane_periods.specs.Periods.{has};
ghost use Rattle.lane_periods.specs.Views.{Drains};

use crate::periods::Periods;
use dirty_lanes::{LaneName, Lanes, PackSeat};
use tn_types::Drain;

/// Takes the mask word of the object of each period that is shown and not hidden, by rising period, and lists the bits in it
/// that are fields of the period's kind.
pub fn drain_all<N: LaneName>(
    seat: &mut PackSeat<N>,
    lanes: &Lanes<N>,
    periods: &Periods,
    drains: &mut Vec<Drain>,
)
    requires there { (n : ℕ) → has n periods.now.up ≡ true → slice_index periods.now.objects n < lanes.now.objects }
    requires empty { drains.old.items ≡ [] }
    requires room { length periods.now.up ≤ vec_capacity drains.old }
    ensures client { seat.new.client ≡ seat.old.client }
    ensures drains { Drains periods.now seat.old.steps seat.new.steps drains.new.items }
{
    for n in periods.up() {
        let bits = seat.drain(lanes, periods.object(*n));
        let own = periods.own_bits(*n, bits);
        drains.push_reserved(Drain { n: *n, bits: own });
    }
}
