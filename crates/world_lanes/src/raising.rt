//! What clients are told.
ghost use Rattle.std.specs.Prelude.{◌≡◌, ◌<◌, ◌^◌};
ghost use Rattle.std.specs.List.{All};
ghost use Rattle.tn_types.specs.BitWords.{has_bit};
ghost use Rattle.world_lanes.specs.Told.{is_of, is_told, Tells};

use dirty_lanes::{LaneName, Lanes, MAX_LANE_FIELDS, SimSeat};

/// Fields of an object that were stored: bit f for field f.
#[derive(Clone, Copy, Debug, PartialEq, Eq)]
pub struct Changed {
    /// The object's number.
    pub object: u32,
    /// The bits, below 2^16.
    pub bits: u32,
}

// Tells every client of one object.
fn raise_one<N: LaneName>(lanes: &Lanes<N>, sim: &mut SimSeat<N>, changed: &Changed)
    requires object { changed.now.object < lanes.now.objects }
    requires bits { changed.now.bits < 2 ^ MAX_LANE_FIELDS }
    ensures { Tells (λ o f. is_of o f changed.now) lanes.now.clients sim.old.steps sim.new.steps }
{
    for client in 0..lanes.clients() as u8 {
        sim.raise(lanes, client, changed.object, changed.bits);
    }
}

/// Tells every client of these.
pub fn raise_all<N: LaneName>(lanes: &Lanes<N>, sim: &mut SimSeat<N>, changed: &[Changed])
    requires objects { All (λ c. c.object < lanes.now.objects) changed.now }
    requires bits { All (λ c. c.bits < 2 ^ MAX_LANE_FIELDS) changed.now }
    ensures { Tells (is_told changed.now) lanes.now.clients sim.old.steps sim.new.steps }
{
    for c in changed {
        raise_one(lanes, sim, c);
    }
}
