//! A pack, which drains first and reads after that.
ghost use Rattle.std.specs.Prelude.{◌≡◌, ◌<◌, ◌≤◌, ◌++◌, ◌∷◌, [], ℕ, List, true, OnOk, length, slice_index, vec_capacity};
ghost use Rattle.tn_types.specs.declared.choices.Read.{Read as OneRead};
ghost use Rattle.stream_manager.specs.Server.{server_state};
ghost use Rattle.kept_pair.specs.pair_core.History.{Pack};
ghost use Rattle.kept_pair.specs.pair_core.Calls.{KeepsAtServer};
ghost use Rattle.kept_pair.specs.Kept.{terms_in, newest_first, answer_after, MayPack};
ghost use Rattle.lane_periods.specs.Periods.{has};
ghost use Rattle.lane_periods.specs.Views.{ranges, ReadsOnto};
ghost use Rattle.pair_periods.specs.Agreement.{server_log};
ghost use Rattle.connection_lock.specs.Rule.{progress_of, AreLocked};
ghost use Rattle.connection_lock.specs.Turns.{Packs, DrainsAt, FaultAt};

use dirty_lanes::{LaneName, Lanes, PackSeat};
use kept_pair::pair_core::Answer;
use kept_pair::{KeepFault, KeptPair};
use lane_periods::{Periods, SeatValues, drain_all};
use notify_window::SendState;
use std::alloc::Global;
use tn_types::Drain;

/// Makes room for a pack, with a drain for each period that is shown and not hidden.
pub(crate) fn make_room(
    alloc: Global,
    pair: &mut KeptPair,
    periods: &Periods,
    drains: &mut Vec<Drain>,
) -> Result<(), KeepFault>
    ensures steps { pair.new.steps ≡ pair.old.steps }
    ensures conn { pair.new.pair.conn ≡ pair.old.pair.conn }
    ensures client { pair.new.pair.client ≡ pair.old.pair.client }
    ensures prepared { OnOk result (pair.new.prepared ≡ true) }
    ensures few { OnOk result (length periods.now.up ≤ pair.new.drains) }
    ensures room { OnOk result (length periods.now.up ≤ vec_capacity drains.new) }
    ensures fault { FaultAt (length pair.old.steps) result }
{
    let few = periods.up().len();
    pair.prepare_for(alloc, few)?;
    drains.clear();
    if drains.reserve(few).is_err() {
        return Err(KeepFault::NoMemory);
    }
    Ok(())
}

/// Drains where a data packet has room.
fn drain<N: LaneName>(
    pair: &KeptPair,
    seat: &mut PackSeat<N>,
    lanes: &Lanes<N>,
    periods: &Periods,
    drains: &mut Vec<Drain>,
)
    requires there { (n : ℕ) → has n periods.now.up ≡ true → slice_index periods.now.objects n < lanes.now.objects }
    requires empty { drains.old.items ≡ [] }
    requires room { length periods.now.up ≤ vec_capacity drains.old }
    ensures drains { DrainsAt (server_state (terms_in pair.now).config (server_log (terms_in pair.now) (newest_first pair.now.steps)))
        periods.now seat.old.steps seat.new.steps drains.new.items }
    ensures client { seat.new.client ≡ seat.old.client }
{
    // for its clauses
    let _steps = pair.steps();
    match pair.pair().conn().pack_state() {
        SendState::Room => drain_all(seat, lanes, periods, drains),
        SendState::Held | SendState::Worn => {}
    }
}

/// Packs with these drains, and reads what the packet carries: the reads are new entries of the seat's view.
fn pack_read<N: LaneName>(
    pair: &mut KeptPair,
    seat: &mut PackSeat<N>,
    lanes: &Lanes<N>,
    periods: &Periods,
    drains: &[Drain],
) -> Answer
    requires prepared { pair.old.prepared ≡ true }
    requires room { length drains.now ≤ pair.old.drains }
    requires may { MayPack pair.old drains.now (ranges lanes.now.objects periods.now) }
    ensures answer { result ≡ answer_after pair.old (Pack drains.now []) }
    ensures told { (reads : List OneRead) × (pair.new.steps ≡ pair.old.steps ++ Pack drains.now reads ∷ [])
        × ReadsOnto periods.now seat.old.steps reads seat.new.steps }
    ensures keeps { KeepsAtServer pair.old.pair pair.new.pair }
    ensures terms { terms_in pair.new ≡ terms_in pair.old }
    ensures client { seat.new.client ≡ seat.old.client }
{
    let mut values = SeatValues {
        lanes,
        seat,
        periods,
    };
    pair.pack(drains, &mut values)
}

/// The server packs: where a data packet has room, what the simulation raised is drained and absorbed, and then the fields that the
/// packet carries are read.
pub(crate) fn pack<N: LaneName>(
    pair: &mut KeptPair,
    seat: &mut PackSeat<N>,
    lanes: &Lanes<N>,
    periods: &Periods,
    drains: &mut Vec<Drain>,
) -> Answer
    requires locked { AreLocked N.objects pair.old seat.old periods.now }
    requires prepared { pair.old.prepared ≡ true }
    requires few { length periods.now.up ≤ pair.old.drains }
    requires room { length periods.now.up ≤ vec_capacity drains.old }
    ensures packs { Packs (terms_in pair.old) (progress_of pair.old seat.old periods.now.objects) result
        (progress_of pair.new seat.new periods.now.objects) }
    ensures locked { AreLocked N.objects pair.new seat.new periods.now }
    ensures terms { terms_in pair.new ≡ terms_in pair.old }
    ensures client { seat.new.client ≡ seat.old.client }
{
    // for its clauses
    let _objects = lanes.objects();
    let _steps = pair.steps();
    periods.are_periods();
    drains.clear();
    drain(pair, seat, lanes, periods, drains);
    let answer = pack_read(pair, seat, lanes, periods, drains.as_slice());
    // for its clauses
    let _after = pair.steps();
    answer
}
