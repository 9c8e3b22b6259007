//! A match before its first line.
ghost use Rattle.std.specs.Prelude.{◌≡◌, [], IfOk, length};
ghost use Rattle.dirty_lanes.specs.Named.{no_steps};
ghost use Rattle.match_script.specs.Ranges.{HasRanges};
ghost use Rattle.world_sim.specs.Worlds.{first_world};
ghost use Rattle.race_sim.specs.Simulating.{HasDone};
ghost use Rattle.race_run.specs.Asking.{AreNumbered};

use crate::connecting::{Connections, connect};
use connection_lock::SharedPair;
use dirty_lanes::{FreshLanes, LaneName, Lanes};
use match_script::Script;
use race_sim::Simulation;
use std::alloc::Global;
use tn_types::{MAX_OBJECTS, NoMemory};

/// A match before its first line.
#[derive(Drop)]
pub struct Ready<N: LaneName> {
    /// Its lanes.
    pub lanes: Lanes<N>,
    /// The connections by client.
    pub pairs: Vec<SharedPair<N>>,
    /// The simulation.
    pub sim: Simulation<N>,
}

/// Makes a match ready, on lanes of this name.
pub fn make_ready<N: LaneName>(
    alloc: Global,
    script: &Script,
    fresh: FreshLanes,
) -> Result<Ready<N>, NoMemory>
    requires ranges { HasRanges script.now }
    requires named { (fresh.table ≡ N.table) × (fresh.objects ≡ N.objects) }
    requires objects { fresh.objects ≡ MAX_OBJECTS }
    requires clients { fresh.clients ≡ script.now.head.clients }
    ensures objects { IfOk result (λ ready. ready.lanes.objects ≡ MAX_OBJECTS) }
    ensures clients { IfOk result (λ ready. ready.lanes.clients ≡ script.now.head.clients) }
    ensures pairs { IfOk result (λ ready. length ready.pairs.items ≡ script.now.head.clients) }
    ensures numbered { IfOk result (λ ready. AreNumbered ready.pairs.items) }
    ensures ports { IfOk result (λ ready. length ready.sim.ports ≡ script.now.head.clients) }
    ensures begun { IfOk result (λ ready. HasDone (first_world script.now.head.seed script.now.head.setup) [] ready.sim) }
    ensures seat { IfOk result (λ ready. ready.sim.seat ≡ no_steps) }
{
    let (lanes, seat, seats) = fresh.named::<N>();
    let Connections { pairs, ports } = connect(alloc, &script.head, seats)?;
    let sim = Simulation::new(alloc, &script.head, seat, ports)?;
    Ok(Ready { lanes, pairs, sim })
}
