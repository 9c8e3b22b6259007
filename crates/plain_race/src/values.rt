//! The values of a match by version.
ghost use Rattle.std.specs.Prelude.{◌<◌, ◌-◌, ◌^◌, IfOk, length};
ghost use Rattle.match_script.specs.Ranges.{HeadFits};
ghost use Rattle.world_sim.specs.Worlds.{first_world};
ghost use Rattle.legal_race.specs.race_history.History.{IsHistoryOf};

use legal_race::race_history::{History, TickMoves};
use match_script::Head;
use std::alloc::Global;
use tn_types::NoMemory;
use world_sim::World;

/// The values of the worlds that these moves make, from the header's.
pub(crate) fn values_of(alloc: Global, head: &Head, moves: &TickMoves) -> Result<History, NoMemory>
    requires fits { HeadFits head.now }
    requires few { length moves.now < 2 ^ 32 - 1 }
    ensures { IfOk result (λ values. IsHistoryOf (first_world head.now.seed head.now.setup) moves.now values) }
{
    let mut world = World::new(alloc, head.seed, &head.setup)?;
    let mut history = History::new(alloc);
    history.add(alloc, &world)?;
    for tick in 0..moves.len() {
        let Some(row) = moves.get(tick) else {
            unreachable!()
        };
        world.tick(alloc, row)?;
        history.add(alloc, &world)?;
    }
    Ok(history)
}
