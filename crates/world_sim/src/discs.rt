//! The discs that a tick makes.
ghost use Rattle.std.specs.Prelude.{◌≡◌, ◌≤◌, length, take, OnOk};
ghost use Rattle.std.specs.List.{filter_map};
ghost use Rattle.world_rules.specs.Players.{fired};
ghost use Rattle.world_sim.specs.Worlds.{added};

use std::alloc::AllocError;
use tn_types::MoveBits;
use world_rules::Object;
use world_rules::fire::fired;

// Adds a disc that is made, if there is a place.
fn add_disc(made: Option<Object>, room: usize, discs: &mut Vec<Object>) -> Result<(), AllocError>
    ensures { OnOk result (discs.new.items ≡ added room discs.old.items made) }
{
    if let Some(disc) = made {
        if discs.len() < room {
            discs.push(disc)?;
        }
    }
    Ok(())
}

/// The discs that are made, as long as there are places.
#[tactic(auto, using(crate::proofs::Made::made_few))]
pub fn make_discs(
    objects: &[Object],
    moves: &[Option<MoveBits>],
    room: usize,
    discs: &mut Vec<Object>,
) -> Result<(), AllocError>
    ensures made { OnOk result (discs.new.items ≡ take room (filter_map (fired moves.now) objects.now)) }
    ensures few { OnOk result (length discs.new.items ≤ room) }
{
    discs.clear();
    for o in objects {
        add_disc(fired(moves, o), room, discs)?;
    }
    Ok(())
}
