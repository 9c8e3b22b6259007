//! The world of a match: its ticks, and what is told of it.
ghost use Rattle.std.specs.Prelude.{◌≡◌, ◌<◌, ◌≤◌, ◌-◌, ◌^◌, ℕ, IfOk, OnOk, length, map, slice_get};
ghost use Rattle.match_laws.specs.client_seat.Stands.{without_first};
ghost use Rattle.match_engine.specs.Stands.{AreFew};
ghost use Rattle.match_laws.specs.World.{living};

use match_laws::client_seat::Seat;
use match_report::{Living, LivingObject, ValueList};
use std::alloc::{AllocError, Global};
use tn_types::{MoveBits, NoMemory};
use world_sim::World;

/// Takes the oldest waiting move of each client.
pub(crate) fn take_moves(
    seats: &mut Vec<Seat>,
    moves: &mut Vec<Option<MoveBits>>,
) -> Result<(), AllocError>
    requires { AreFew seats.old.items }
    ensures moves { OnOk result (moves.new.items ≡ map (λ s. slice_get s.waiting 0) seats.old.items) }
    ensures seats { OnOk result (seats.new.items ≡ map without_first seats.old.items) }
{
    moves.clear();
    for i in 0..seats.len() {
        moves.push(seats[i].take_move())?;
    }
    Ok(())
}

/// The living objects of a world, by rising number.
pub(crate) fn living_of(alloc: Global, world: &World) -> Result<Living, NoMemory>
    ensures { IfOk result (λ l. l ≡ living world.now) }
{
    let mut living = Living::new(alloc);
    for (n, object) in world.all_objects().iter().enumerate() {
        if object.alive {
            living.push(
                alloc,
                LivingObject {
                    number: n as u32,
                    kind: object.kind(),
                    values: ValueList::from_slice(world.values(n as u32)),
                },
            )?;
        }
    }
    Ok(living)
}
