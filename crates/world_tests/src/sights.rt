//! Of `world_scope`: what clients see of small worlds.
ghost use Rattle.std.specs.Prelude.{◌∷◌, [], IfOk};
ghost use Rattle.world_rules.specs.Identity.{OwnersRise};
ghost use Rattle.world_rules.specs.Spawning.{SetupFits, SpawnFits};

use std::alloc::Global;
use tn_types::NoMemory;
use world_rules::{Setup, Spawn, Spawns};
use world_scope::{Seen, visible};
use world_sim::World;

// A match of two clients with these four objects, whose players see so far.
fn field(
    alloc: Global,
    radius: u16,
    first: Spawn,
    second: Spawn,
    third: Spawn,
    fourth: Spawn,
) -> Result<Setup, NoMemory>
    requires first { SpawnFits 2 first }
    requires second { SpawnFits 2 second }
    requires third { SpawnFits 2 third }
    requires fourth { SpawnFits 2 fourth }
    requires order { OwnersRise 2 0 (first.owner ∷ second.owner ∷ third.owner ∷ fourth.owner ∷ []) }
    ensures { IfOk result SetupFits }
{
    let mut spawns = Spawns::new(alloc);
    spawns.push(alloc, first)?;
    spawns.push(alloc, second)?;
    spawns.push(alloc, third)?;
    spawns.push(alloc, fourth)?;
    Ok(Setup {
        clients: 2,
        radius: u32::from(radius),
        spawns,
    })
}

// The world of a match after so many ticks without a move.
fn after(alloc: Global, setup: &Setup, ticks: u32) -> Result<World, NoMemory>
    requires { SetupFits setup.now }
{
    let mut world = World::new(alloc, 1, setup)?;
    for _ in 0..ticks {
        if world.ticks() < 1000 {
            world.tick(alloc, &[None, None])?;
        }
    }
    Ok(world)
}

const PLAYER: Spawn = Spawn {
    kind: 0,
    block: 0,
    team: 0,
    x: 1000,
    y: 1000,
    owner: Some(0),
};

const ENEMY: Spawn = Spawn {
    team: 1,
    y: 2000,
    owner: Some(1),
    ..PLAYER
};

const MINE: Spawn = Spawn {
    kind: 2,
    team: 0,
    y: 1500,
    owner: None,
    ..PLAYER
};

const ENEMY_MINE: Spawn = Spawn { team: 1, ..MINE };

const DRONE: Spawn = Spawn {
    kind: 3,
    team: 1,
    owner: None,
    ..PLAYER
};

const FLAG: Spawn = Spawn {
    kind: 4,
    team: 1,
    x: 60_000,
    y: 60_000,
    owner: None,
    ..PLAYER
};

const CLOCK: Spawn = Spawn { kind: 5, ..FLAG };

fn seen(object: u32, level: u8) -> Seen {
    Seen { object, level }
}

// What client 0, whose player stands at (1000, 1000), sees of a drone.
fn drone_at(alloc: Global, radius: u16, x: u16, y: u16) -> Result<Option<u8>, NoMemory> {
    let drone = Spawn {
        x: i64::from(x),
        y: i64::from(y),
        ..DRONE
    };
    let setup = field(alloc, radius, PLAYER, drone, FLAG, CLOCK)?;
    let world = after(alloc, &setup, 0)?;
    let mut out = Vec::new(alloc);
    visible(alloc, &world, 0, &mut out)?;
    Ok(out.iter().find(|s| s.object == 1).map(|s| s.level))
}

#[test]
fn distances(rt: HostRuntime) {
    for (radius, x, y, level) in [
        (1000, 1250, 1000, Some(0)),
        (1000, 1251, 1000, Some(1)),
        (1000, 1000, 1500, Some(1)),
        (1000, 499, 1000, Some(2)),
        (1000, 1750, 250, Some(2)),
        (1000, 1000, 249, Some(3)),
        (1000, 0, 2000, Some(3)),
        (1000, 0, 2001, None),
        (3, 1001, 1000, Some(1)),
        (0, 1000, 1000, Some(0)),
        (0, 1001, 1000, None),
        (65_535, 65_535, 65_535, Some(3)),
    ] {
        assert!(rt; drone_at(rt.alloc(), radius, x, y) == Ok(level));
    }
}

// What a client sees of two enemies 1,000 apart, both seeing 1,000 far, with a mine of each team between them.
fn between(alloc: Global, ticks: u32, client: u8) -> Result<Vec<Seen>, NoMemory> {
    let setup = field(alloc, 1000, PLAYER, ENEMY, MINE, ENEMY_MINE)?;
    let world = after(alloc, &setup, ticks)?;
    let mut out = Vec::new(alloc);
    visible(alloc, &world, client, &mut out)?;
    Ok(out)
}

#[test]
fn armed_mines(rt: HostRuntime) {
    let unarmed = between(rt.alloc(), 9, 0).expect(&rt, "memory");
    assert!(rt; unarmed.as_slice() == [seen(0, 0), seen(1, 3), seen(2, 1), seen(3, 1)].as_slice());
    let own = between(rt.alloc(), 10, 0).expect(&rt, "memory");
    assert!(rt; own.as_slice() == [seen(0, 0), seen(1, 3), seen(2, 1)].as_slice());
    let other = between(rt.alloc(), 10, 1).expect(&rt, "memory");
    assert!(rt; other.as_slice() == [seen(0, 3), seen(1, 0), seen(3, 1)].as_slice());
}

// What both clients see, one after the other in one list, where only client 0 has a player.
fn alone(alloc: Global, last: u8) -> Result<Vec<Seen>, NoMemory> {
    let setup = field(alloc, 1000, PLAYER, DRONE, FLAG, CLOCK)?;
    let world = after(alloc, &setup, 0)?;
    let mut out = Vec::new(alloc);
    for client in [1 - last.min(1), last] {
        visible(alloc, &world, client, &mut out)?;
    }
    Ok(out)
}

#[test]
fn client_without_player(rt: HostRuntime) {
    let told = alone(rt.alloc(), 1).expect(&rt, "memory");
    assert!(rt; told.as_slice() == [seen(2, 0), seen(3, 0)].as_slice());
    let told = alone(rt.alloc(), 0).expect(&rt, "memory");
    assert!(rt; told.as_slice() == [seen(0, 0), seen(1, 0), seen(2, 0), seen(3, 0)].as_slice());
}
