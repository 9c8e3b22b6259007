//! Of `world_sim`: small worlds, tick by tick.
ghost use Rattle.std.specs.Prelude.{◌∷◌, [], Some, ◌≤ℤ◌, pos, negsuc};
ghost use Rattle.world_rules.specs.Identity.{OwnersRise};
ghost use Rattle.world_rules.specs.Spawning.{SpawnFits};

use bit_stream::bits_of_move;
use std::alloc::Global;
use tn_types::{Move, MoveBits, NoMemory};
use world_rules::{Setup, Spawn, Spawns};
use world_sim::World;

const PLAYER: Spawn = Spawn {
    kind: 0,
    block: 0,
    team: 0,
    x: 1000,
    y: 1000,
    owner: Some(0),
};

const FRIEND: Spawn = Spawn {
    owner: Some(1),
    ..PLAYER
};

const ENEMY: Spawn = Spawn { team: 1, ..FRIEND };

const MINE: Spawn = Spawn {
    kind: 2,
    team: 1,
    x: 1300,
    owner: None,
    ..PLAYER
};

const DRONE: Spawn = Spawn {
    kind: 3,
    x: 1000,
    ..MINE
};

const FLAG: Spawn = Spawn { kind: 4, ..MINE };

const CLOCK: Spawn = Spawn { kind: 5, ..MINE };

// Fires without a step.
fn firing() -> MoveBits {
    bits_of_move(&Move {
        dx: 0,
        dy: 0,
        fire: true,
        act: false,
    })
}

// Steps along x with use.
fn using(dx: i8) -> MoveBits
    requires least { negsuc 7 ≤ℤ dx }
    requires most { dx ≤ℤ pos 7 }
{
    bits_of_move(&Move {
        dx,
        dy: 0,
        fire: false,
        act: true,
    })
}

// The world of two clients with the player of client 0 at (1000, 1000) and two further objects.
fn world(alloc: Global, second: Spawn, third: Spawn) -> Result<World, NoMemory>
    requires second { SpawnFits 2 second }
    requires third { SpawnFits 2 third }
    requires order { OwnersRise 2 0 (Some 0 ∷ second.owner ∷ third.owner ∷ []) }
{
    let mut spawns = Spawns::new(alloc);
    spawns.push(alloc, PLAYER)?;
    spawns.push(alloc, second)?;
    spawns.push(alloc, third)?;
    let setup = Setup {
        clients: 2,
        radius: 1000,
        spawns,
    };
    World::new(alloc, 1, &setup)
}

// Some ticks with these moves.
fn play(
    world: &mut World,
    alloc: Global,
    moves: &[Option<MoveBits>],
    ticks: u32,
) -> Result<(), NoMemory> {
    for _ in 0..ticks {
        if world.ticks() < 1000 {
            world.tick(alloc, moves)?;
        }
    }
    Ok(())
}

// The value of a field, -1 where there is none.
fn value(world: &World, object: u32, f: usize) -> i64 {
    if object < world.objects() {
        return world.values(object).get(f).copied().unwrap_or(-1);
    }
    -1
}

fn lives(world: &World, object: u32) -> bool {
    object < world.objects() && world.alive(object)
}

// The player fires once, and nothing else happens.
fn fires(alloc: Global) -> Result<World, NoMemory> {
    let mut world = world(alloc, CLOCK, CLOCK)?;
    play(&mut world, alloc, &[Some(firing())], 1)?;
    play(&mut world, alloc, &[], 1)?;
    Ok(world)
}

#[test]
fn disc_flies(rt: HostRuntime) {
    let world = fires(rt.alloc()).expect(&rt, "memory");
    assert!(rt; world.objects() == 4);
    assert!(rt; world.values(0) == [1000, 1000, 100, 19, 0].as_slice());
    assert!(rt; world.values(1) == [2, 0, 0].as_slice());
    assert!(rt; world.values(3) == [1800, 1000].as_slice());
    assert!(rt; world.kind(3) == 1 && world.block(3) == 0 && world.writes().len() == 3);
}

// The player fires in each tick, and a drone starts at its place.
fn shoots(alloc: Global, ticks: u32) -> Result<World, NoMemory> {
    let mut world = world(alloc, DRONE, CLOCK)?;
    play(&mut world, alloc, &[Some(firing())], ticks)?;
    Ok(world)
}

#[test]
fn drone_is_shot(rt: HostRuntime) {
    for (ticks, x, y, hp, alive, score) in [
        (1, 1050, 989, 100, true, 0),
        (2, 1082, 1031, 75, true, 1),
        (4, 1091, 1072, 25, true, 3),
        (5, 1068, 1071, 0, false, 4),
        (7, 1068, 1071, 0, false, 4),
    ] {
        let world = shoots(rt.alloc(), ticks).expect(&rt, "memory");
        let told = [
            value(&world, 1, 0),
            value(&world, 1, 1),
            value(&world, 1, 2),
            value(&world, 0, 4),
        ];
        assert!(rt; told == [x, y, hp, score] && lives(&world, 1) == alive);
    }
}

// A mine lies 300 from the player, and a friend stands at x.
fn mined(alloc: Global, x: u16, ticks: u32) -> Result<World, NoMemory> {
    let friend = Spawn {
        x: i64::from(x),
        ..FRIEND
    };
    let mut world = world(alloc, friend, MINE)?;
    play(&mut world, alloc, &[], ticks)?;
    Ok(world)
}

#[test]
fn mine_with_two_victims(rt: HostRuntime) {
    for (x, ticks, hp, friend_hp, armed, alive) in [
        (1600, 9, 100, 100, 0, true),
        (1600, 10, 100, 100, 1, true),
        (1600, 11, 50, 50, 1, false),
        (1601, 12, 50, 100, 1, false),
    ] {
        let world = mined(rt.alloc(), x, ticks).expect(&rt, "memory");
        let told = [
            value(&world, 0, 2),
            value(&world, 1, 2),
            value(&world, 2, 2),
        ];
        assert!(rt; told == [hp, friend_hp, armed] && lives(&world, 2) == alive);
    }
}

// The player and a friend make these moves, both 300 from a flag.
fn taken(alloc: Global, moves: &[Option<MoveBits>]) -> Result<World, NoMemory> {
    let mut world = world(alloc, FRIEND, FLAG)?;
    play(&mut world, alloc, moves, 1)?;
    Ok(world)
}

#[test]
fn two_takers(rt: HostRuntime) {
    for (first, second, holder) in [
        (Some(using(0)), Some(using(0)), 1),
        (Some(firing()), Some(using(0)), 2),
        (None, Some(using(0)), 2),
        (None, None, 0),
    ] {
        let world = taken(rt.alloc(), &[first, second]).expect(&rt, "memory");
        assert!(rt; value(&world, 2, 2) == holder);
    }
}

// The player goes along x and uses, some ticks out and some back. A flag of the other team lies 700 away.
fn fetch(alloc: Global, out: u32, back: u32) -> Result<World, NoMemory> {
    let flag = Spawn { x: 1700, ..FLAG };
    let mut world = world(alloc, flag, CLOCK)?;
    play(&mut world, alloc, &[Some(using(4))], out)?;
    play(&mut world, alloc, &[Some(using(-4))], back)?;
    Ok(world)
}

#[test]
fn flag_comes_home(rt: HostRuntime) {
    for (out, back, x, holder, red) in [
        (4, 0, 1700, 0, 0),
        (5, 0, 1700, 1, 0),
        (6, 0, 1600, 1, 0),
        (5, 2, 1300, 1, 0),
        (5, 3, 1700, 0, 1),
    ] {
        let world = fetch(rt.alloc(), out, back).expect(&rt, "memory");
        let told = [
            value(&world, 1, 0),
            value(&world, 1, 2),
            value(&world, 2, 1),
        ];
        assert!(rt; told == [x, holder, red]);
    }
}

// Two enemies at one place fire in each tick: in six ticks each fires five times, falls and is home again.
fn brawl(alloc: Global, ticks: u32) -> Result<World, NoMemory> {
    let mut world = world(alloc, ENEMY, CLOCK)?;
    play(&mut world, alloc, &[Some(firing()), Some(firing())], ticks)?;
    Ok(world)
}

#[test]
fn last_object(rt: HostRuntime) {
    for (ticks, objects, hp, enemy_hp) in [
        (612, 1023, 100, 100),
        (613, 1024, 100, 100),
        (614, 1024, 100, 75),
    ] {
        let world = brawl(rt.alloc(), ticks).expect(&rt, "memory");
        let told = [value(&world, 0, 2), value(&world, 1, 2)];
        assert!(rt; world.objects() == objects && told == [hp, enemy_hp]);
    }
}
