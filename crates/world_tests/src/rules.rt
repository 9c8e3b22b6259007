//! Of `world_rules`: rules at their edges, and chances as they were computed elsewhere.
use bit_stream::bits_of_move;
use tn_types::Move;
use world_rules::fire::fired;
use world_rules::movers::{disc_next, drawn, drone_next};
use world_rules::places::is_within;
use world_rules::{Disc, Drone, Object, Place, Player, State, match_kinds, step_player};

const HOME: Place = Place { x: 1000, y: 1000 };

// A living object of team 0 in block 3, whose home is (1000, 1000).
fn object(x: u32, y: u32, state: State) -> Object {
    Object {
        block: 3,
        team: 0,
        home: HOME,
        alive: true,
        place: Place { x, y },
        state,
    }
}

#[test]
fn step_at_the_edge(rt: HostRuntime) {
    let m = Move {
        dx: -1,
        dy: 7,
        fire: true,
        act: false,
    };
    let steps = [step_player(10, 65_530, 1, m), step_player(1000, 1000, 0, m)];
    assert!(rt; steps == [(0, 65_535, 0), (975, 1175, 0)]);
}

// Whether a kind of the match is always seen.
fn is_always_seen(number: u8) -> Option<bool> {
    let kinds = match_kinds();
    match kinds.kind(number) {
        Some(kind) => Some(kind.always),
        None => None,
    }
}

#[test]
fn always_seen(rt: HostRuntime) {
    let seen = [is_always_seen(3), is_always_seen(4), is_always_seen(6)];
    assert!(rt; seen == [Some(false), Some(true), None]);
}

#[test]
fn within(rt: HostRuntime) {
    for (x, y, near) in [
        (1200, 800, true),
        (1201, 1000, false),
        (1000, 799, false),
        (800, 1200, true),
    ] {
        assert!(rt; is_within(200, &HOME, &Place { x, y }) == near);
    }
}

// Where a disc at 5 along y is after a tick, and whether it lives.
fn flown(x: u32, vx: i32, age: u32) -> (u32, bool) {
    let disc = Disc {
        owner: 2,
        vx,
        vy: 0,
        age,
    };
    let next = disc_next(false, &object(x, 5, State::Disc(disc)), &disc);
    (next.place.x, next.alive)
}

#[test]
fn discs(rt: HostRuntime) {
    for (x, vx, age, to_x, alive) in [
        (1000, 800, 18, 1800, true),
        (1000, 800, 19, 1000, false),
        (64_735, 800, 0, 65_535, true),
        (64_736, 800, 0, 64_736, false),
        (800, -800, 0, 0, true),
        (799, -800, 0, 799, false),
    ] {
        assert!(rt; flown(x, vx, age) == (to_x, alive));
    }
}

// Where a drone at (1000, 1000) is after a tick.
fn drifted(r: u32) -> Place {
    let drone = Drone { number: 1, hp: 100 };
    let next = drone_next(r, 0, &object(1000, 1000, State::Drone(drone)), &drone);
    next.place
}

#[test]
fn chances(rt: HostRuntime) {
    for (seed, number, tick, r, x, y) in [
        (1, 1, 1, 34_642, 1050, 989),
        (7, 3, 1, 43_194, 1017, 973),
        (4_294_967_295, 1023, 100_000, 3703, 1017, 986),
    ] {
        assert!(rt; drawn(seed, number, tick) == r && drifted(r) == Place { x, y });
    }
}

// The velocity of the disc that a player with this hp and ammo fires.
fn shot(hp: u32, ammo: u32, m: Move) -> Option<(i32, i32)> {
    let player = Player {
        client: 0,
        hp,
        ammo,
        score: 0,
    };
    match fired(
        &[Some(bits_of_move(&m))],
        &object(5, 5, State::Player(player)),
    )?
    .state
    {
        State::Disc(disc) => Some((disc.vx, disc.vy)),
        _ => None,
    }
}

#[test]
fn shots(rt: HostRuntime) {
    let still = Move {
        dx: 0,
        dy: 0,
        fire: true,
        act: false,
    };
    let ahead = Move {
        dx: 7,
        dy: -8,
        fire: true,
        act: false,
    };
    let shots = [
        shot(1, 1, still),
        shot(1, 1, ahead),
        shot(1, 0, still),
        shot(0, 1, still),
    ];
    assert!(rt; shots == [Some((800, 0)), Some((700, -800)), None, None]);
}
