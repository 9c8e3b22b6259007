//! Players, discs, mines and drones, each after one tick.
ghost use Rattle.std.specs.Prelude.{◌≡◌, true, ◌<◌, ◌+ℤ◌, ◌-ℤ◌, pos};
ghost use Rattle.world_rules.specs.Places.{clamp};
ghost use Rattle.world_rules.specs.Discs.{disc_next, flown, aged, is_leaving};
ghost use Rattle.world_rules.specs.Mines.{mine_next};
ghost use Rattle.world_rules.specs.Players.{player_next};
ghost use Rattle.world_rules.specs.Drones.{drawn, drone_next};
ghost use Rattle.world_rules.specs.declared.object.State.TheVariants.{Drone as drone_of};

use crate::limits::MAX_COORDINATE;
use crate::measures::{
    ARMING_AGE, CHANCE_BY_NUMBER, CHANCE_BY_TICK, CHANCE_SPREAD, DRONE_DRIFT, DRONE_WAYS,
};
use crate::object::{
    Disc, Drone, MAX_AGE, MAX_AMMO, MAX_HP, MAX_SCORE, Mine, Object, Place, Player, State,
};
use crate::places::{along, is_in_field, spent, stepped};
use tn_types::Move;

/// A player after the tick: `harm` is what it loses, `scored` how many of its discs hit.
#[tactic(auto, unfolding(crate::specs::Players::player_next))]
pub fn player_next(harm: u32, scored: u32, o: &Object, p: &Player, m: &Move) -> Object
    ensures { result ≡ player_next harm scored o.now p.now m.now }
{
    let score = p.score.saturating_add(scored).min(MAX_SCORE);
    if p.hp > 0 {
        Object {
            place: stepped(&o.place, m),
            state: State::Player(Player {
                hp: p.hp.saturating_sub(harm),
                ammo: spent(p.ammo, m.fire),
                score,
                ..*p
            }),
            ..*o
        }
    } else {
        Object {
            place: o.home,
            state: State::Player(Player {
                hp: MAX_HP,
                ammo: MAX_AMMO,
                score,
                ..*p
            }),
            ..*o
        }
    }
}

// The velocity leads out of the field.
fn is_leaving(place: &Place, d: &Disc) -> bool
    ensures { result ≡ is_leaving place.now d.now }
{
    !(is_in_field(i64::from(place.x) + i64::from(d.vx))
        && is_in_field(i64::from(place.y) + i64::from(d.vy)))
}

// A disc that hits nothing.
fn flown(o: &Object, d: &Disc) -> Object
    ensures { result ≡ flown o.now d.now }
{
    let age = aged(d.age);
    let vx = i64::from(d.vx);
    let vy = i64::from(d.vy);
    if age >= MAX_AGE || is_leaving(&o.place, d) {
        Object {
            alive: false,
            state: State::Disc(Disc { age, ..*d }),
            ..*o
        }
    } else {
        Object {
            place: Place {
                x: along(o.place.x, vx),
                y: along(o.place.y, vy),
            },
            state: State::Disc(Disc { age, ..*d }),
            ..*o
        }
    }
}

// An age after one more tick.
fn aged(age: u32) -> u32
    ensures { result ≡ aged age }
{
    age.saturating_add(1).min(MAX_AGE)
}

/// A disc after the tick.
#[tactic(auto, unfolding(crate::specs::Discs::disc_next))]
pub fn disc_next(hitting: bool, o: &Object, d: &Disc) -> Object
    ensures { result ≡ disc_next hitting o.now d.now }
{
    if !o.alive {
        *o
    } else if hitting {
        Object { alive: false, ..*o }
    } else {
        flown(o, d)
    }
}

/// A mine after the tick.
pub fn mine_next(triggered: bool, o: &Object, m: &Mine) -> Object
    ensures { result ≡ mine_next triggered o.now m.now }
{
    let mut now = *o;
    turn_mine(triggered, &mut now, m);
    now
}

/// The same in place.
#[tactic(auto, unfolding(crate::specs::Mines::mine_next))]
pub fn turn_mine(triggered: bool, o: &mut Object, m: &Mine)
    ensures { o.new ≡ mine_next triggered o.old m.now }
{
    if !o.alive {
        return;
    }
    if triggered {
        o.alive = false;
        return;
    }
    let age = aged(m.age);
    let armed = m.armed || age >= ARMING_AGE;
    o.state = State::Mine(Mine { armed, age });
}

/// The chance of a drone in a tick: a number below 65,536.
#[tactic(auto, using(crate::proofs::Drawn::drawn_is), unfolding(crate::specs::Drones::drawn))]
pub fn drawn(seed: u32, number: u32, tick: u32) -> u32
    ensures { result ≡ drawn seed number tick }
{
    let by_drone = CHANCE_BY_NUMBER * u64::from(number);
    let by_tick = CHANCE_BY_TICK * u64::from(tick);
    let sum = u64::from(seed) + 1 + by_drone + by_tick;
    ((sum % (1 << 32)) * CHANCE_SPREAD % (1 << 32) / 65536) as u32
}

/// A drone after the tick: `r` is its chance, `harm` what it loses.
#[tactic(auto, unfolding(crate::specs::Drones::drone_next))]
pub fn drone_next(r: u32, harm: u32, o: &Object, d: &Drone) -> Object
    ensures { result ≡ drone_next r harm o.now d.now }
{
    if !o.alive {
        return *o;
    }
    Object {
        alive: harm < d.hp,
        place: Place {
            x: drifted(o.place.x, r % DRONE_WAYS),
            y: drifted(o.place.y, r / DRONE_WAYS % DRONE_WAYS),
        },
        state: State::Drone(Drone {
            hp: d.hp.saturating_sub(harm),
            ..*d
        }),
        ..*o
    }
}

/// The tick of a living drone that nothing hits, where it lies: it only drifts.
#[tactic(auto, unfolding(crate::specs::Drones::drone_next))]
pub fn drift_drone(r: u32, o: &mut Object, d: &Drone)
    requires alive { o.old.alive ≡ true }
    requires drone { o.old.state ≡ drone_of d.now }
    requires whole { 0 < d.now.hp }
    ensures { o.new ≡ drone_next r 0 o.old d.now }
{
    o.place.x = drifted(o.place.x, r % DRONE_WAYS);
    o.place.y = drifted(o.place.y, r / DRONE_WAYS % DRONE_WAYS);
}

/// A living drone's tick, where it lies.
#[tactic(auto, unfolding(crate::specs::Drones::drone_next))]
pub fn turn_drone(r: u32, harm: u32, o: &mut Object, d: &Drone)
    requires alive { o.old.alive ≡ true }
    requires drone { o.old.state ≡ drone_of d.now }
    ensures { o.new ≡ drone_next r harm o.old d.now }
{
    o.place.x = drifted(o.place.x, r % DRONE_WAYS);
    o.place.y = drifted(o.place.y, r / DRONE_WAYS % DRONE_WAYS);
    if harm > 0 || d.hp == 0 {
        o.alive = harm < d.hp;
        o.state = State::Drone(Drone {
            hp: d.hp.saturating_sub(harm),
            ..*d
        });
    }
}

// A coordinate after a drift to either side.
fn drifted(x: u32, by: u32) -> u32
    requires { by < DRONE_WAYS }
    ensures { result ≡ clamp (pos x +ℤ (pos by -ℤ pos DRONE_DRIFT)) }
{
    let at = u64::from(x) + u64::from(by);
    at.saturating_sub(u64::from(DRONE_DRIFT))
        .min(u64::from(MAX_COORDINATE)) as u32
}
