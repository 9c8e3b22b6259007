//! Places in the field, and steps.
ghost use Rattle.std.specs.Prelude.{◌≡◌, ◌≤ℤ◌, ◌+ℤ◌, ◌*ℤ◌, ℤ, pos, negsuc};
ghost use Rattle.world_rules.specs.Places.{apart, is_within, clamp, is_in_field, stepped};
ghost use Rattle.world_rules.specs.Players.{spent, natural, signed_step};

use crate::limits::MAX_COORDINATE;
use crate::measures::PLAYER_STEP;
use crate::object::{MAX_AMMO, Place};
use tn_types::Move;

// How far two numbers are apart.
fn apart(a: u32, b: u32) -> u32
    ensures { result ≡ apart a b }
{
    a.abs_diff(b)
}

/// Whether two places are within this reach, the reach itself included. The distance is the greater of both ways.
#[tactic(auto, unfolding(crate::specs::Places::is_within))]
pub fn is_within(reach: u32, a: &Place, b: &Place) -> bool
    ensures { result ≡ is_within reach a.now b.now }
{
    apart(a.x, b.x) <= reach && apart(a.y, b.y) <= reach
}

// The number, brought into the field.
pub(crate) fn clamp(z: i64) -> u32
    ensures { result ≡ clamp z }
{
    if z < 0 {
        0
    } else if z > i64::from(MAX_COORDINATE) {
        MAX_COORDINATE
    } else {
        z as u32
    }
}

// Whether a coordinate lies in the field.
pub(crate) fn is_in_field(z: i64) -> bool
    ensures { result ≡ is_in_field z }
{
    0 <= z && z <= i64::from(MAX_COORDINATE)
}

// A number times a small one.
fn scaled(k: i64, d: i8) -> i64
    requires least { pos 0 ≤ℤ k }
    requires most { k ≤ℤ pos 1000 }
    ensures { result ≡ k *ℤ d }
{
    k * i64::from(d)
}

// The coordinate that is so far along, in the field.
pub(crate) fn along(x: u32, by: i64) -> u32
    requires least { negsuc 2147483647 ≤ℤ by }
    requires most { by ≤ℤ pos 2147483647 }
    ensures { result ≡ clamp (pos x +ℤ by) }
{
    clamp(i64::from(x) + by)
}

/// Where a player is after a step.
pub fn stepped(place: &Place, m: &Move) -> Place
    ensures { result ≡ stepped place.now m.now }
{
    Place {
        x: along(place.x, scaled(PLAYER_STEP, m.dx)),
        y: along(place.y, scaled(PLAYER_STEP, m.dy)),
    }
}

/// Where a standing player is after a move, and its ammo (docs/world.md, "Players"). x and y are 0 to 65,535, ammo 0
/// to 20.
pub fn step_player(x: i64, y: i64, ammo: i64, m: Move) -> (i64, i64, i64)
    requires x_least { pos 0 ≤ℤ x }
    requires x_most { x ≤ℤ pos MAX_COORDINATE }
    requires y_least { pos 0 ≤ℤ y }
    requires y_most { y ≤ℤ pos MAX_COORDINATE }
    requires ammo_least { pos 0 ≤ℤ ammo }
    requires ammo_most { ammo ≤ℤ pos MAX_AMMO }
    ensures { result ≡ signed_step x y ammo m }
{
    let place = Place {
        x: natural(x),
        y: natural(y),
    };
    let next = stepped(&place, &m);
    let left = spent(natural(ammo), m.fire);
    (i64::from(next.x), i64::from(next.y), i64::from(left))
}

// A number that isn't below 0.
fn natural(z: i64) -> u32
    requires least { pos 0 ≤ℤ z }
    requires most { z ≤ℤ pos MAX_COORDINATE }
    ensures { result ≡ natural z }
{
    z as u32
}

// Ammo after a move that fires or not.
pub(crate) fn spent(ammo: u32, fire: bool) -> u32
    ensures { result ≡ spent ammo fire }
{
    if fire { ammo.saturating_sub(1) } else { ammo }
}
