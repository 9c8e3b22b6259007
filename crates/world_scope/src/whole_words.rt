//! The levels of 64 objects at once, and lists of all 64: loops of fixed length, which become vector code.
ghost use Rattle.std.specs.Prelude.{◌≡◌, ◌↔◌, ℕ, ◌≤◌, ◌<◌, ◌+◌, ◌-◌, ◌*◌, ◌/◌, ◌^◌, ◌++◌, IfOk, IfErr, OnErr, length, max, min, vec_capacity, slice_index_or, true, take, ◌⊎◌};
ghost use Rattle.world_rules.specs.declared.limits.TheConstants.{MAX_COORDINATE};
ghost use Rattle.world_places.specs.Places.{AreOf64, place_at};
ghost use Rattle.world_scope.specs.Sight.{distance};
ghost use Rattle.world_scope.specs.Views.{IsReady};
ghost use Rattle.world_scope.specs.Rings.{AreLevels, AreRings, center, rings_out, entries};

use crate::viewer::{Seen, Viewer};
use std::sync::ledger::Ledger;
use tn_types::Steps;
use world_places::PlaceWord;
use world_rules::MAX_COORDINATE;
use world_sim::World;

/// Where a viewer looks from, and how far each quarter of its reach goes, in 16 bits; what goes further than the field ends with it.
#[derive(Clone, Copy)]
pub struct Rings {
    pub x: u16,
    pub y: u16,
    pub first: u16,
    pub second: u16,
    pub third: u16,
    /// How far away the last that is seen lies.
    pub reach: u16,
}

// How far so many quarters of a reach go.
fn end_of(quarters: u64, reach: u64) -> u16
    requires quarters { quarters ≤ 4 }
    requires reach { reach ≤ 2 ^ 32 }
    ensures { result ≡ min ((quarters * reach - 1) / 4) MAX_COORDINATE }
{
    ((quarters * reach).saturating_sub(1) / 4).min(u64::from(MAX_COORDINATE)) as u16
}

// How far two coordinates are from one another, the greater of both ways.
#[inline(always)]
fn away(rings: &Rings, x: u16, y: u16) -> u16
    ensures { result ≡ distance (center rings.now) (record { x = x; y = y }) }
{
    rings.x.abs_diff(x).max(rings.y.abs_diff(y))
}

// How many of three quarters end before it.
#[inline(always)]
fn level(rings: &Rings, away: u16) -> u16
    ensures { result ≡ rings_out rings.now away }
{
    u16::from(away > rings.first) + u16::from(away > rings.second) + u16::from(away > rings.third)
}

#[inline(always)]
fn greater(a: u16, b: u16) -> u16
    ensures { result ≡ max a b }
{
    a.max(b)
}

impl Rings {
    /// Those of a viewer.
    pub fn of(viewer: &Viewer) -> Rings
        requires { IsReady viewer.now }
        ensures { AreRings result viewer.now }
    {
        Rings {
            x: viewer.place.x as u16,
            y: viewer.place.y as u16,
            first: end_of(1, viewer.reach),
            second: end_of(2, viewer.reach),
            third: end_of(3, viewer.reach),
            reach: end_of(4, viewer.reach),
        }
    }
}

// How many quarters end before each of 64 objects, and how far the furthest is away.
#[inline(always)]
fn levels_of(rings: &Rings, places: &PlaceWord<'_>, levels: &mut [u16; 64]) -> u16
    requires { AreOf64 places.now }
    ensures levels { (k : ℕ) → k < 64
        → slice_index_or levels.new k 0 ≡ rings_out rings.now (distance (center rings.now) (place_at places.now k)) }
    ensures furthest { (k : ℕ) → k < 64 → distance (center rings.now) (place_at places.now k) ≤ result }
    ensures least { (most : ℕ) → ((k : ℕ) → k < 64 → distance (center rings.now) (place_at places.now k) ≤ most) → result ≤ most }
{
    let mut furthest = 0;
    for k in 0..64 {
        let away = away(rings, places.xs[k], places.ys[k]);
        furthest = greater(furthest, away);
        levels[k] = level(rings, away);
    }
    furthest
}

/// The level of each of 64 objects, if all lie within reach. Levels are 16 bits wide: the loop that compares coordinates of 16 bits
/// makes them so, since to narrow them there as well doesn't become good vector code, and the loop that makes entries narrows them for
/// nothing.
#[inline(always)]
pub fn has_levels(viewer: &Viewer, places: &PlaceWord<'_>, levels: &mut [u16; 64]) -> bool
    requires many { AreOf64 places.now }
    requires ready { IsReady viewer.now }
    requires player { 0 < viewer.now.reach }
    ensures levels { result ≡ true → AreLevels levels.new viewer.now places.now }
    ensures reached { ((k : ℕ) → k < 64 → distance viewer.now.place (place_at places.now k) < viewer.now.reach) → result ≡ true }
{
    let rings = Rings::of(viewer);
    let furthest = levels_of(&rings, places, levels);
    furthest <= rings.reach
}

// Each of 64 objects from a number on, at its level, after a list with room for them. The list is given and taken back, so that
// its end stays in a register. Numbers are counted along by themselves: sums with the loop's counter become worse vector code.
#[inline(always)]
fn push_all(levels: &[u16; 64], from: u32, out: Vec<Seen>) -> Vec<Seen>
    requires few { (k : ℕ) → k < 64 → slice_index_or levels.now k 0 ≤ 3 }
    requires from { from + 64 < 2 ^ 32 }
    requires room { length out.items + 64 ≤ vec_capacity out }
    ensures items { result.items ≡ out.items ++ entries from levels.now }
    ensures capacity { vec_capacity result ≡ vec_capacity out }
{
    let mut list = out;
    let mut object = from;
    for k in 0..64 {
        list.push_reserved(Seen {
            object,
            level: levels[k] as u8,
        });
        object += 1;
    }
    list
}

// Looks at each of so many objects from a number on.
#[inline(always)]
fn look_at_all<L: Ledger>(world: &World, from: u32, count: u32, steps: &mut Steps<L>)
    requires there { from + count ≤ length world.now.objects }
    requires small { from ≤ 1024 }
    requires few { count ≤ 64 }
    ensures { steps.new ≡ steps.old + count }
{
    for k in 0..count {
        let _ = world.look(from + k, steps);
    }
}

// Room for 64 more.
#[inline(never)]
fn longer_by_64(list: Vec<Seen>) -> Result<Vec<Seen>, Vec<Seen>>
    ensures ok { IfOk result (λ longer. (longer.items ≡ list.items) × (length longer.items + 64 ≤ vec_capacity longer)) }
    ensures room { OnErr result (vec_capacity list < length list.items + 64) }
    ensures kept { IfOk result (λ longer. vec_capacity list ≤ vec_capacity longer) }
    ensures kept_err { IfErr result (λ longer. vec_capacity list ≤ vec_capacity longer) }
{
    let mut longer = list;
    match longer.reserve(64) {
        Ok(()) => Ok(longer),
        Err(_) => Err(longer),
    }
}

// The list with 64 more, each at its level.
#[inline(always)]
fn with_all(levels: &[u16; 64], from: u32, list: Vec<Seen>) -> Result<Vec<Seen>, Vec<Seen>>
    requires few { (k : ℕ) → k < 64 → slice_index_or levels.now k 0 ≤ 3 }
    requires from { from + 64 < 2 ^ 32 }
    ensures ok { IfOk result (λ longer. longer.items ≡ list.items ++ entries from levels.now) }
    ensures room { OnErr result (vec_capacity list < length list.items + 64) }
    ensures kept { IfOk result (λ longer. vec_capacity list ≤ vec_capacity longer) }
    ensures kept_err { IfErr result (λ longer. vec_capacity list ≤ vec_capacity longer) }
{
    if list.capacity() - list.len() >= 64 {
        Ok(push_all(levels, from, list))
    } else {
        Ok(push_all(levels, from, longer_by_64(list)?))
    }
}

// Only so many of a list.
#[inline(always)]
fn first(list: Vec<Seen>, count: usize) -> Vec<Seen>
    ensures items { result.items ≡ take count list.items }
    ensures kept { vec_capacity result ≡ vec_capacity list }
{
    let mut out = list;
    out.truncate(count);
    out
}

/// Whether a list has room for all 64, or may ask for it: only where all of them are there.
#[inline(always)]
pub fn has_room(list: &Vec<Seen>, count: usize) -> bool
    ensures { (result ≡ true) ↔ ((count ≡ 64) ⊎ (length list.now.items + 64 ≤ vec_capacity list.now)) }
{
    count == 64 || list.capacity() - list.len() >= 64
}

/// Looks at each of so many objects from a number on, all of which are seen. All 64 are put into the list, so that the loop has a
/// fixed length, and those that aren't there taken off again.
#[inline(always)]
pub fn add_all<L: Ledger>(
    world: &World,
    levels: &[u16; 64],
    from: usize,
    count: usize,
    list: Vec<Seen>,
    steps: &mut Steps<L>,
) -> Result<Vec<Seen>, Vec<Seen>>
    requires few { (k : ℕ) → k < 64 → slice_index_or levels.now k 0 ≤ 3 }
    requires there { from + count ≤ length world.now.objects }
    requires small { from ≤ 1024 }
    requires count { count ≤ 64 }
    requires room { (count ≡ 64) ⊎ (length list.items + 64 ≤ vec_capacity list) }
    ensures ok { IfOk result (λ longer. longer.items ≡ list.items ++ entries from (take count levels.now)) }
    ensures room { OnErr result (vec_capacity list < length list.items + count) }
    ensures kept { IfOk result (λ longer. vec_capacity list ≤ vec_capacity longer) }
    ensures kept_err { IfErr result (λ longer. vec_capacity list ≤ vec_capacity longer) }
    ensures steps { steps.new ≡ steps.old + count }
{
    look_at_all(world, from as u32, count as u32, steps);
    let end = list.len() + count;
    let longer = with_all(levels, from as u32, list)?;
    Ok(first(longer, end))
}
