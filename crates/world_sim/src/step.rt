//! Each object's tick, in place, by what the tick found of all of them before anything changed.
ghost use Rattle.std.specs.Prelude.{◌≡◌, ℕ, ◌<◌, ◌≤◌, ◌-◌, ◌+◌, ◌*◌, ◌/◌, ◌++◌, ◌∷◌, [], List, map, length, slice_get, slice_set, Some, true, false, vec_capacity};
ghost use Rattle.std.specs.List.{AllByRecursion};
ghost use Rattle.world_rules.specs.declared.object.Object.{Object};
ghost use Rattle.world_rules.specs.declared.object.State.TheVariants.{Drone as drone_of};
ghost use Rattle.world_rules.specs.Near.{is_target};
ghost use Rattle.world_rules.specs.Discs.{harm, hits};
ghost use Rattle.world_rules.specs.Players.{damage};
ghost use Rattle.world_rules.specs.Next.{object_next};
ghost use Rattle.world_rules.specs.Drones.{drone_next};
ghost use Rattle.world_rules.specs.Ranges.{ObjectFits};
ghost use Rattle.world_places.specs.Places.{ArePlaced};
ghost use Rattle.world_sim.specs.Rows.{values_of};
ghost use Rattle.world_sim.specs.Keeping.{HasTurn, KeepsUp};
ghost use Rattle.world_sim.specs.RowsNext.{row_values, rows_updated, rows_writes, IsSoundRow};
ghost use Rattle.world_cells.specs.Cells.{IsGrid, spot};
ghost use Rattle.world_cells.specs.declared.cells.TheConstants.{CELL_SIDE};
ghost use Rattle.world_sim.specs.Found.{AreFound, FoundFits, is_ending};
ghost use Rattle.world_sim.specs.Glances.{glance_of};
ghost use Rattle.world_sim.specs.Turns.{ArePassed, IsOld, HasGoing, is_over, is_quiet, moment};
ghost use Rattle.std.specs.Option.{option_map_or};

use crate::found::{Found, count_near, count_of};
use crate::glance::{Glance, glance_of};
use crate::mines::step_mine;
use crate::rows::{Row, change_row, change_three, change_two};
use crate::table::{Beside, Table};
use tn_types::{MAX_OBJECTS, MoveBits};
use world_cells::{CELL_SIDE, Cells, NumberSet, spot};
use world_rules::fire::move_of;
use world_rules::flags::{clock_next, flag_next};
use world_rules::measures::{DISC_HARM, DISC_REACH, MINE_HARM, MINE_REACH};
use world_rules::movers::{
    disc_next, drawn, drift_drone, drone_next, mine_next, player_next, turn_drone,
};
use world_rules::object::MAX_AGE;
use world_rules::{Drone, Object, Place, State};

/// What the rules read of the world before the tick.
#[derive(Clone, Copy)]
pub struct Old<'b, 'c> {
    pub found: &'b Found,
    /// Captures of both teams in this tick.
    pub red: u32,
    pub blue: u32,
    pub moves: &'c [Option<MoveBits>],
    pub seed: u32,
    pub tick: u32,
}

// What discs take from an object: of a target, only discs that hit are near.
fn harm(old: &Old<'_, '_>, o: &Object) -> u32
    requires { length old.now.found.now.picked.hitting.items ≤ MAX_OBJECTS }
    ensures { (os : List Object) (i : ℕ) → AreFound os old.now.found.now → slice_get os i ≡ Some o.now
        → is_target o.now ≡ true → result ≡ harm os o.now }
{
    DISC_HARM * count_near(DISC_REACH, o, &old.found.picked.hitting) as u32
}

// What discs and mines take from a player.
fn damage(old: &Old<'_, '_>, o: &Object) -> u32
    requires discs { length old.now.found.now.picked.hitting.items ≤ MAX_OBJECTS }
    requires mines { length old.now.found.now.picked.triggered.items ≤ MAX_OBJECTS }
    ensures { (os : List Object) (i : ℕ) → AreFound os old.now.found.now → slice_get os i ≡ Some o.now
        → is_target o.now ≡ true → result ≡ damage os o.now }
{
    DISC_HARM * count_near(DISC_REACH, o, &old.found.picked.hitting) as u32
        + MINE_HARM * count_near(MINE_REACH, o, &old.found.picked.triggered) as u32
}

// How many discs of a client hit.
fn hits(old: &Old<'_, '_>, client: u8) -> u32
    requires { length old.now.found.now.picked.hitting.items ≤ MAX_OBJECTS }
    ensures { (os : List Object) → AreFound os old.now.found.now → result ≡ hits os client }
{
    count_of(client, &old.found.picked.hitting) as u32
}

// An object after the tick, which ends or not as a disc that hits or a mine that is triggered.
fn object_next(old: &Old<'_, '_>, ending: bool, o: &Object) -> Object
    requires found { FoundFits old.now.found.now }
    ensures { (os : List Object) (i : ℕ) → IsOld os old.now → slice_get os i ≡ Some o.now → ending ≡ is_ending os o.now
        → result ≡ object_next os old.now.moves.now (moment old.now) o.now }
{
    match &o.state {
        State::Player(p) => {
            let m = move_of(old.moves, p.client);
            player_next(damage(old, o), hits(old, p.client), o, p, &m)
        }
        State::Disc(d) => disc_next(ending, o, d),
        State::Mine(m) => mine_next(ending, o, m),
        State::Drone(d) => drone_next(drawn(old.seed, d.number, old.tick), harm(old, o), o, d),
        State::Flag(f) => {
            let found = old.found;
            flag_next(&found.players, &found.standing, old.moves, o, f.holder)
        }
        State::Clock(c) => clock_next(old.red, old.blue, o, c),
    }
}

// Whether no tick changes an object as long as nothing triggers it: what is dead, and a mine that is old and armed.
fn is_quiet(ending: bool, o: &Object) -> bool
    ensures { result ≡ is_quiet ending o.now }
{
    if let State::Mine(m) = &o.state {
        return !o.alive || !ending && m.armed && m.age == MAX_AGE;
    }
    match &o.state {
        State::Disc(_) => !o.alive,
        State::Drone(_) => !o.alive,
        _ => false,
    }
}

// The cells after an object came here from another place, which lay in this spot. Most stay in their cells.
fn come_from(
    left: Place,
    now: Place,
    from: Option<u8>,
    number: u32,
    object: &Object,
    cells: &mut Cells,
)
    requires number { number < MAX_OBJECTS }
    requires place { now ≡ object.now.place }
    ensures { (before behind : List Object) (was : Object) → length before ≡ number → spot was ≡ from
        → (left.x / CELL_SIDE ≡ object.now.place.x / CELL_SIDE → left.y / CELL_SIDE ≡ object.now.place.y / CELL_SIDE
        → spot was ≡ spot object.now)
        → IsGrid cells.old (before ++ was ∷ behind) → IsGrid cells.new (before ++ object.now ∷ behind) }
{
    if left.x / CELL_SIDE == now.x / CELL_SIDE && left.y / CELL_SIDE == now.y / CELL_SIDE {
        return;
    }
    cells.shift(number, from, spot(object));
}

// A drone's tick where nothing hits it: it only drifts, and each field of its place is written where it lies.
fn drift(r: u32, number: u32, d: &Drone, object: &mut Object, row: &mut Row, beside: &mut Beside)
    requires turn { HasTurn number object.old row.old beside.old }
    requires drone { object.old.state ≡ drone_of d.now }
    requires alive { object.old.alive ≡ true }
    requires whole { 0 < d.now.hp }
    ensures object { object.new ≡ drone_next r 0 object.old d.now }
    ensures glance { glance_of object.new ≡ glance_of object.old }
    ensures keeps_up { KeepsUp number object.old object.new row.old row.new beside.old beside.new }
{
    let from = spot(object);
    let left = object.place;
    drift_drone(r, object, d);
    let now = object.place;
    change_two(number, row, now.x, now.y, &mut beside.writes);
    beside.places.shift(number, now.x, now.y);
    come_from(left, now, from, number, object, &mut beside.cells);
}

// A drone's tick where something hits it.
#[inline(never)]
fn hurt(
    r: u32,
    harm: u32,
    number: u32,
    d: &Drone,
    object: &mut Object,
    row: &mut Row,
    beside: &mut Beside,
)
    requires turn { HasTurn number object.old row.old beside.old }
    requires drone { object.old.state ≡ drone_of d.now }
    requires alive { object.old.alive ≡ true }
    ensures object { object.new ≡ drone_next r harm object.old d.now }
    ensures keeps_up { KeepsUp number object.old object.new row.old row.new beside.old beside.new }
{
    let from = spot(object);
    turn_drone(r, harm, object, d);
    let hp = d.hp.saturating_sub(harm);
    let place = object.place;
    change_three(number, row, place.x, place.y, hp, &mut beside.writes);
    beside.places.shift(number, place.x, place.y);
    beside.cells.shift(number, from, spot(object));
}

// A drone's tick. Most of what moves in a field are drones, and most of them nothing hits.
fn step_drone(
    old: &Old<'_, '_>,
    number: u32,
    d: Drone,
    object: &mut Object,
    row: &mut Row,
    glance: &mut Glance,
    beside: &mut Beside,
)
    requires discs { length old.now.found.now.picked.hitting.items ≤ MAX_OBJECTS }
    requires turn { HasTurn number object.old row.old beside.old }
    requires drone { object.old.state ≡ drone_of d }
    requires alive { object.old.alive ≡ true }
    requires glance { glance.old ≡ glance_of object.old }
    ensures object { (os : List Object) (i : ℕ) → IsOld os old.now → slice_get os i ≡ Some object.old
        → object.new ≡ object_next os old.now.moves.now (moment old.now) object.old }
    ensures glance { glance.new ≡ glance_of object.new }
    ensures keeps_up { KeepsUp number object.old object.new row.old row.new beside.old beside.new }
{
    let r = drawn(old.seed, d.number, old.tick);
    let harm = harm(old, object);
    if harm > 0 || d.hp == 0 {
        hurt(r, harm, number, &d, object, row, beside);
        glance.alive = object.alive;
    } else {
        drift(r, number, &d, object, row, beside);
    }
}

// The tick of an object of any kind, which the loop of turns calls, so that it keeps what a drone's turn needs at hand.
#[inline(never)]
fn step_any(
    old: &Old<'_, '_>,
    number: u32,
    ending: bool,
    object: &mut Object,
    row: &mut Row,
    glance: &mut Glance,
    beside: &mut Beside,
)
    requires found { FoundFits old.now.found.now }
    requires turn { HasTurn number object.old row.old beside.old }
    requires glance { glance.old ≡ glance_of object.old }
    ensures object { (os : List Object) (i : ℕ) → IsOld os old.now → slice_get os i ≡ Some object.old
        → ending ≡ is_ending os object.old → object.new ≡ object_next os old.now.moves.now (moment old.now) object.old }
    ensures glance { glance.new ≡ glance_of object.new }
    ensures keeps_up { KeepsUp number object.old object.new row.old row.new beside.old beside.new }
{
    let now = object_next(old, ending, object);
    change_row(number, row, &now, &mut beside.writes);
    beside.cells.resettle(number, object, &now);
    *glance = glance_of(&now);
    beside.places.settle(number, &now);
    *object = now;
}

// One object's tick, in its row, the cells and the places.
fn turn(
    old: &Old<'_, '_>,
    number: u32,
    ending: bool,
    object: &mut Object,
    row: &mut Row,
    glance: &mut Glance,
    beside: &mut Beside,
)
    requires found { FoundFits old.now.found.now }
    requires turn { HasTurn number object.old row.old beside.old }
    requires glance { glance.old ≡ glance_of object.old }
    ensures object { (os : List Object) (i : ℕ) → IsOld os old.now → slice_get os i ≡ Some object.old
        → ending ≡ is_ending os object.old → object.new ≡ object_next os old.now.moves.now (moment old.now) object.old }
    ensures glance { glance.new ≡ glance_of object.new }
    ensures keeps_up { KeepsUp number object.old object.new row.old row.new beside.old beside.new }
{
    if let State::Drone(d) = object.state {
        if object.alive {
            step_drone(old, number, d, object, row, glance, beside);
        }
        return;
    }
    if is_quiet(ending, object) {
        return;
    }
    if let State::Mine(m) = object.state {
        step_mine(number, ending, m, object, row, glance, beside);
        return;
    }
    step_any(old, number, ending, object, row, glance, beside);
}

// Takes an object that is over out of those that may still change.
fn leave_over(number: u32, glance: &Glance, going: &mut NumberSet)
    requires { number < MAX_OBJECTS }
    ensures { (objects : List Object) (o : Object) → glance.now ≡ glance_of o → number < length objects
        → (option_map_or is_over (slice_get objects number) false ≡ true → is_over o ≡ true)
        → HasGoing going.old objects → HasGoing going.new (slice_set objects number o) }
{
    if glance.is_over() {
        going.remove(number);
    }
}

// Whether a tick leaves an object as it is.
fn is_passed(glance: &Glance, ending: bool) -> bool
    ensures { (o : Object) → glance.now ≡ glance_of o → result ≡ true → is_quiet ending o ≡ true }
{
    !ending && glance.is_still()
}

// The next number from this one on whose object may change in the tick, at most the end: all before it are passed over.
#[inline(always)]
fn next_turn(
    going: &NumberSet,
    glances: &[Glance],
    marks: &[bool],
    from: usize,
    end: usize,
) -> usize
    requires order { from ≤ end }
    requires most { end ≤ MAX_OBJECTS }
    requires glances { end ≤ length glances.now }
    requires marks { end ≤ length marks.now }
    ensures order { from ≤ result }
    ensures most { result ≤ end }
    ensures passed { ArePassed going.now glances.now marks.now from result }
{
    let mut at = going.next(from, end);
    while at < end && is_passed(&glances[at], marks[at]) {
        at = going.next(at + 1, end);
    }
    at
}

/// Each object after the tick, with its row, its cell, its place and the writes. What is over has no turn.
#[inline(never)]
pub fn turn_all(old: &Old<'_, '_>, table: &mut Table)
    requires old { IsOld table.old.objects.items old.now }
    requires values { map row_values table.old.rows.items ≡ map values_of table.old.objects.items }
    requires sound { AllByRecursion IsSoundRow table.old.rows.items }
    requires glances { table.old.glances.items ≡ map glance_of table.old.objects.items }
    requires grid { IsGrid table.old.beside.cells table.old.objects.items }
    requires placed { ArePlaced table.old.beside.places table.old.objects.items }
    requires fits { AllByRecursion ObjectFits table.old.objects.items }
    requires going { HasGoing table.old.going table.old.objects.items }
    requires none { table.old.beside.writes.items ≡ [] }
    requires room { 5 * MAX_OBJECTS ≤ vec_capacity table.old.beside.writes }
    ensures objects { table.new.objects.items
        ≡ map (object_next table.old.objects.items old.now.moves.now (moment old.now)) table.old.objects.items }
    ensures rows { table.new.rows.items ≡ rows_updated (length table.old.rows.items) table.old.rows.items table.new.objects.items }
    ensures writes { table.new.beside.writes.items ≡ rows_writes 0 table.old.rows.items table.new.objects.items }
    ensures glances { table.new.glances.items ≡ map glance_of table.new.objects.items }
    ensures grid { IsGrid table.new.beside.cells table.new.objects.items }
    ensures placed { ArePlaced table.new.beside.places table.new.objects.items }
    ensures going { HasGoing table.new.going table.new.objects.items }
    ensures kept { vec_capacity table.old.objects ≤ vec_capacity table.new.objects }
    ensures rows_kept { vec_capacity table.old.rows ≤ vec_capacity table.new.rows }
    ensures glances_kept { vec_capacity table.old.glances ≤ vec_capacity table.new.glances }
{
    let many = table.objects.len();
    let mut i = next_turn(
        &table.going,
        &table.glances,
        &old.found.picked.marks,
        0,
        many,
    );
    while i < many {
        let ending = old.found.picked.marks[i];
        let object = &mut table.objects[i];
        let row = &mut table.rows[i];
        let glance = &mut table.glances[i];
        turn(
            old,
            i as u32,
            ending,
            object,
            row,
            glance,
            &mut table.beside,
        );
        leave_over(i as u32, glance, &mut table.going);
        i = next_turn(
            &table.going,
            &table.glances,
            &old.found.picked.marks,
            i + 1,
            many,
        );
    }
}
