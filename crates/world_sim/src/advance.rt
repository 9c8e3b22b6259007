//! A tick of the objects and of all that is kept beside them: what it finds, then each object's turn, then the discs that are made.
ghost use Rattle.std.specs.Prelude.{◌≡◌, vec_capacity, ◌≤◌, ◌+◌, ◌*◌, ◌++◌, length, map, OnOk, OnErr, []};
ghost use Rattle.std.specs.List.{AllByRecursion};
ghost use Rattle.world_rules.specs.Next.{objects_next, discs_made};
ghost use Rattle.world_rules.specs.Ranges.{ObjectFits};
ghost use Rattle.world_rules.specs.Identity.{LivesOn};
ghost use Rattle.world_cells.specs.Cells.{IsGrid};
ghost use Rattle.world_places.specs.Places.{ArePlaced};
ghost use Rattle.world_sim.specs.Rows.{values_of, world_writes};
ghost use Rattle.world_sim.specs.RowsNext.{fresh_row, row_values, row_counts, rows_next, IsSoundRow};
ghost use Rattle.world_sim.specs.Found.{AreFound, PlayersFirst};
ghost use Rattle.world_sim.specs.Glances.{glance_of};
ghost use Rattle.world_sim.specs.Turns.{HasGoing};

use crate::discs::make_discs;
use crate::found::{Found, captures_of, find_all, nothing};
use crate::glance::{Glance, glance_of};
use crate::rows::{Row, Write, fresh_row};
use crate::step::{Old, turn_all};
use crate::table::Table;
use std::alloc::{AllocError, Global};
use tn_types::{MAX_CLIENTS, MAX_OBJECTS, MoveBits};
use world_cells::{Cells, NumberSet};
use world_places::Places;
use world_rules::Object;

/// Writes of a tick at the most: five fields of each object.
pub const MAX_WRITES: usize = 5 * MAX_OBJECTS;

/// What a tick works in. All room is made at the start.
#[derive(Drop)]
pub struct Work {
    pub made: Vec<Object>,
    pub found: Found,
}

/// Room for a tick.
pub fn workroom(alloc: Global) -> Result<Work, AllocError> {
    Ok(Work {
        made: Vec::with_capacity(alloc, MAX_CLIENTS as usize)?,
        found: nothing(alloc)?,
    })
}

// What a tick goes by: what is found, the discs that are made, and the room that it needs.
fn prepare(
    objects: &mut Vec<Object>,
    rows: &mut Vec<Row>,
    glances: &mut Vec<Glance>,
    cells: &Cells,
    going: &NumberSet,
    moves: &[Option<MoveBits>],
    work: &mut Work,
) -> Result<(), AllocError>
    requires few { length objects.old.items ≤ MAX_OBJECTS }
    requires going { HasGoing going.now objects.old.items }
    requires grid { IsGrid cells.now objects.old.items }
    requires glances { glances.old.items ≡ map glance_of objects.old.items }
    requires first { PlayersFirst objects.old.items }
    requires alive { AllByRecursion LivesOn objects.old.items }
    requires fits { AllByRecursion ObjectFits objects.old.items }
    ensures objects { objects.new.items ≡ objects.old.items }
    ensures rows { rows.new.items ≡ rows.old.items }
    ensures glances { glances.new.items ≡ glances.old.items }
    ensures found { OnOk result (AreFound objects.old.items work.new.found) }
    ensures made { OnOk result (work.new.made.items ≡ discs_made objects.old.items moves.now) }
    ensures few { OnOk result (length objects.old.items + length work.new.made.items ≤ MAX_OBJECTS) }
    ensures room { OnOk result (length objects.old.items + length work.new.made.items ≤ vec_capacity objects.new) }
    ensures rows_room { OnOk result (length rows.old.items + length work.new.made.items ≤ vec_capacity rows.new) }
    ensures glances_room { OnOk result (length glances.old.items + length work.new.made.items ≤ vec_capacity glances.new) }
{
    find_all(cells, objects, glances, going, &mut work.found)?;
    let room = MAX_OBJECTS - objects.len();
    make_discs(&work.found.standing, moves, room, &mut work.made)?;
    objects.reserve(work.made.len())?;
    rows.reserve(work.made.len())?;
    glances.reserve(work.made.len())?;
    Ok(())
}

// The discs that were made, after the other objects.
fn add_made(
    made: &[Object],
    objects: &mut Vec<Object>,
    rows: &mut Vec<Row>,
    glances: &mut Vec<Glance>,
    cells: &mut Cells,
    places: &mut Places,
)
    requires few { length objects.old.items + length made.now ≤ MAX_OBJECTS }
    requires room { length objects.old.items + length made.now ≤ vec_capacity objects.old }
    requires rows_room { length rows.old.items + length made.now ≤ vec_capacity rows.old }
    requires glances_room { length glances.old.items + length made.now ≤ vec_capacity glances.old }
    requires glances { glances.old.items ≡ map glance_of objects.old.items }
    requires grid { IsGrid cells.old objects.old.items }
    requires placed { ArePlaced places.old objects.old.items }
    requires fits { AllByRecursion ObjectFits (objects.old.items ++ made.now) }
    ensures objects { objects.new.items ≡ objects.old.items ++ made.now }
    ensures rows { rows.new.items ≡ rows.old.items ++ map fresh_row made.now }
    ensures glances { glances.new.items ≡ map glance_of objects.new.items }
    ensures grid { IsGrid cells.new objects.new.items }
    ensures placed { ArePlaced places.new objects.new.items }
{
    for o in made {
        cells.settle(objects.len() as u32, o);
        places.settle(objects.len() as u32, o);
        rows.push_reserved(fresh_row(o));
        glances.push_reserved(glance_of(o));
        objects.push_reserved(*o);
    }
}

// No writes yet, and room for those of a tick.
fn make_room(writes: &mut Vec<Write>) -> Result<(), AllocError>
    ensures none { OnOk result (writes.new.items ≡ []) }
    ensures room { OnOk result (5 * MAX_OBJECTS ≤ vec_capacity writes.new) }
{
    writes.clear();
    writes.reserve(MAX_WRITES)
}

/// The objects and all that is kept of them after a tick, and what the tick writes. For want of memory all but the writes stay.
pub fn advance(
    table: &mut Table,
    moves: &[Option<MoveBits>],
    seed: u32,
    tick: u32,
    work: &mut Work,
) -> Result<(), AllocError>
    requires few { length table.old.objects.items ≤ MAX_OBJECTS }
    requires going { HasGoing table.old.going table.old.objects.items }
    requires kept { map row_values table.old.rows.items ≡ map values_of table.old.objects.items }
    requires sound { AllByRecursion IsSoundRow table.old.rows.items }
    requires grid { IsGrid table.old.beside.cells table.old.objects.items }
    requires placed { ArePlaced table.old.beside.places table.old.objects.items }
    requires glances { table.old.glances.items ≡ map glance_of table.old.objects.items }
    requires first { PlayersFirst table.old.objects.items }
    requires alive { AllByRecursion LivesOn table.old.objects.items }
    requires fits { AllByRecursion ObjectFits table.old.objects.items }
    ensures objects { OnOk result (table.new.objects.items
        ≡ objects_next table.old.objects.items moves.now (record { seed = seed; tick = tick })) }
    ensures rows { OnOk result (table.new.rows.items ≡ rows_next table.old.rows.items table.new.objects.items) }
    ensures writes { OnOk result (table.new.beside.writes.items
        ≡ world_writes 0 table.old.objects.items table.new.objects.items (map row_counts table.old.rows.items)) }
    ensures glances { OnOk result (table.new.glances.items ≡ map glance_of table.new.objects.items) }
    ensures grid { OnOk result (IsGrid table.new.beside.cells table.new.objects.items) }
    ensures placed { OnOk result (ArePlaced table.new.beside.places table.new.objects.items) }
    ensures going { OnOk result (HasGoing table.new.going table.new.objects.items) }
    ensures same { OnErr result (table.new.objects.items ≡ table.old.objects.items) }
    ensures rows_same { OnErr result (table.new.rows.items ≡ table.old.rows.items) }
    ensures glances_same { OnErr result (table.new.glances.items ≡ table.old.glances.items) }
    ensures cells_same { OnErr result (table.new.beside.cells ≡ table.old.beside.cells) }
    ensures places_same { OnErr result (table.new.beside.places ≡ table.old.beside.places) }
    ensures going_same { OnErr result (table.new.going ≡ table.old.going) }
{
    prepare(
        &mut table.objects,
        &mut table.rows,
        &mut table.glances,
        &table.beside.cells,
        &table.going,
        moves,
        work,
    )?;
    make_room(&mut table.beside.writes)?;
    let red = captures_of(&table.objects, &work.found.picked.flags, 0) as u32;
    let blue = captures_of(&table.objects, &work.found.picked.flags, 1) as u32;
    let old = Old {
        found: &work.found,
        red,
        blue,
        moves,
        seed,
        tick,
    };
    turn_all(&old, table);
    add_made(
        &work.made,
        &mut table.objects,
        &mut table.rows,
        &mut table.glances,
        &mut table.beside.cells,
        &mut table.beside.places,
    );
    Ok(())
}
