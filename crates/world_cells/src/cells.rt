//! The cells of the field, with the numbers of the objects that lie in each, and by columns and rows which objects those are.
ghost use Rattle.std.specs.Prelude.{◌≡◌, ℕ, ◌<◌, ◌≤◌, ◌+◌, ◌*◌, ◌-◌, min, List, [], ◌∷◌, ◌++◌, length, take, IfOk, None, true, slice_index_or};
ghost use Rattle.std.specs.Int.{bit_at};
ghost use Rattle.world_cells.specs.Grid.{has_place};
ghost use Rattle.world_cells.specs.Lines.{has, IsAt, IsPut};
ghost use Rattle.world_cells.specs.Cells.{cell_of, spot, column_in, row_in, come, left, IsGrid};

use crate::cell_lists::CellLists;
use crate::lines::Lines;
use std::alloc::{AllocError, Global};
use std::marker::Model;
use tn_types::MAX_OBJECTS;
use world_rules::{Object, Place, State};

/// How wide and how high a cell is, in centimetres.
pub const CELL_SIDE: u32 = 4096;

/// Cells in a row, and rows.
pub const CELLS_ACROSS: u32 = 16;

/// The numbers of the objects in each cell, row by row, and which objects lie in each column and row. Nothing after `new`
/// takes memory.
#[derive(Drop)]
pub struct Cells {
    lists: CellLists,
    columns: Lines,
    rows: Lines,
}

impl Model for Cells {
    ghost use Rattle.world_cells.specs.Lines.{GridParts};

    ghost Value = { GridParts };

    ghost view = { λ a. record { cells = a.lists; columns = a.columns; rows = a.rows } };
}

/// Whether an object has a place: all but clocks.
pub fn has_place(o: &Object) -> bool
    ensures { result ≡ has_place o.now.state }
{
    match &o.state {
        State::Clock(_) => false,
        _ => true,
    }
}

// The cell that a place lies in.
fn cell_of(place: &Place) -> u8
    ensures { result ≡ cell_of place.now }
{
    let row = place.y / CELL_SIDE % CELLS_ACROSS;
    let column = place.x / CELL_SIDE % CELLS_ACROSS;
    (row * CELLS_ACROSS + column) as u8
}

/// The cell that an object lies in, if any.
pub fn spot(o: &Object) -> Option<u8>
    ensures { result ≡ spot o.now }
{
    if o.alive && has_place(o) {
        Some(cell_of(&o.place))
    } else {
        None
    }
}

// The column of a spot, and after the last one where there is none.
fn column_in(spot: Option<u8>) -> u8
    ensures value { result ≡ column_in spot }
    ensures few { result ≤ CELLS_ACROSS }
{
    match spot {
        None => CELLS_ACROSS as u8,
        Some(cell) => cell % CELLS_ACROSS as u8,
    }
}

// The row of a spot, and after the last one where there is none.
fn row_in(spot: Option<u8>) -> u8
    ensures value { result ≡ row_in spot }
    ensures few { result ≤ CELLS_ACROSS }
{
    match spot {
        None => CELLS_ACROSS as u8,
        Some(cell) => cell / CELLS_ACROSS as u8,
    }
}

fn is_same(a: Option<u8>, b: Option<u8>) -> bool
    ensures { result ≡ true → a ≡ b }
{
    match (a, b) {
        (Some(a), Some(b)) => a == b,
        (None, None) => true,
        _ => false,
    }
}

impl Cells {
    /// All cells are empty.
    pub fn new(alloc: Global) -> Result<Cells, AllocError>
        ensures { IfOk result (λ c. IsGrid c []) }
    {
        Ok(Cells {
            lists: CellLists::new(alloc)?,
            columns: Lines::new(alloc)?,
            rows: Lines::new(alloc)?,
        })
    }

    /// The numbers in a cell, rising.
    pub fn cell(&self, cell: u8) -> &[u32]
        ensures value { result.now ≡ slice_index_or self.now.cells cell [] }
    {
        self.lists.cell(cell)
    }

    /// Which of 64 objects lie in the columns from one on and before another.
    pub fn columns_between(&self, columns: (u8, u8), word: usize) -> u64
        requires word { word < 16 }
        requires from { columns.0 ≤ CELLS_ACROSS }
        requires to { columns.1 ≤ CELLS_ACROSS }
        ensures { (k : ℕ) → k < 64 → bit_at result k
            ≡ min (has self.now.columns columns.1 (64 * word + k)) (1 - has self.now.columns columns.0 (64 * word + k)) }
    {
        self.columns.between(columns.0, columns.1, word)
    }

    /// Which of 64 objects lie in the rows from one on and before another.
    pub fn rows_between(&self, rows: (u8, u8), word: usize) -> u64
        requires word { word < 16 }
        requires from { rows.0 ≤ CELLS_ACROSS }
        requires to { rows.1 ≤ CELLS_ACROSS }
        ensures { (k : ℕ) → k < 64 → bit_at result k
            ≡ min (has self.now.rows rows.1 (64 * word + k)) (1 - has self.now.rows rows.0 (64 * word + k)) }
    {
        self.rows.between(rows.0, rows.1, word)
    }

    // An object goes from where it lay to where it lies now; None is nowhere.
    fn move_to(&mut self, number: u32, from: Option<u8>, to: Option<u8>)
        requires { number < MAX_OBJECTS }
        ensures cells { self.new.cells ≡ come number to (left number from self.old.cells) }
        ensures columns { IsAt number (column_in from) self.old.columns
            → IsPut number (column_in to) self.old.columns self.new.columns }
        ensures rows { IsAt number (row_in from) self.old.rows → IsPut number (row_in to) self.old.rows self.new.rows }
    {
        self.lists.leave(number, from);
        self.lists.arrive(number, to);
        self.columns.shift(number, column_in(from), column_in(to));
        self.rows.shift(number, row_in(from), row_in(to));
    }

    /// The same, where most stay in their cells.
    pub fn shift(&mut self, number: u32, from: Option<u8>, to: Option<u8>)
        requires { number < MAX_OBJECTS }
        ensures { (before behind : List Object) (old now : Object) → length before ≡ number → spot old ≡ from → spot now ≡ to
            → IsGrid self.old (before ++ old ∷ behind) → IsGrid self.new (before ++ now ∷ behind) }
    {
        if is_same(from, to) {
            return;
        }
        self.move_to(number, from, to);
    }

    /// An object of this number became another.
    pub fn resettle(&mut self, number: u32, old: &Object, now: &Object)
        requires { number < MAX_OBJECTS }
        ensures { (before behind : List Object) → length before ≡ number → IsGrid self.old (before ++ old.now ∷ behind)
            → IsGrid self.new (before ++ now.now ∷ behind) }
    {
        self.shift(number, spot(old), spot(now));
    }

    /// An object more, after all others.
    pub fn settle(&mut self, number: u32, made: &Object)
        requires { number < MAX_OBJECTS }
        ensures { (before : List Object) → length before ≡ number → IsGrid self.old before
            → IsGrid self.new (before ++ made.now ∷ []) }
    {
        self.move_to(number, None, spot(made));
    }

    /// The objects from this number on are new.
    pub fn settle_from(&mut self, had: usize, now: &[Object])
        requires few { had ≤ length now.now }
        requires most { length now.now ≤ MAX_OBJECTS }
        requires grid { IsGrid self.old (take had now.now) }
        ensures { IsGrid self.new now.now }
    {
        for i in had..now.len() {
            self.settle(i as u32, &now[i]);
        }
    }
}
