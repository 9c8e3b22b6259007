//! The cells of the field as lists: the numbers of the objects that lie in each.
ghost use Rattle.std.specs.Prelude.{◌≡◌, ℕ, ◌<◌, [], length, IfOk, Some, slice_index_or};
ghost use Rattle.world_cells.specs.Cells.{come, left};

use crate::cell::Cell;
use std::alloc::{AllocError, Global};
use std::marker::Model;
use tn_types::MAX_OBJECTS;

// All cells.
const CELLS: usize = 256;

/// The numbers of the objects in each cell, row by row. Nothing after `new` takes memory.
#[derive(Drop)]
pub(crate) struct CellLists {
    cells: Vec<Cell>,
}

impl Model for CellLists {
    ghost use Rattle.std.specs.Prelude.{◌≡◌, ℕ, List, length};

    ghost Value = { List (List ℕ) };

    ghost view = { λ a. a.cells.items };

    ghost invariant = { λ a. length a.cells.items ≡ 256 };
}

impl CellLists {
    /// All cells are empty.
    pub(crate) fn new(alloc: Global) -> Result<CellLists, AllocError>
        ensures all { IfOk result (λ lists. length lists ≡ 256) }
        ensures empty { IfOk result (λ lists. (k : ℕ) → slice_index_or lists k [] ≡ []) }
    {
        let mut cells = Vec::with_capacity(alloc, CELLS)?;
        for _ in 0..CELLS {
            cells.push(Cell::new(alloc)?)?;
        }
        Ok(CellLists { cells })
    }

    /// The numbers in a cell, rising.
    pub(crate) fn cell(&self, cell: u8) -> &[u32]
        ensures value { result.now ≡ slice_index_or self.now cell [] }
    {
        self.cells[cell as usize].as_slice()
    }

    // The object comes into the cell.
    fn insert(&mut self, cell: u8, number: u32)
        requires { number < MAX_OBJECTS }
        ensures { self.new ≡ come number (Some cell) self.old }
    {
        self.cells[cell as usize].insert(number);
    }

    // The object leaves the cell.
    fn remove(&mut self, cell: u8, number: u32)
        ensures { self.new ≡ left number (Some cell) self.old }
    {
        self.cells[cell as usize].remove(number);
    }

    // The object leaves the cell that it lay in, if any.
    pub(crate) fn leave(&mut self, number: u32, from: Option<u8>)
        ensures { self.new ≡ left number from self.old }
    {
        if let Some(cell) = from {
            self.remove(cell, number);
        }
    }

    // The object comes into a cell, if any.
    pub(crate) fn arrive(&mut self, number: u32, to: Option<u8>)
        requires { number < MAX_OBJECTS }
        ensures { self.new ≡ come number to self.old }
    {
        if let Some(cell) = to {
            self.insert(cell, number);
        }
    }
}
