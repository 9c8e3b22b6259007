//! Where the objects of a world lie, by cells, columns and rows. The rules of cells stand in docs/world.md.
#![tactic(auto)]

mod cell;
mod cell_lists;
mod cells;
mod lines;
mod number_set;

pub use cells::{CELL_SIDE, CELLS_ACROSS, Cells, has_place, spot};
pub use number_set::NumberSet;
