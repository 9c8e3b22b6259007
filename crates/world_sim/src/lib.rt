//! The world of a match, tick by tick. Its rules stand in docs/world.md.
#![tactic(auto)]

mod advance;
mod discs;
mod found;
mod glance;
pub mod laws;
mod mines;
mod near;
mod rows;
mod start;
mod step;
mod table;
mod watch;
mod world;

pub use glance::{Glance, Role};
pub use rows::{Row, Write};
pub use world::World;
pub use world_cells::{CELL_SIDE, CELLS_ACROSS};
