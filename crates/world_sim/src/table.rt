//! What a world keeps of its objects from tick to tick.
use crate::glance::Glance;
use crate::rows::{Row, Write};
use world_cells::{Cells, NumberSet};
use world_places::Places;
use world_rules::Object;

/// What is kept beside the objects, and changes with them.
#[derive(Drop)]
pub struct Beside {
    /// The living by the cell that they lie in.
    pub cells: Cells,
    /// Where each object is.
    pub places: Places,
    /// What the tick writes.
    pub writes: Vec<Write>,
}

/// All objects, with a row of values and a glance for each.
#[derive(Drop)]
pub struct Table {
    pub objects: Vec<Object>,
    pub rows: Vec<Row>,
    pub glances: Vec<Glance>,
    pub beside: Beside,
    /// The numbers of all that may still change.
    pub going: NumberSet,
}
