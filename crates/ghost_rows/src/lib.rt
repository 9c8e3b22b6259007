//! What is kept of the period that holds a slot, slot by slot: which fields are due, its last turn, and which packet was the last
//! to carry each field.
//!
//! `Rows` has a row for each slot: a period begins it, and changes of fields, packets that are sent and packets that are lost change
//! it. `new` alone takes memory.
#![tactic(auto)]

mod slot_rows;

pub use slot_rows::{ALL_FIELDS, Rows};
