//! Kinds of objects, their fields, and the levels in which values travel.
//!
//! A field holds a whole number from `lo` to `hi`, and travels as one of 2^bits levels. A kind is a list
//! of fields with a weight, and a table has up to 16 kinds. No call takes memory.
#![tactic(auto)]

mod field;
mod kind;
/// Levels of values, and the range and the greatest level of a field.
pub mod levels;
mod said;
mod same;
mod table;

pub use field::{FieldList, FieldSpec};
pub use kind::Kind;
pub use levels::{level, shown};
pub use table::{KindFault, KindTable};
