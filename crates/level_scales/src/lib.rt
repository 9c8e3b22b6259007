//! The level of a value by one multiplication, for fields whose range isn't too wide.
//!
//! A `Scale` keeps what a step above a field's least value is of a level, so that to find a level takes no division. No call
//! takes memory.
#![tactic(auto)]

mod scale;

pub use scale::{NARROW, PARTS, Scale};
