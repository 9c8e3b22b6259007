//! An offset that hides corrections: what is shown of a field goes on where it was, and slides to where the field is.
#![tactic(auto)]

mod fading;
mod laws;

pub use fading::{Fading, GREATEST_MOST};
pub use laws::{no_correction_changes_nothing, offset_settles};
