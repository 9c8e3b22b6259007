//! What a match tells, line by line, and what that promises: definitions and laws.
#![tactic(auto)]

mod laws;
mod promises;
mod values;
mod words;

pub use client_seat;
pub use client_seat::{own_lists, pair_core};
pub use laws::{
    events_in_order, isolation, little_is_refused, loose_events_in_order, moves_in_order,
    non_interference,
};
pub use promises::laws_of_matches;
pub use values::{changes_recover, copies_show_values, settled_is_newest};
pub use words::{applied_in_order, printed_in_order};
