//! What the bytes of a report say of shown fields and of moves, and what is found by looking back: definitions and laws.
#![tactic(auto)]

mod laws;

pub use laws::{
    changes_are_caught, honest_by_lines, laws_of_reports, looks_back, marked_where_settled,
    one_holder, printed_as_shown, printed_counts, printed_values, settled_is_last,
};
pub use match_laws;
