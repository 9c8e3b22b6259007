//! What `predict C` writes for a script, and what its values promise: definitions, laws, and the line of a prediction.
#![tactic(auto)]

mod changes;
mod following;
mod text;

pub use changes::{EndChange, change_of};
pub use following::follow;
pub use match_laws;
pub use text::put_prediction;
