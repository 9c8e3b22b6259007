//! What a client predicts of its player: where he stands and what ammo he has, before the server told of his last moves.
#![tactic(auto)]

mod laws;
mod predict;

pub use laws::{accepted_changes_nothing, offset_settles};
pub use predict::{MAX_OFFSET, Predict};
