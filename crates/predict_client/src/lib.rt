//! What a client's end tells a prediction: the base and the pending moves of each data packet, and each move that is sampled.
#![tactic(auto)]

mod follow;
mod player;

pub use follow::{arrived, moved};
pub use player::{PLAYER_AMMO, PLAYER_X, PLAYER_Y, base};
