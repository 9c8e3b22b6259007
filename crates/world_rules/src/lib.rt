//! The rules by which a world plays: what each object is after one tick, read off all objects before it. They stand
//! in docs/world.md.
#![tactic(auto)]

pub mod fire;
pub mod flags;
pub mod kinds;
mod limits;
pub mod measures;
pub mod movers;
pub mod object;
pub mod places;
pub mod setup;
mod sight;

pub use kinds::{kind_word, match_kinds};
pub use limits::MAX_COORDINATE;
pub use object::{Clock, Disc, Drone, Flag, Mine, Object, Place, Player, State};
pub use places::step_player;
pub use setup::{Setup, Spawn, Spawns};
