//! One client's place in a match: its connection, its accepted moves, and what its own list leaves.
#![tactic(auto)]

mod arriving;
mod packing;
mod posting;
mod scanning;
mod seat;
mod showing;

pub use own_lists;
pub use own_lists::pair_core;
pub use seat::Seat;
pub use showing::copies_of;
