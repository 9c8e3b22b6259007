//! The items of a client's own list, and the list of a match, made item by item.
#![tactic(auto)]

mod items;
mod making;
mod source;

pub use items::{Hides, Nears, OwnItem, OwnShow, OwnWrite, OwnWrites, Shows};
pub use match_engine;
pub use match_engine::client_seat;
pub use source::OwnSource;
