//! The values of a world in the lanes: a field is stored where the lanes are behind the world, and then told to every client.
#![tactic(auto)]

mod listing;
mod raising;
mod storing;
mod words;

pub use raising::{Changed, raise_all};
pub use storing::{store_world, store_writes};
