//! A server that serves one client alone: it is fed the client's own list, and makes the datagrams that the match makes.
#![tactic(auto)]

mod alone;
mod both;
mod laws;

pub use alone::Alone;
pub use alone_server::AloneHeader;
pub use alone_server::own_items::{
    Hides, Nears, OwnItem, OwnShow, OwnSource, OwnWrite, OwnWrites, Shows,
};
pub use both::run_alone;
pub use laws::{same_lists_same_lines, writes_the_packs};
