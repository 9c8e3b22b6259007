//! The calls of the program over a link, a clock and a sink: `serve` and `join`.
#![tactic(auto)]

mod laws;
mod serving;

pub use laws::laws_of_links;
pub use net_serve::Offer;
pub use serving::{top_join, top_serve};
