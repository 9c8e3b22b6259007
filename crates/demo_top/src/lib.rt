//! The calls of the program that write demos and tell them again, over a source and a sink.
#![tactic(auto)]

mod laws;
mod serving;

pub use demo_record::demo_format;
pub use demo_replay::demo_view;
pub use laws::{laws_of_demos, replay_tells_the_client};
pub use serving::{top_demo, top_replay};
