//! The text of a relay script: `parse_relay` reads it, with the first fault of its least faulty line. The format stands in
//! docs/relay.md, "The relay script".
#![tactic(auto)]

mod asked;
mod entries;
mod lines;
mod reader;
mod types;

pub use asked::Asked;
pub use match_script;
pub use reader::parse_relay;
pub use types::{MAX_SPECTATORS, PlacedLine, RelayLine, RelayLines, RelayScript};
