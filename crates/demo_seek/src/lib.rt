//! Seeking in a demo: what a viewer shows after any number of its records, from a viewer that is kept at most 63 records before.
#![tactic(auto)]

mod seeking;

pub use demo_replay;
pub use seeking::{Demo, DemoFault, KEY_DISTANCE};
