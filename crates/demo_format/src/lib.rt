//! Demos: the datagrams that a client took, in a file. The form of the bytes stands in docs/demos.md.
//!
//! Any bytes are read: a head or the place of its fault, the whole records after it, and whether they end as a demo does.
#![tactic(auto)]

mod head;
mod laws;
mod numbers;
mod records;

pub use head::{DemoHead, HEAD_BYTES, LAST_VERSION, MAX_DEMO_BYTES, put_head, read_head};
pub use laws::{cut_keeps_a_front, one_reading, records_are_records, spelled_demo_is_read};
pub use records::{ends_here, front_length, put_ending, put_record};
