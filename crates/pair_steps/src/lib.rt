//! What a list of steps of a connection says of its periods, and that the server's list says the same. It has no code: its
//! definitions and lemmas are what a match and a match in threads stand on.
#![tactic(auto)]

pub use pair_core;
