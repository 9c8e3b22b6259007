//! Tests of a channel over both ends of a connection. No crate depends on this one.
#![tactic(auto)]

mod lossy;
