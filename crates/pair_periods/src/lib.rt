//! What the steps of a connection make of its periods: how a list of periods stays in agreement with the steps, and how a field
//! stays due.
#![tactic(auto)]

pub mod laws;
