//! What no clause says of a relay script: that it is read where there is memory, that its definition means what docs/relay.md says,
//! and what a relay's report is. It has no code but its tests, and nothing stands on it.
#![tactic(auto)]

#[cfg(test)]
mod rows;
#[cfg(test)]
mod texts;
