//! What no clause says of `dirty_lanes`, on one thread and on two. It has no code but its tests, and nothing stands on it.
#![tactic(auto)]

#[cfg(test)]
mod plain;
#[cfg(test)]
mod threads;
