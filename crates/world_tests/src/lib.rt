//! What no clause says of the world and of who sees it: `world_rules`, `world_sim`, `world_scope` and `client_scope`. It has no
//! code but its tests, and nothing stands on it.
#![tactic(auto)]

#[cfg(test)]
mod rules;
#[cfg(test)]
mod scans;
#[cfg(test)]
mod sights;
#[cfg(test)]
mod ticks;
