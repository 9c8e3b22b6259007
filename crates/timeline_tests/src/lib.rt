//! What no clause says of what a client draws: `timeline`, `draw_clock`, `fading_offset`. It has no code but its tests, and nothing stands on it.
#![tactic(auto)]

#[cfg(test)]
mod clocks;
#[cfg(test)]
mod lines;
#[cfg(test)]
mod offsets;
