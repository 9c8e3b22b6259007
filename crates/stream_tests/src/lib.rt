//! What no clause says of the two ends of a connection and of a pair, `stream_manager` and `pair_copies`: rows that were worked
//! out beforehand, byte for byte; and of `kept_pair`, a pair that keeps as many steps as can be kept. It has no code but its tests,
//! and nothing stands on it.
#![tactic(auto)]

#[cfg(test)]
mod asked;
#[cfg(test)]
mod buffers;
#[cfg(test)]
mod ends;
#[cfg(test)]
mod kept;
#[cfg(test)]
mod pairs;
