//! What no clause says of predictions, and of `predict C`: that its lines come whole where there is memory, and that its definitions
//! mean what docs/prediction.md says. It has no code but its tests, and nothing stands on it.
#![tactic(auto)]

#[cfg(test)]
mod fold;
#[cfg(test)]
mod predictions;
#[cfg(test)]
mod served;
#[cfg(test)]
mod tests;
