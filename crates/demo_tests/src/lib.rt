//! What no clause says of demos: that a demo and its replay come whole where there is memory, and their bytes and texts, which other
//! programs gave. It has no code but its tests, and nothing stands on it.
#![tactic(auto)]

#[cfg(test)]
mod hostile;
#[cfg(test)]
mod rows;
#[cfg(test)]
mod seeks;
#[cfg(test)]
mod served;
