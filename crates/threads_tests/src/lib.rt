//! What no clause says of a match in threads: that its activities run beside one another, that its text is that of their own race, and
//! that it comes where there is memory. It has no code but its tests, and nothing stands on it.
#![tactic(auto)]

#[cfg(test)]
mod gates;
#[cfg(test)]
mod made;
#[cfg(test)]
mod races;
#[cfg(test)]
mod rows;
