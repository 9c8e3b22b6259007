//! What no clause says of the program: that reports and counts come whole where there is memory, and what stands in a sink after a
//! read or a write that fails. It has no code but its tests, and nothing stands on it.
#![tactic(auto)]

#[cfg(test)]
mod examples;
#[cfg(test)]
mod long_reports;
#[cfg(test)]
mod outside;
#[cfg(test)]
mod raw_rows;
#[cfg(test)]
mod refusals;
#[cfg(test)]
mod rows;
#[cfg(test)]
mod served;
#[cfg(test)]
mod tests;
#[cfg(test)]
mod version_examples;
#[cfg(test)]
mod world_examples;
#[cfg(test)]
mod world_rows;
