//! Whether what a client of a race read is what its objects had, as far as a client is to have read it.
#![tactic(auto)]

mod current;
mod falling;
mod last;
mod legal;
mod pair;
mod standing;
mod told;

pub use legal::reads_are_legal;
