//! How much a connection may carry: a rate that follows the losses, and what may go by it now.
#![tactic(auto)]

mod laws;
mod pace;
mod rate;

pub use laws::{no_more_than_the_most, rate_stays_between};
pub use pace::{Pace, PaceParts, PaceRefusal};
pub use rate::{PaceTerms, are_terms};
