//! Where the objects of a match stand, in words of 64, as a scan reads them.
#![tactic(auto)]

mod places;

pub use places::{PlaceWord, Places};
