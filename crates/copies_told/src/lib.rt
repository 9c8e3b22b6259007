//! What is told of the copies that a client has where nothing is known of the server: each with the values that it shows, without
//! marks of settled fields.
#![tactic(auto)]

mod told;

pub use told::copies_told;
