//! Whether the steps that a race kept of one client are those that the script asks for, and whether its pair was made with what
//! the script's header says.
#![tactic(auto)]

mod acts;
mod asked;
mod fit;
mod messages;
mod moves;
mod packs;
mod rooms;
mod steps;
mod terms;

pub use asked::steps_are_asked;
pub use terms::terms_are;
