//! The program: which call a command leads to, over a source, a sink, a link and a clock.
#![tactic(auto)]

mod laws;
mod serving;

pub use laws::laws_of_the_program;
pub use script_input::{Status, exit_of};
pub use serving::{carry_out, port_of};
pub use threads_top::Judgement;
