//! Reading a script from a source, and how a call of the program ends.
#![tactic(auto)]

mod ending;
mod input;
mod limits;
mod status;

pub use ending::end_call;
pub use input::{read_all, read_script, read_threads_script};
pub use limits::MAX_SCRIPT_BYTES;
pub use status::{Status, exit_of};
