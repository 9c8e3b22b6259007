//! When a race of threads is legal: what its threads kept is what some order of their steps makes of the script.
#![tactic(auto)]

mod clients;
mod telling;
mod text;

pub use race_course;
pub use race_history;
pub use race_reads;
pub use race_steps;
pub use race_text;
pub use telling::tell;
