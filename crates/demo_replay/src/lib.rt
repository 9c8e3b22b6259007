//! Replaying a demo: what each record does, what is shown after them, and how a cut demo is told.
#![tactic(auto)]

mod laws;
mod next;
mod passing;
mod replaying;
mod telling;

pub use demo_view;
pub use laws::cut_demo_tells_a_front;
pub use next::next_record;
pub use passing::pass_over;
pub use replaying::{ReplayFault, replay, replay_at};
