//! What a relay tells its spectators' servers, as definitions, and the law that it is an own list. It has no code.
#![tactic(auto)]

mod laws;

pub use laws::{relay_items_may_follow, relay_posts_what_came, taken_packets_keep_copies};
