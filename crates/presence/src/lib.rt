//! Whether the other end is still there: heard not too long ago, and without a goodbye.
#![tactic(auto)]

mod other_end;

pub use other_end::{
    GOODBYE, GOODBYE_BYTES, GOODBYE_VERSION, GOODBYES, NO_GOODBYE, Presence, PresenceParts,
    goodbye, goodbye_in,
};
