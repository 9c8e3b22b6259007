//! HMAC-SHA-256: a digest of a message under a key. Who has no key can neither make nor check one.
#![tactic(auto)]

mod keyed;

pub use keyed::{BLOCK_BYTES, DIGEST_BYTES, keyed_digest};
