//! The digest of a message under a key.
ghost use Rattle.std.specs.Prelude.{◌≡◌, ◌≤◌, ◌++◌, length, map, bit_xor};
ghost use Rattle.keyed_digest.specs.Keyed.{filled, block_of, hmac};

use sha2::{Digest, Sha256};

/// So many bytes has a block of SHA-256.
pub const BLOCK_BYTES: usize = 64;

/// So many bytes has a digest.
pub const DIGEST_BYTES: usize = 32;

/// What stands before the message, mixed into the key.
const INNER_BYTE: u8 = 0x36;

/// What stands before the message's digest, mixed into the key.
const OUTER_BYTE: u8 = 0x5c;

// A key of at most a block, filled up with zeros.
fn filled(key: &[u8]) -> [u8; BLOCK_BYTES]
    requires { length key.now ≤ BLOCK_BYTES }
    ensures { result ≡ filled key.now }
{
    let mut block = [0; BLOCK_BYTES];
    block[..key.len()].copy_from_slice(key);
    block
}

// The key as a block: filled up, or in its place its digest where it is longer.
fn block_of(key: &[u8]) -> [u8; BLOCK_BYTES]
    ensures { result ≡ block_of key.now }
{
    if key.len() > BLOCK_BYTES {
        filled(&Sha256::digest(key))
    } else {
        filled(key)
    }
}

// A block, each byte xored with this one.
#[tactic(auto, using(std::proofs::lemmas::List::Edits::map_over_more))]
fn xored(block: &[u8; BLOCK_BYTES], byte: u8) -> [u8; BLOCK_BYTES]
    ensures { result ≡ map (bit_xor byte) block.now }
{
    let mut mixed = *block;
    'bytes: for i in 0..BLOCK_BYTES {
        mixed[i] = byte ^ mixed[i];
    }
    mixed
}

/// HMAC-SHA-256 (RFC 2104) of a message in two pieces, under a key of any length. It takes no memory.
#[tactic(auto, unfolding(crate::specs::Keyed::hmac))]
pub fn keyed_digest(key: &[u8], head: &[u8], rest: &[u8]) -> [u8; DIGEST_BYTES]
    ensures { result ≡ hmac key.now (head.now ++ rest.now) }
{
    let block = block_of(key);
    let mut inner = Sha256::new();
    inner.update(xored(&block, INNER_BYTE));
    inner.update(head);
    inner.update(rest);
    let mut outer = Sha256::new();
    outer.update(xored(&block, OUTER_BYTE));
    outer.update(inner.finalize());
    outer.finalize()
}
