//! A few bytes that lie in the value itself.
ghost use Rattle.std.specs.Prelude.{◌≡◌, ◌<◌, ◌≤◌, [], ◌∷◌, ◌++◌, length, IfSome, IsSome, ◌↔◌, IfOk};
ghost use Rattle.std.specs.Cmp.Lexicographic.{pointwise};
ghost use Rattle.tn_types.specs.Bytes.{AreBytes};

use arrayvec::ArrayVec;
use std::marker::Model;

/// At most `N` bytes, which contracts see as their list. They lie in the value itself, so no call takes memory.
#[derive(Drop)]
pub struct Bytes<const N: usize> {
    bytes: ArrayVec<u8, N>,
}

impl<const N: usize> Model for Bytes<N> {
    ghost use Rattle.std.specs.Prelude.{ℕ, List, ◌≤◌, length};

    ghost Value = { List ℕ };

    ghost view = { λ p. p.bytes.items };

    ghost invariant = { λ p. length p.bytes.items ≤ N };
}

impl<const N: usize> Bytes<N> {
    /// No byte.
    pub fn new() -> Self
        ensures { result ≡ [] }
    {
        Bytes {
            bytes: ArrayVec::new(),
        }
    }

    /// Appends a byte.
    pub fn push(&mut self, byte: u8)
        requires { length self.old < N }
        ensures { self.new ≡ self.old ++ byte ∷ [] }
    {
        self.bytes.push(byte);
    }

    /// These bytes; `None` exactly where they are more than `N`.
    pub fn from_slice(bytes: &[u8]) -> Option<Self>
        ensures fits { IsSome result ↔ (length bytes.now ≤ N) }
        ensures value { IfSome result (λ p. p ≡ bytes.now) }
    {
        if bytes.len() > N {
            return None;
        }
        let mut all = ArrayVec::new();
        if all.try_extend_from_slice(bytes).is_err() {
            return None;
        }
        Some(Bytes { bytes: all })
    }

    /// The bytes, lent.
    pub fn as_slice(&self) -> &[u8]
        ensures value { result.now ≡ self.now }
        ensures fits { length result.now ≤ N }
        ensures bytes { AreBytes result.now }
    {
        let bytes = self.bytes.as_slice();
        are_bytes(bytes);
        bytes
    }

    /// The same bytes again.
    pub fn copy(&self) -> Self
        ensures { result ≡ self.now }
    {
        match Bytes::from_slice(self.as_slice()) {
            Some(bytes) => bytes,
            None => unreachable!(),
        }
    }

    /// How many bytes these are.
    pub fn len(&self) -> usize
        ensures value { result ≡ length self.now }
        ensures fits { result ≤ N }
    {
        self.bytes.len()
    }
}

/// The bytes of a slice are below 256: a caller learns it where a type does not say so.
pub fn are_bytes(bytes: &[u8])
    ensures { AreBytes bytes.now }
{}
