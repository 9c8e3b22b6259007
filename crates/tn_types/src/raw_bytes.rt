//! Bytes of a datagram that came from outside.
ghost use Rattle.std.specs.Prelude.{◌≡◌, ◌≤◌, ◌<◌, [], length, IfOk, OnOk, OnErr};

use crate::choices::NoMemory;
use crate::limits::MAX_DATAGRAM_BYTES;
use std::alloc::Global;
use std::marker::Model;

/// At most `MAX_DATAGRAM_BYTES` bytes, which contracts see as their list. They lie on the heap, so that a list of what
/// came takes as much memory as there are bytes.
#[derive(Drop)]
pub struct RawBytes {
    bytes: Vec<u8>,
}

impl Model for RawBytes {
    ghost use Rattle.std.specs.Prelude.{ℕ, List, ◌≤◌, length};
    ghost use Rattle.tn_types.specs.declared.limits.TheConstants.{MAX_DATAGRAM_BYTES};

    ghost Value = { List ℕ };

    ghost view = { λ r. r.bytes.items };

    ghost invariant = { λ r. length r.bytes.items ≤ MAX_DATAGRAM_BYTES };
}

impl RawBytes {
    /// These bytes.
    pub fn from_slice(alloc: Global, bytes: &[u8]) -> Result<RawBytes, NoMemory>
        requires { length bytes.now ≤ MAX_DATAGRAM_BYTES }
        ensures { IfOk result (λ raw. raw ≡ bytes.now) }
    {
        match Vec::from_slice(alloc, bytes) {
            Ok(bytes) => Ok(RawBytes { bytes }),
            Err(_) => Err(NoMemory),
        }
    }

    /// These bytes in place of those that it had. Memory is taken only where they are more than it ever had; for want of it, none
    /// are left.
    pub fn refill(&mut self, bytes: &[u8]) -> Result<(), NoMemory>
        requires { length bytes.now ≤ MAX_DATAGRAM_BYTES }
        ensures ok { OnOk result (self.new ≡ bytes.now) }
        ensures err { OnErr result (self.new ≡ []) }
        ensures room { OnErr result (length self.old < length bytes.now) }
    {
        self.bytes.clear();
        match self.bytes.extend_from_slice(bytes) {
            Ok(()) => Ok(()),
            Err(_) => Err(NoMemory),
        }
    }

    /// The bytes, lent.
    pub fn as_slice(&self) -> &[u8]
        ensures value { result.now ≡ self.now }
        ensures fits { length result.now ≤ MAX_DATAGRAM_BYTES }
    {
        self.bytes.as_slice()
    }

    /// The same bytes again.
    pub fn copy(&self, alloc: Global) -> Result<RawBytes, NoMemory>
        ensures { IfOk result (λ raw. raw ≡ self.now) }
    {
        RawBytes::from_slice(alloc, self.as_slice())
    }
}
