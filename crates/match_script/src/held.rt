//! The bytes that a line of a script brings. They lie on the heap, so that a line, of which most bring none, is small.
ghost use Rattle.std.specs.Prelude.{◌≡◌, ◌≤◌, length, IfOk};
ghost use Rattle.tn_types.specs.declared.limits.TheConstants.{MAX_EVENT_BYTES, MAX_DATAGRAM_BYTES};

use std::alloc::Global;
use std::marker::Model;
use tn_types::{MAX_DATAGRAM_BYTES, MAX_EVENT_BYTES, NoMemory, Payload, RawBytes};

/// The payload of an event that a line posts, which contracts see as its list of bytes.
#[derive(Drop)]
pub struct LinePayload {
    payload: Box<Payload>,
}

impl Model for LinePayload {
    ghost use Rattle.std.specs.Prelude.{ℕ, List};

    ghost Value = { List ℕ };

    ghost view = { λ p. p.payload.value };
}

impl LinePayload {
    /// This payload.
    pub fn new(alloc: Global, payload: Payload) -> Result<LinePayload, NoMemory>
        ensures { IfOk result (λ held. held ≡ payload) }
    {
        match Box::new(alloc, payload) {
            Ok(payload) => Ok(LinePayload { payload }),
            Err(_) => Err(NoMemory),
        }
    }

    /// The bytes, lent.
    pub fn as_slice(&self) -> &[u8]
        ensures value { result.now ≡ self.now }
        ensures fits { length result.now ≤ MAX_EVENT_BYTES }
    {
        self.payload.as_slice()
    }

    /// The payload, for an end that is to post it. No memory is taken.
    pub fn payload(&self) -> Payload
        ensures { result ≡ self.now }
    {
        self.payload.copy()
    }

    /// The same payload again.
    pub fn copy(&self, alloc: Global) -> Result<LinePayload, NoMemory>
        ensures { IfOk result (λ held. held ≡ self.now) }
    {
        LinePayload::new(alloc, self.payload())
    }
}

/// The bytes of a datagram that a line brings, which contracts see as their list.
#[derive(Drop)]
pub struct LineDatagram {
    bytes: Box<RawBytes>,
}

impl Model for LineDatagram {
    ghost use Rattle.std.specs.Prelude.{ℕ, List};

    ghost Value = { List ℕ };

    ghost view = { λ d. d.bytes.value };
}

impl LineDatagram {
    /// These bytes.
    pub fn from_slice(alloc: Global, bytes: &[u8]) -> Result<LineDatagram, NoMemory>
        requires { length bytes.now ≤ MAX_DATAGRAM_BYTES }
        ensures { IfOk result (λ held. held ≡ bytes.now) }
    {
        let bytes = RawBytes::from_slice(alloc, bytes)?;
        match Box::new(alloc, bytes) {
            Ok(bytes) => Ok(LineDatagram { bytes }),
            Err(_) => Err(NoMemory),
        }
    }

    /// The bytes, lent.
    pub fn as_slice(&self) -> &[u8]
        ensures value { result.now ≡ self.now }
        ensures fits { length result.now ≤ MAX_DATAGRAM_BYTES }
    {
        self.bytes.as_slice()
    }

    /// The bytes, for an end that is to get them.
    pub fn raw_bytes(&self, alloc: Global) -> Result<RawBytes, NoMemory>
        ensures { IfOk result (λ raw. raw ≡ self.now) }
    {
        self.bytes.copy(alloc)
    }

    /// The same bytes again.
    pub fn copy(&self, alloc: Global) -> Result<LineDatagram, NoMemory>
        ensures { IfOk result (λ held. held ≡ self.now) }
    {
        LineDatagram::from_slice(alloc, self.as_slice())
    }
}
