//! What a pack answers.

/// The datagram that a pack made, and how many bytes it has.
#[derive(Clone, Copy, Debug, PartialEq, Eq)]
pub enum Made {
    /// A ping.
    Ping { len: usize },
    /// A data packet.
    Body { len: usize },
    /// None: as many data packets as the connection's life were sent.
    Worn { life: u32 },
}

/// A buffer is too small for a datagram: it needs as many bytes as a datagram of the connection has at most. Nothing was done.
#[derive(Clone, Copy, Debug, PartialEq, Eq)]
pub struct TooSmall {
    pub needed: usize,
}
