//! Addresses, nonces, and the numbers by which who has an address shows that it reads what is sent there.
ghost use Rattle.std.specs.Prelude.{◌≡◌, ◌≤◌, ◌+◌, length};
ghost use Rattle.greeting.specs.Words.{word_at, sixteen_at, bytes_of, address_bytes, is_same, is_equal, number_of};

use keyed_digest::keyed_digest;

/// So many bytes has a secret.
pub const SECRET_BYTES: usize = 32;

/// An address of IPv6 with a port. One of IPv4 is written as IPv6 writes it: `high` is 0, and `low` is 0xffff and behind it the four bytes.
#[derive(Clone, Copy)]
pub struct Address {
    pub high: u64,
    pub low: u64,
    pub port: u16,
}

impl Address {
    /// Whether both are one.
    pub fn is_same(self, other: Address) -> bool
        ensures { result ≡ is_same self other }
    {
        self.high == other.high && self.low == other.low && self.port == other.port
    }

    // Its eighteen bytes, the highest first.
    #[tactic(auto, unfolding(crate::specs::Words::address_bytes))]
    pub(crate) fn bytes(self) -> [u8; 18]
        ensures { result ≡ address_bytes self }
    {
        let [a0, a1, a2, a3, a4, a5, a6, a7] = self.high.to_be_bytes();
        let [b0, b1, b2, b3, b4, b5, b6, b7] = self.low.to_be_bytes();
        let [p0, p1] = self.port.to_be_bytes();
        [
            a0, a1, a2, a3, a4, a5, a6, a7, b0, b1, b2, b3, b4, b5, b6, b7, p0, p1,
        ]
    }
}

/// Sixteen bytes: the nonce of a client, or the number of a challenge.
#[repr(C)]
#[derive(Clone, Copy)]
pub struct Sixteen {
    /// The first eight, of which the first is the least.
    pub low: u64,
    pub high: u64,
}

impl Sixteen {
    /// Whether both are one.
    pub fn is_equal(self, other: Sixteen) -> bool
        ensures { result ≡ is_equal self other }
    {
        self.low == other.low && self.high == other.high
    }

    /// Its bytes.
    #[tactic(auto, unfolding(crate::specs::Words::bytes_of))]
    pub fn bytes(self) -> [u8; 16]
        ensures { result ≡ bytes_of self }
    {
        let [a0, a1, a2, a3, a4, a5, a6, a7] = self.low.to_le_bytes();
        let [b0, b1, b2, b3, b4, b5, b6, b7] = self.high.to_le_bytes();
        [
            a0, a1, a2, a3, a4, a5, a6, a7, b0, b1, b2, b3, b4, b5, b6, b7,
        ]
    }
}

// The number that eight bytes are from a place on.
#[tactic(auto, unfolding(crate::specs::Words::word_at))]
fn word_at(bytes: &[u8], at: usize) -> u64
    requires { at + 8 ≤ length bytes.now }
    ensures { result ≡ word_at at bytes.now }
{
    let mut eight = [0; 8];
    eight.copy_from_slice(&bytes[at..at + 8]);
    u64::from_le_bytes(eight)
}

// The sixteen bytes from a place on.
pub(crate) fn sixteen_at(bytes: &[u8], at: usize) -> Sixteen
    requires { at + 16 ≤ length bytes.now }
    ensures { result ≡ sixteen_at at bytes.now }
{
    Sixteen {
        low: word_at(bytes, at),
        high: word_at(bytes, at + 8),
    }
}

// The number of an address and a nonce.
#[tactic(auto, unfolding(crate::specs::Words::number_of))]
pub(crate) fn number_of(secret: &[u8; SECRET_BYTES], address: Address, nonce: Sixteen) -> Sixteen
    ensures { result ≡ number_of secret.now address nonce }
{
    let code = keyed_digest(secret, &address.bytes(), &nonce.bytes());
    sixteen_at(&code, 0)
}
