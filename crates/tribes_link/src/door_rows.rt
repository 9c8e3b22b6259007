//! What crosses between a door or a knock and its caller: addresses, terms, and datagrams to be sent.
ghost use Rattle.std.specs.Prelude.{◌≡◌, ◌≤◌, ◌+◌, length};
ghost use Rattle.tribes_link.specs.Doors.{word_at, address_of, bytes_in};

use greeting::{
    Address, GreetingBytes, MAX_GREETING_BYTES, PROTOCOL_BYTES, SECRET_BYTES, TERMS_BYTES,
};

/// An address of IPv6 with a port. One of IPv4 is written as IPv6 writes it: ten zeros, two bytes of 255, and its four.
#[repr(C)]
#[derive(Clone, Copy)]
pub struct AddressRow {
    pub bytes: [u8; 16],
    pub port: u16,
}

/// What a door is made with.
#[repr(C)]
#[derive(Clone, Copy)]
pub struct DoorTerms {
    pub secret: [u8; SECRET_BYTES],
    pub protocol: [u8; PROTOCOL_BYTES],
    /// What goes with each welcome, unread.
    pub terms: [u8; TERMS_BYTES],
    pub seats: u32,
}

/// A secret of a door.
#[repr(C)]
#[derive(Clone, Copy)]
pub struct SecretRow {
    pub bytes: [u8; SECRET_BYTES],
}

/// The bytes of a datagram that is to be sent; none where `count` is 0.
#[repr(C)]
#[derive(Clone, Copy)]
pub struct GreetingRow {
    pub count: u32,
    pub bytes: [u8; MAX_GREETING_BYTES],
}

// The number that eight bytes are from a place on.
#[tactic(auto, unfolding(crate::specs::Doors::word_at))]
fn word_at(bytes: &[u8], at: usize) -> u64
    requires { at + 8 ≤ length bytes.now }
    ensures { result ≡ word_at at bytes.now }
{
    let mut eight = [0; 8];
    eight.copy_from_slice(&bytes[at..at + 8]);
    u64::from_be_bytes(eight)
}

/// The address of these bytes.
pub(crate) fn address_of(row: &AddressRow) -> Address
    ensures { result ≡ address_of row.now }
{
    Address {
        high: word_at(&row.bytes, 0),
        low: word_at(&row.bytes, 8),
        port: row.port,
    }
}

/// Puts bytes that are to be sent where the caller finds them.
pub(crate) fn put_bytes(bytes: &[u8], row: &mut GreetingRow)
    requires { length bytes.now ≤ MAX_GREETING_BYTES }
    ensures { bytes_in row.new ≡ bytes.now }
{
    let count = bytes.len();
    row.bytes[..count].copy_from_slice(bytes);
    row.count = count as u32;
}

/// Puts what is to be sent where the caller finds it.
pub(crate) fn put_greeting(greeting: &GreetingBytes, row: &mut GreetingRow)
    ensures { bytes_in row.new ≡ greeting.now }
{
    put_bytes(greeting.as_slice(), row)
}
