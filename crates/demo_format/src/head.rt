//! The head of a demo.
ghost use Rattle.std.specs.Prelude.{◌≡◌, ◌++◌, ◌≤◌, OnOk, IfOk, IfSome, length, slice_get};
ghost use Rattle.tn_types.specs.declared.limits.TheConstants.{MAX_LIFE};
ghost use Rattle.demo_format.specs.Numbers.{two_at, three_at};
ghost use Rattle.demo_format.specs.Head.{has_magic, is_client, is_version, is_life, is_size, read_head, spell_head, IsHead, IsPart};

use crate::numbers::{put_three, put_two, three_at, two_at};
use std::alloc::AllocError;
use tn_types::{MAX_CLIENTS, MAX_DATAGRAM_BYTES, MIN_DATAGRAM_BYTES};

/// Bytes of a demo that is replayed.
pub const MAX_DEMO_BYTES: usize = 16_777_216;

/// Bytes of a head.
pub const HEAD_BYTES: usize = 11;

/// The newest version of datagrams that a demo may have.
pub const LAST_VERSION: u8 = 2;

/// What the head of a demo says.
#[derive(Clone, Copy, Debug, PartialEq, Eq)]
pub struct DemoHead {
    /// Whose datagrams these are: 0 to 15.
    pub client: u8,
    /// The version of the datagrams: 1 or 2.
    pub version: u8,
    /// What ends each counter of the connection: 1 to 16,777,215.
    pub life: u32,
    /// Bytes of a datagram at the most: 128 to 1,200.
    pub size: u32,
}

/// The head that the bytes begin with. An `Err` has the place of the first part that is cut off or out of its range.
pub fn read_head(bytes: &[u8]) -> Result<DemoHead, u32>
    ensures value { result ≡ read_head bytes.now }
    ensures sound { IfOk result IsHead }
    ensures long { OnOk result (HEAD_BYTES ≤ length bytes.now) }
{
    if !has_magic(bytes) {
        return Err(0);
    }
    let Some(client) = client_at(bytes) else {
        return Err(4);
    };
    let Some(version) = version_at(bytes) else {
        return Err(5);
    };
    let Some(life) = life_at(bytes) else {
        return Err(6);
    };
    let Some(size) = size_at(bytes) else {
        return Err(9);
    };
    Ok(DemoHead {
        client,
        version,
        life,
        size,
    })
}

fn has_magic(bytes: &[u8]) -> bool
    ensures { result ≡ has_magic bytes.now }
{
    let (front, _) = bytes.split_at(bytes.len().min(4));
    front == b"TND1".as_slice()
}

fn client_at(bytes: &[u8]) -> Option<u8>
    ensures { IsPart is_client (slice_get bytes.now 4) result }
{
    match bytes.get(4) {
        Some(client) if *client < MAX_CLIENTS => Some(*client),
        _ => None,
    }
}

fn version_at(bytes: &[u8]) -> Option<u8>
    ensures { IsPart is_version (slice_get bytes.now 5) result }
{
    match bytes.get(5) {
        Some(version) if 1 <= *version && *version <= LAST_VERSION => Some(*version),
        _ => None,
    }
}

fn life_at(bytes: &[u8]) -> Option<u32>
    ensures part { IsPart is_life (three_at bytes.now 6) result }
    ensures small { IfSome result (λ n. n ≤ MAX_LIFE) }
{
    match three_at(bytes, 6) {
        Some(life) if 1 <= life => Some(life),
        _ => None,
    }
}

fn size_at(bytes: &[u8]) -> Option<u32>
    ensures { IsPart is_size (two_at bytes.now 9) result }
{
    match two_at(bytes, 9) {
        Some(size) if MIN_DATAGRAM_BYTES as u32 <= size && size <= MAX_DATAGRAM_BYTES as u32 => {
            Some(size)
        }
        _ => None,
    }
}

/// Appends a head.
pub fn put_head(out: &mut Vec<u8>, head: &DemoHead) -> Result<(), AllocError>
    requires { IsHead head.now }
    ensures { OnOk result (out.new.items ≡ out.old.items ++ spell_head head.now) }
{
    out.extend_from_slice(b"TND1")?;
    out.extend_from_slice(&[head.client, head.version])?;
    put_three(out, head.life)?;
    put_two(out, head.size)
}
