//! What a datagram carries: its own bytes, or under a key the bytes before their tag.
ghost use Rattle.std.specs.Prelude.{◌≡◌, ◌≤◌, ◌+◌, ℕ, List, length, take, IfSome, IsNone};
ghost use Rattle.datagram_tags.specs.declared.sides.Side.TheVariants.{Client, Server};
ghost use Rattle.host_guests.specs.Keys.{Carries};

pub use datagram_tags::KEY_BYTES;
use datagram_tags::{KeyedEnd, Side, TagBytes};

/// So many bytes has a tag.
pub const TAG_BYTES: usize = 16;

/// The number of all datagrams of a greeting. Those of a guest have the number of its joining.
pub const GREETING_NUMBER: u64 = 0;

/// How many first bytes of a client's datagram are what it carries under this number. None if it has not their tag.
pub fn carried(key: Option<[u8; KEY_BYTES]>, number: u64, datagram: &[u8]) -> Option<usize>
    ensures some { IfSome result (λ count. (count ≤ length datagram.now)
        × Carries key Client number datagram.now (take count datagram.now)) }
    ensures none { IsNone result → (bytes : List ℕ) → Carries key Client number datagram.now bytes → ⊥ }
{
    let Some(key) = key else {
        return Some(datagram.len());
    };
    let mut end = KeyedEnd::new(key, TagBytes::Sixteen, Side::Server);
    match end.verify(number, datagram) {
        Ok(count) => Some(count),
        Err(_) => None,
    }
}

/// Makes of the first bytes of a place the datagram to a client that carries them under this number: so many first bytes of the place.
pub fn append(key: Option<[u8; KEY_BYTES]>, number: u64, place: &mut [u8], count: usize) -> usize
    requires { count + TAG_BYTES ≤ length place.old }
    ensures carries { Carries key Server number (take result place.new) (take count place.old) }
    ensures bound { result ≤ length place.new }
{
    match key {
        Some(key) => {
            let end = KeyedEnd::new(key, TagBytes::Sixteen, Side::Server);
            end.append_tag(number, place, count)
        }
        None => count,
    }
}
