//! A key of one end, which the caller keeps: the tag behind each datagram.
ghost use Rattle.std.specs.Prelude.{◌≡◌, ◌≤◌, ◌+◌, ◌⊎◌, pos, length, IfSome, None};
ghost use Rattle.datagram_tags.specs.Tagging.{tag_bytes, counted};
ghost use Rattle.tribes_link.specs.Keys.{keyed_from, tag_from, side_from, tag_code, TagsBy, IsVerified};

use crate::joining_codes::{NO_KEY, NO_TAG, NO_TAG_ROOM, WRONG_TAG};
use datagram_tags::{KEY_BYTES, KeyedEnd, Side, TagBytes, TagFault};

/// A key: with zeros there is none, and each datagram is as it was.
#[repr(C)]
#[derive(Clone, Copy)]
pub struct KeyRow {
    pub key: [u8; KEY_BYTES],
    /// 8 or 16, or 0 where there is no key.
    pub tag_bytes: u32,
    /// Whose it is: 0 the client's, 1 the server's.
    pub side: u32,
    /// How many datagrams were refused.
    pub refused: u64,
}

fn tag_of(row: &KeyRow) -> Option<TagBytes>
    ensures { result ≡ tag_from row.now.tag_bytes }
{
    match row.tag_bytes {
        8 => Some(TagBytes::Eight),
        16 => Some(TagBytes::Sixteen),
        _ => None,
    }
}

fn side_of(row: &KeyRow) -> Option<Side>
    ensures { result ≡ side_from row.now.side }
{
    match row.side {
        0 => Some(Side::Client),
        1 => Some(Side::Server),
        _ => None,
    }
}

fn keyed_of(row: &KeyRow) -> Option<KeyedEnd>
    ensures { result ≡ keyed_from row.now }
{
    match (tag_of(row), side_of(row)) {
        (Some(tag), Some(side)) => Some(KeyedEnd::new(row.key, tag, side)),
        _ => None,
    }
}

/// Puts a tag behind the first `count` bytes of a place. So many bytes, `total`, are then to be sent.
#[unsafe(no_mangle)]
pub extern "C" fn tribes_tag(
    key: &KeyRow,
    number: u64,
    place: &mut [u8],
    count: usize,
    total: &mut usize,
) -> i32
    ensures tagged { result ≡ pos 0 → TagsBy (keyed_from key.now) number count total.new place.old place.new }
    ensures answer { result ≡ tag_code key.now count (length place.old) }
    ensures unchanged { (result ≡ pos 0 → ⊥) → (place.new ≡ place.old) × (total.new ≡ total.old) }
{
    let room = place.len();
    if room < count {
        return if key.tag_bytes == 0 || keyed_of(key).is_some() {
            NO_TAG_ROOM
        } else {
            NO_KEY
        };
    }
    if key.tag_bytes == 0 {
        *total = count;
        return 0;
    }
    let Some(end) = keyed_of(key) else {
        return NO_KEY;
    };
    if room - count < key.tag_bytes as usize {
        return NO_TAG_ROOM;
    }
    *total = end.append_tag(number, place, count);
    0
}

/// A datagram came: it is taken where it carries the tag of its bytes, of the number and of the other end, and its first `count` bytes are what was
/// tagged. Else it is refused and counted.
#[unsafe(no_mangle)]
pub extern "C" fn tribes_verify(
    key: &mut KeyRow,
    number: u64,
    bytes: &[u8],
    count: &mut usize,
) -> i32
    ensures keyless { key.old.tag_bytes ≡ 0 → (result ≡ pos 0) × (count.new ≡ length bytes.now) }
    ensures no_key { (key.old.tag_bytes ≡ 0 → ⊥) → keyed_from key.old ≡ None → result ≡ NO_KEY }
    ensures verified { IfSome (keyed_from key.old) (IsVerified number bytes.now result count.new) }
    ensures counts { (result ≡ NO_TAG) ⊎ (result ≡ WRONG_TAG) → key.new ≡ record key.old { refused = counted key.old.refused } }
    ensures unchanged { (result ≡ NO_TAG → ⊥) → (result ≡ WRONG_TAG → ⊥) → key.new ≡ key.old }
{
    if key.tag_bytes == 0 {
        *count = bytes.len();
        return 0;
    }
    let Some(end) = keyed_of(key) else {
        return NO_KEY;
    };
    let mut end = end;
    match end.verify(number, bytes) {
        Ok(found) => {
            *count = found;
            0
        }
        Err(fault) => {
            key.refused = key.refused.saturating_add(1);
            match fault {
                TagFault::TooShort => NO_TAG,
                TagFault::WrongTag => WRONG_TAG,
            }
        }
    }
}
