//! What puts tags behind datagrams, and verifies those of the other end.
ghost use Rattle.std.specs.Prelude.{◌≡◌, ◌≤◌, ◌+◌, ℕ, List, length, take, drop, IfOk, IfErr, OnOk, OnErr, Ok, min, ◌^◌, ◌-◌};
ghost use Rattle.datagram_tags.specs.Tagging.{other};

use crate::sides::{Side, TagBytes, is_same};
use keyed_digest::{DIGEST_BYTES, keyed_digest};
use std::marker::Model;

/// So many bytes has a key.
pub const KEY_BYTES: usize = 32;

/// Why a datagram is not taken.
#[derive(Clone, Copy, Debug, PartialEq, Eq)]
pub enum TagFault {
    /// It has fewer bytes than a tag.
    TooShort,
    /// Its tag is not that of its bytes, its number and the other end.
    WrongTag,
}

/// An end's key. A clause sees `KeyedState`.
#[derive(Drop)]
pub struct KeyedEnd {
    key: [u8; KEY_BYTES],
    tag: TagBytes,
    side: Side,
    refused: u64,
}

impl Model for KeyedEnd {
    ghost use Rattle.datagram_tags.specs.Tagging.{KeyedState};

    ghost Value = { KeyedState };

    ghost view = { λ s. record { key = s.key; tag = s.tag; side = s.side; refused = s.refused } };
}

impl KeyedEnd {
    ghost use Rattle.datagram_tags.specs.Tagging.{KeyedState, tag_bytes, tag_of, tagged, Verifies, counted};

    /// An end under a key. Both ends have the same key, which nobody else is to have, and tags of the same length.
    pub fn new(key: [u8; KEY_BYTES], tag: TagBytes, side: Side) -> KeyedEnd
        ensures { result ≡ record { key = key; tag = tag; side = side; refused = 0 } }
    {
        KeyedEnd {
            key,
            tag,
            side,
            refused: 0,
        }
    }

    // The digest of which a tag is the first bytes.
    #[tactic(auto, unfolding(crate::specs::Tagging::covered))]
    fn digest(&self, side: Side, number: u64, bytes: &[u8]) -> [u8; DIGEST_BYTES]
        ensures { take (tag_bytes self.now.tag) result ≡ tag_of self.now side number bytes.now }
    {
        let [n0, n1, n2, n3, n4, n5, n6, n7] = number.to_le_bytes();
        keyed_digest(
            &self.key,
            &[side.byte(), n0, n1, n2, n3, n4, n5, n6, n7],
            bytes,
        )
    }

    /// Puts a tag behind the first `count` bytes of a place, over which number of the datagram both ends agree. So many bytes are then to
    /// be sent.
    pub fn append_tag(&self, number: u64, place: &mut [u8], count: usize) -> usize
        requires { count + tag_bytes self.now.tag ≤ length place.old }
        ensures count { result ≡ count + tag_bytes self.now.tag }
        ensures tagged { take result place.new ≡ tagged self.now self.now.side number (take count place.old) }
        ensures rest { drop result place.new ≡ drop result place.old }
    {
        let tag = self.tag.count();
        let digest = self.digest(self.side, number, &place[..count]);
        place[count..count + tag].copy_from_slice(&digest[..tag]);
        count + tag
    }

    // Whether a datagram has its tag, and how many bytes stand before it.
    fn look(&self, number: u64, datagram: &[u8]) -> Result<usize, TagFault>
        ensures answer { Verifies self.now number datagram.now result }
    {
        let tag = self.tag.count();
        if datagram.len() < tag {
            return Err(TagFault::TooShort);
        }
        let (bytes, found) = datagram.split_at(datagram.len() - tag);
        let digest = self.digest(self.side.other(), number, bytes);
        if is_same(found, &digest[..tag]) {
            Ok(bytes.len())
        } else {
            Err(TagFault::WrongTag)
        }
    }

    /// A datagram came, with this number. It is taken where it carries the tag of its bytes, of the number and of the other end: so many
    /// first bytes of it are what was tagged. Else it is refused and counted, and nothing else is changed.
    pub fn verify(&mut self, number: u64, datagram: &[u8]) -> Result<usize, TagFault>
        ensures answer { Verifies self.old number datagram.now result }
        ensures verifies { (bytes : List ℕ) → datagram.now ≡ tagged self.old (other self.old.side) number bytes → result ≡ Ok (length bytes) }
        ensures unchanged { OnOk result (self.new ≡ self.old) }
        ensures counts { OnErr result (self.new ≡ record self.old { refused = counted self.old.refused }) }
    {
        let answer = self.look(number, datagram);
        if answer.is_err() {
            self.refused = self.refused.saturating_add(1);
        }
        answer
    }

    /// How many datagrams were refused; from 2^64 - 1 on it stays.
    pub fn refused(&self) -> u64
        ensures { result ≡ self.now.refused }
    {
        self.refused
    }
}
