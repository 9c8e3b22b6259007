//! Where the words of lanes lie, and what is in them.
//!
//! Word 0 is never used. Behind it each object has 32 words, whatever the number of clients: one for each of
//! its fields and then one for each client.

ghost use Rattle.std.specs.Prelude.{◌≡◌, ◌*◌, ◌+◌, ◌/◌, ◌%◌, ◌<◌};
ghost use Rattle.dirty_lanes.specs.Words.{field_word, mask_word, packed};

use crate::limits::MAX_LANE_FIELDS;
use tn_types::MAX_CLIENTS;

/// The words of an object: one for each field and one for each client.
pub(crate) const WORDS: usize = MAX_LANE_FIELDS + MAX_CLIENTS as usize;

/// What one version adds to a field's word: the value stands in the 32 bits below it.
pub(crate) const VERSION: u64 = 4_294_967_296;

// The place of a field's word.
pub(crate) fn field_word(object: u32, field: u8) -> usize
    requires { field < MAX_LANE_FIELDS }
    ensures { result ≡ field_word object field }
{
    WORDS * object as usize + field as usize + 1
}

// The place of the word that holds a client's bits of an object.
pub(crate) fn mask_word(client: u8, object: u32) -> usize
    requires { client < MAX_CLIENTS }
    ensures { result ≡ mask_word client object }
{
    WORDS * object as usize + (MAX_LANE_FIELDS + client as usize) + 1
}

// A field's word with this version and value.
pub(crate) fn packed(version: u32, value: u32) -> u64
    ensures { result ≡ packed version value }
{
    u64::from(version) * VERSION + u64::from(value)
}

// The version in a field's word.
pub(crate) fn version_in(word: u64) -> u32
    ensures { result ≡ word / VERSION }
{
    (word / VERSION) as u32
}

// The value in a field's word.
pub(crate) fn value_in(word: u64) -> u32
    ensures { result ≡ word % VERSION }
{
    (word % VERSION) as u32
}
