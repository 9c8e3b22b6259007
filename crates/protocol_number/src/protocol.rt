//! The protocol number: SHA-256 over the configuration, the kinds and a word of the game's own.
ghost use Rattle.std.specs.Prelude.{◌≡◌, ◌≤◌, ◌++◌, ℕ, List, length};
ghost use Rattle.std.specs.List.{flat_map};
ghost use Rattle.sha2.specs.Sha256.{sha256};
ghost use Rattle.sha2.specs.Hashers.{Holds256};
ghost use Rattle.tn_types.specs.declared.limits.TheConstants.{MAX_KINDS};
ghost use Rattle.protocol_number.specs.Protocol.{config_bytes, field_bytes, head_bytes, kind_bytes, bytes_at, protocol_bytes};

use quantised_fields::{FieldSpec, Kind, KindTable};
use sha2::{Digest, Sha256};
use tn_types::MAX_KINDS;

/// The version of the form in which all is written before it is digested.
pub const FORM_VERSION: u32 = 1;

/// What both ends of a connection have besides the kinds.
#[derive(Clone, Copy)]
pub struct Protocol {
    /// The version of the datagrams.
    pub version: u32,
    /// The bytes of a datagram at the most.
    pub size: u32,
    /// What ends each counter of a connection.
    pub life: u32,
    /// The bits of a move.
    pub move_bits: u32,
}

#[tactic(auto, unfolding(crate::specs::Protocol::config_bytes))]
fn config_bytes(protocol: Protocol) -> [u8; 20]
    ensures { result ≡ config_bytes protocol }
{
    let [f0, f1, f2, f3] = FORM_VERSION.to_le_bytes();
    let [v0, v1, v2, v3] = protocol.version.to_le_bytes();
    let [s0, s1, s2, s3] = protocol.size.to_le_bytes();
    let [l0, l1, l2, l3] = protocol.life.to_le_bytes();
    let [m0, m1, m2, m3] = protocol.move_bits.to_le_bytes();
    [
        f0, f1, f2, f3, v0, v1, v2, v3, s0, s1, s2, s3, l0, l1, l2, l3, m0, m1, m2, m3,
    ]
}

#[tactic(auto, unfolding(crate::specs::Protocol::field_bytes))]
fn field_bytes(field: &FieldSpec) -> [u8; 20]
    ensures { result ≡ field_bytes field.now }
{
    let [a0, a1, a2, a3, a4, a5, a6, a7] = field.lo.to_le_bytes();
    let [b0, b1, b2, b3, b4, b5, b6, b7] = field.hi.to_le_bytes();
    let [c0, c1, c2, c3] = field.bits.to_le_bytes();
    [
        a0, a1, a2, a3, a4, a5, a6, a7, b0, b1, b2, b3, b4, b5, b6, b7, c0, c1, c2, c3,
    ]
}

#[tactic(auto, unfolding(crate::specs::Protocol::head_bytes))]
fn head_bytes(count: u64, weight: u8, always: bool) -> [u8; 11]
    ensures { result ≡ head_bytes count weight always }
{
    let [c0, c1, c2, c3, c4, c5, c6, c7] = count.to_le_bytes();
    let seen = if always { 1 } else { 0 };
    [1, weight, seen, c0, c1, c2, c3, c4, c5, c6, c7]
}

// Adds the fields of a kind to what is digested.
fn put_fields(hasher: &mut Sha256, fields: &[FieldSpec])
    ensures { (m : List ℕ) → Holds256 hasher.old m → Holds256 hasher.new (m ++ flat_map field_bytes fields.now) }
{
    'fields: for i in 0..fields.len() {
        hasher.update(field_bytes(&fields[i]));
    }
}

// Adds a kind.
fn put_kind(hasher: &mut Sha256, kind: &Kind)
    ensures { (m : List ℕ) → Holds256 hasher.old m → Holds256 hasher.new (m ++ kind_bytes kind.now) }
{
    let fields = kind.fields.as_slice();
    hasher.update(head_bytes(fields.len() as u64, kind.weight, kind.always));
    put_fields(hasher, fields);
}

// No table has more kinds than this.
fn learn_few(table: &KindTable)
    ensures { length table.now ≤ MAX_KINDS }
{
    // for its clauses
    let _kind = table.kind(0);
}

// Adds the kind of a number, if there is one.
fn put_kind_of(hasher: &mut Sha256, kinds: &KindTable, k: u8)
    ensures { (m : List ℕ) → Holds256 hasher.old m → Holds256 hasher.new (m ++ bytes_at kinds.now k) }
{
    match kinds.kind(k) {
        Some(kind) => put_kind(hasher, kind),
        None => {}
    }
}

// Adds all kinds.
fn put_kinds(hasher: &mut Sha256, kinds: &KindTable)
    ensures { (m : List ℕ) → Holds256 hasher.old m → Holds256 hasher.new (m ++ flat_map kind_bytes kinds.now) }
{
    learn_few(kinds);
    'kinds: for k in 0..MAX_KINDS as u8 {
        put_kind_of(hasher, kinds, k);
    }
}

/// The number of a configuration, the kinds of a match, and a word of the game's own, as its name and version. Both ends of a connection
/// reckon it, and a greeting compares them.
pub fn protocol_number(protocol: Protocol, kinds: &KindTable, word: &[u8]) -> [u8; 32]
    ensures { result ≡ sha256 (protocol_bytes protocol kinds.now word.now) }
{
    let mut hasher = Sha256::new();
    hasher.update(config_bytes(protocol));
    put_kinds(&mut hasher, kinds);
    hasher.update([0]);
    hasher.update(word);
    hasher.finalize()
}
