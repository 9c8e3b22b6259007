//! What an end is made with, from lists of numbers.
ghost use Rattle.std.specs.Prelude.{◌≡◌, ◌≤◌, ◌<◌, ◌∷◌, ◌++◌, [], true, false, length, map, vec_len, IfOk};
ghost use Rattle.std.specs.Result.{result_err};
ghost use Rattle.stream_manager.specs.Limits.{IsConfig};
ghost use Rattle.tribes_ends.specs.Making.{move_bits_of, config_of, config_refusal, field_of, kinds_of, kinds_refusal, blocks_of, blocks_refusal, IsMadeUnless};

use crate::refusal::Refusal;
use quantised_fields::{FieldList, FieldSpec, Kind, KindFault, KindTable};
use std::alloc::Global;
use stream_manager::{Config, ConfigFault};
use tn_types::{BlockBytes, MAX_BLOCKS, MAX_KINDS, MAX_LISTED_FIELDS, ShortList};
use wire_format::{Wire, move_width};

/// The values of a field, `lo` to `hi`, and the bits in which one travels.
#[repr(C)]
#[derive(Clone, Copy, Debug, PartialEq, Eq)]
pub struct FieldRow {
    pub lo: i64,
    pub hi: i64,
    pub bits: u32,
}

/// How many fields a kind has, and how much its objects weigh in a packet's order.
#[repr(C)]
#[derive(Clone, Copy, Debug, PartialEq, Eq)]
pub struct KindRow {
    pub fields: u32,
    pub weight: u8,
}

/// The client's number, the life of the connection's counters, the bytes of a datagram at the most, the wire's version, and the bits of a
/// move: 1 to 64 in version 3; in versions 1 and 2 they are ten, and 0 stands for these.
#[repr(C)]
#[derive(Clone, Copy, Debug, PartialEq, Eq)]
pub struct ConfigRow {
    pub client: u32,
    pub life: u32,
    pub size: u32,
    pub version: u32,
    pub move_bits: u32,
}

/// The number as a byte, or one that stands for none.
fn narrow(number: u32) -> u8
    ensures same { number < 255 → result ≡ number }
    ensures most { 255 ≤ number → result ≡ 255 }
{
    if number < 255 { number as u8 } else { 255 }
}

/// The bits of a move: 0 stands for those that the version has by itself.
fn move_bits(row: &ConfigRow) -> u32
    ensures { result ≡ move_bits_of row.now }
{
    if row.move_bits == 0 {
        move_width(Wire {
            version: narrow(row.version),
            move_bits: 0,
        })
    } else {
        row.move_bits
    }
}

/// The configuration of these numbers.
pub fn config(row: &ConfigRow) -> Result<Config, Refusal>
    ensures fits { IfOk result IsConfig }
    ensures value { IfOk result (λ c. c ≡ config_of row.now) }
    ensures refused { result_err result ≡ config_refusal row.now }
{
    let client = narrow(row.client);
    let version = narrow(row.version);
    let bits = narrow(move_bits(row));
    match Config::new(client, row.life, row.size, version, bits) {
        Ok(config) => Ok(config),
        Err(ConfigFault::Client { .. }) => Err(Refusal::BadClient { client: row.client }),
        Err(ConfigFault::Life { life }) => Err(Refusal::BadLife { life }),
        Err(ConfigFault::Version { .. }) => Err(Refusal::BadVersion {
            version: row.version,
        }),
        Err(ConfigFault::MoveBits { .. }) => Err(Refusal::BadMoveBits {
            move_bits: row.move_bits,
        }),
        Err(ConfigFault::Size { size }) => Err(Refusal::BadSize { size }),
    }
}

/// The list of these fields.
fn field_list(rows: &[FieldRow]) -> FieldList
    requires { length rows.now ≤ MAX_LISTED_FIELDS }
    ensures { result ≡ map field_of rows.now }
{
    let mut list = FieldList::new();
    'rows: for row in rows {
        list.push(FieldSpec {
            lo: row.lo,
            hi: row.hi,
            bits: row.bits,
        });
    }
    list
}

/// The table of these kinds, whose fields stand one after the other.
pub fn kind_table(kinds: &[KindRow], fields: &[FieldRow]) -> Result<KindTable, Refusal>
    ensures table { IfOk result (λ table. table ≡ kinds_of kinds.now fields.now) }
    ensures refused { result_err result ≡ kinds_refusal kinds.now fields.now }
{
    if kinds.len() > MAX_KINDS {
        return Err(Refusal::BadKinds(KindFault::TooManyKinds));
    }
    let mut list: ShortList<Kind, MAX_KINDS> = ShortList::new();
    let mut rest = fields;
    'kinds: for kind in kinds {
        let count = kind.fields as usize;
        if count > rest.len() || count > MAX_LISTED_FIELDS {
            return Err(Refusal::BadFieldCounts);
        }
        let (own, later) = rest.split_at(count);
        rest = later;
        list.push(Kind {
            fields: field_list(own),
            weight: kind.weight,
            always: false,
        });
    }
    if !rest.is_empty() {
        return Err(Refusal::BadFieldCounts);
    }
    match KindTable::new(list.as_slice()) {
        Ok(table) => Ok(table),
        Err(fault) => Err(Refusal::BadKinds(fault)),
    }
}

/// Appends a block, as long as memory was to be had; tells whether it still is.
fn keep(list: &mut Vec<BlockBytes>, room: bool, block: BlockBytes) -> bool
    ensures room { result ≡ true → room ≡ true }
    ensures kept { result ≡ true → list.new.items ≡ list.old.items ++ block ∷ [] }
{
    if room {
        match list.push(block) {
            Ok(()) => true,
            Err(_) => false,
        }
    } else {
        false
    }
}

/// The blocks of these lengths, at most 64, whose bytes stand one after the other.
pub(crate) fn block_list(
    alloc: Global,
    bytes: &[u8],
    lengths: &[u32],
) -> Result<Vec<BlockBytes>, Refusal>
    ensures few { IfOk result (λ list. vec_len list ≤ MAX_BLOCKS) }
    ensures blocks { IfOk result (λ list. list.items ≡ blocks_of bytes.now lengths.now) }
    ensures refused { IsMadeUnless (blocks_refusal bytes.now lengths.now) result }
{
    if lengths.len() > MAX_BLOCKS {
        return Err(Refusal::BadBlocks);
    }
    let mut list: Vec<BlockBytes> = Vec::new(alloc);
    // want of memory is told after all that may be wrong
    let mut room = true;
    let mut rest = bytes;
    'lengths: for number in lengths {
        let count = *number as usize;
        if count > rest.len() {
            return Err(Refusal::BadBlocks);
        }
        let (own, later) = rest.split_at(count);
        rest = later;
        let Some(block) = BlockBytes::from_slice(own) else {
            return Err(Refusal::BadBlocks);
        };
        room = keep(&mut list, room, block);
    }
    if !rest.is_empty() {
        return Err(Refusal::BadBlocks);
    }
    if room {
        Ok(list)
    } else {
        Err(Refusal::NoMemory)
    }
}
