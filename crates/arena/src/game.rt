//! The game: the kinds of its objects, what is told of them once, and what a connection is made with.
ghost use Rattle.std.specs.Prelude.{◌≤◌, length, IfOk};
ghost use Rattle.stream_manager.specs.Limits.{IsConfig};

use quantised_fields::{FieldList, FieldSpec, Kind, KindFault, KindTable};
use stream_manager::{Config, ConfigFault};
use tn_types::{BlockBytes, MAX_LISTED_FIELDS};

/// The kind of tanks, and the block that tells of them.
pub const TANK: u8 = 0;

/// The kind of mines, and the block that tells of them.
pub const MINE: u8 = 1;

/// The greatest coordinate of a place.
pub const EDGE: i64 = 1_023;

/// A field of 0 to `hi`, which travels in so many bits.
fn field(hi: i64, bits: u32) -> FieldSpec {
    FieldSpec { lo: 0, hi, bits }
}

/// A kind of these fields. Of two objects the one of the greater weight goes first.
fn kind(fields: &[FieldSpec], weight: u8) -> Kind
    requires { length fields.now ≤ MAX_LISTED_FIELDS }
{
    Kind {
        fields: FieldList::from_slice(fields),
        weight,
        always: false,
    }
}

/// A tank has its place and its armour, a mine its place.
pub fn kinds() -> Result<KindTable, KindFault> {
    let place = field(EDGE, 10);
    let armour = field(100, 7);
    KindTable::new(&[kind(&[place, place, armour], 8), kind(&[place, place], 2)])
}

/// What never changes of a kind, as the name of its model: it is sent once, before the first object that was shown with it.
pub fn block(bytes: &[u8]) -> Result<BlockBytes, &'static str> {
    BlockBytes::from_slice(bytes).ok_or("a block has more than 40 bytes")
}

/// Client 0; a million packets, events and moves; datagrams of at most 128 bytes; version 2, in which a move has ten bits.
pub fn config() -> Result<Config, ConfigFault>
    ensures { IfOk result IsConfig }
{
    Config::new(0, 1_000_000, 128, 2, 10)
}
