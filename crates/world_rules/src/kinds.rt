//! The kinds of a match: their fields, weights and numbers.
ghost use Rattle.std.specs.Prelude.{◌≡◌, ◌≤◌, None, pos, length};
ghost use Rattle.quantised_fields.specs.Kinds.{table_fault};
ghost use Rattle.world_rules.specs.Kinds.{coordinate, player_kind, disc_kind, mine_kind, drone_kind, flag_kind, clock_kind, kind_word, match_kinds as the_kinds};

use crate::limits::MAX_COORDINATE;
use crate::object::{MAX_AMMO, MAX_HP, MAX_SCORE, MAX_TICK};
use quantised_fields::{FieldList, FieldSpec, Kind, KindTable};
use tn_types::{MAX_CLIENTS, MAX_LISTED_FIELDS};

/// The number of the kind of players.
pub const PLAYER: u8 = 0;
/// The number of the kind of discs.
pub const DISC: u8 = 1;
/// The number of the kind of mines.
pub const MINE: u8 = 2;
/// The number of the kind of drones.
pub const DRONE: u8 = 3;
/// The number of the kind of flags.
pub const FLAG: u8 = 4;
/// The number of the kind of clocks.
pub const CLOCK: u8 = 5;

/// A kind as scripts and reports name it, and `unknown` where no kind of a match has this number (docs/world.md, "Kinds").
pub fn kind_word(kind: u8) -> &'static str
    ensures { result.now ≡ kind_word kind }
{
    if kind == PLAYER {
        "player"
    } else if kind == DISC {
        "disc"
    } else if kind == MINE {
        "mine"
    } else if kind == DRONE {
        "drone"
    } else if kind == FLAG {
        "flag"
    } else if kind == CLOCK {
        "clock"
    } else {
        "unknown"
    }
}

fn field(hi: i64, bits: u32) -> FieldSpec
    ensures { result ≡ record { lo = pos 0; hi = hi; bits = bits } }
{
    FieldSpec { lo: 0, hi, bits }
}

fn kind(fields: &[FieldSpec], weight: u8, always: bool) -> Kind
    requires { length fields.now ≤ MAX_LISTED_FIELDS }
    ensures { result ≡ record { fields = fields.now; weight = weight; always = always } }
{
    Kind {
        fields: FieldList::from_slice(fields),
        weight,
        always,
    }
}

fn coordinate() -> FieldSpec
    ensures { result ≡ coordinate }
{
    field(i64::from(MAX_COORDINATE), 16)
}

fn player_kind() -> Kind
    ensures { result ≡ player_kind }
{
    let (hp, ammo, score) = (
        field(i64::from(MAX_HP), 7),
        field(i64::from(MAX_AMMO), 5),
        field(i64::from(MAX_SCORE), 8),
    );
    kind(&[coordinate(), coordinate(), hp, ammo, score], 8, false)
}

fn disc_kind() -> Kind
    ensures { result ≡ disc_kind }
{
    kind(&[coordinate(), coordinate()], 6, false)
}

fn mine_kind() -> Kind
    ensures { result ≡ mine_kind }
{
    let armed = field(1, 1);
    kind(&[coordinate(), coordinate(), armed], 3, false)
}

fn drone_kind() -> Kind
    ensures { result ≡ drone_kind }
{
    let (rough, hp) = (
        field(i64::from(MAX_COORDINATE), 12),
        field(i64::from(MAX_HP), 5),
    );
    kind(&[rough, rough, hp], 4, false)
}

fn flag_kind() -> Kind
    ensures { result ≡ flag_kind }
{
    let holder = field(i64::from(MAX_CLIENTS), 5);
    kind(&[coordinate(), coordinate(), holder], 5, true)
}

fn clock_kind() -> Kind
    ensures { result ≡ clock_kind }
{
    let (tick, captures) = (
        field(i64::from(MAX_TICK), 24),
        field(i64::from(MAX_SCORE), 8),
    );
    kind(&[tick, captures, captures], 1, true)
}

/// The six kinds of a match (docs/world.md, "Kinds").
pub fn match_kinds() -> KindTable
    ensures { result ≡ the_kinds }
{
    let player = player_kind();
    let disc = disc_kind();
    let mine = mine_kind();
    let drone = drone_kind();
    let flag = flag_kind();
    let clock = clock_kind();
    table(&[player, disc, mine, drone, flag, clock])
}

fn table(kinds: &[Kind]) -> KindTable
    requires { table_fault kinds.now ≡ None }
    ensures { result ≡ kinds.now }
{
    match KindTable::new(kinds) {
        Ok(table) => table,
        Err(_) => unreachable!(),
    }
}
