//! Names of parts and of fields.
ghost use Rattle.std.specs.Prelude.{◌≡◌, ◌++◌, OnOk};
ghost use Rattle.packet_text.specs.Names.{field_word, name_text, plain_text};

use crate::text::Text;
use packet_parts::PartName;
use tn_types::NoMemory;
use world_rules::kind_word;
use world_rules::kinds::{CLOCK, FLAG, MINE};

/// The third field of a kind.
fn third_word(kind: u8) -> &'static str
    ensures { result.now ≡ field_word kind 2 }
{
    if kind == CLOCK {
        "blue"
    } else if kind == MINE {
        "armed"
    } else if kind == FLAG {
        "holder"
    } else {
        "hp"
    }
}

/// A field of a kind, as scripts and pictures name it.
pub(crate) fn field_word(kind: u8, field: u8) -> &'static str
    ensures { result.now ≡ field_word kind field }
{
    match field {
        0 => if kind == CLOCK { "tick" } else { "x" },
        1 => if kind == CLOCK { "red" } else { "y" },
        2 => third_word(kind),
        3 => "ammo",
        _ => "score",
    }
}

/// What a part is, where it is no level.
fn plain_word(name: PartName) -> &'static str
    ensures { result.now ≡ plain_text name }
{
    match name {
        PartName::Kind => "kind",
        PartName::Client => "client",
        PartName::Seq => "seq",
        PartName::Horizon => "horizon",
        PartName::Mask => "mask",
        PartName::Accepted => "accepted",
        PartName::ControlFlag => "control.flag",
        PartName::ControlSlot => "control.slot",
        PartName::BlockCount => "block.count",
        PartName::BlockNumber => "block.number",
        PartName::BlockLength => "block.length",
        PartName::BlockByte => "block.byte",
        PartName::EventCount => "event.count",
        PartName::EventFlag => "event.guaranteed",
        PartName::EventNumber => "event.number",
        PartName::EventLength => "event.length",
        PartName::EventByte => "event.byte",
        PartName::GhostCount => "ghost.count",
        PartName::Slot => "ghost.slot",
        PartName::Op => "ghost.op",
        PartName::GhostKind => "ghost.kind",
        PartName::GhostBlock => "ghost.block",
        PartName::FieldMask { .. } => "ghost.mask",
        PartName::Level { .. } => "level",
        PartName::FirstMove => "move.first",
        PartName::MoveCount => "move.count",
        PartName::StepX => "move.dx",
        PartName::StepY => "move.dy",
        PartName::Fire => "move.fire",
        PartName::Use => "move.use",
        PartName::MoveLow => "move.low",
        PartName::MoveHigh => "move.high",
    }
}

/// Adds what a part is: of a level its kind and its field.
pub(crate) fn push_name(out: &mut Text, name: PartName) -> Result<(), NoMemory>
    ensures { OnOk result (out.new ≡ out.old ++ name_text name) }
{
    match name {
        PartName::Level { kind, field } => {
            out.word(kind_word(kind))?;
            out.word(".")?;
            out.word(field_word(kind, field))
        }
        _ => out.word(plain_word(name)),
    }
}
