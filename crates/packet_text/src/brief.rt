//! A datagram in one line.
ghost use Rattle.std.specs.Prelude.{◌≡◌, ◌++◌, [], OnOk, IfOk};
ghost use Rattle.packet_text.specs.Brief.{word_of, numbered, brief_of, briefs_of, fault_brief, line_text, told_text};

use crate::meanings::{kind_meaning, op_meaning, push_event, push_kind, push_shown};
use crate::names::field_word;
use crate::table::{cause_word, table_text};
use crate::text::Text;
use packet_parts::{Part, PartName, Telling};
use quantised_fields::KindTable;
use std::alloc::Global;
use tn_types::NoMemory;
use wire_format::BitsFault;

/// What stands before the number of a part, or nothing where it is told by none.
fn word_of(name: PartName) -> &'static str
    ensures { result.now ≡ word_of name }
{
    match name {
        PartName::Client => " client ",
        PartName::Seq => " seq ",
        PartName::Horizon => " horizon ",
        PartName::Accepted => " accepted ",
        PartName::ControlSlot => " control ",
        PartName::BlockNumber => ", block ",
        PartName::BlockLength => " length ",
        PartName::EventNumber => " ",
        PartName::EventLength => " length ",
        PartName::Slot => ", slot ",
        PartName::GhostBlock => " block ",
        PartName::FirstMove => ", moves from ",
        PartName::MoveCount => " count ",
        _ => "",
    }
}

/// A word and a number, or nothing where there is no word.
fn push_numbered(out: &mut Text, word: &str, value: u32) -> Result<(), NoMemory>
    ensures { OnOk result (out.new ≡ out.old ++ numbered word.now value) }
{
    if word.is_empty() {
        return Ok(());
    }
    out.word(word)?;
    out.number(value)
}

/// The name of a field of a kind, and the value that its level shows.
fn push_field(
    out: &mut Text,
    kinds: &KindTable,
    kind: u8,
    field: u8,
    level: u32,
) -> Result<(), NoMemory>
    ensures { OnOk result (out.new ≡ out.old ++ brief_of kinds.now (PartName.Level kind field) level []) }
{
    out.word(" ")?;
    out.word(field_word(kind, field))?;
    push_shown(out, kinds, kind, field, level)
}

/// The length of an event, and the event if it is text.
fn push_said(out: &mut Text, count: u32, parts: &[Part]) -> Result<(), NoMemory>
    ensures { OnOk result (out.new ≡ out.old ++ brief_of [] PartName.EventLength count parts.now) }
{
    push_numbered(out, word_of(PartName::EventLength), count)?;
    push_event(out, count, parts)
}

/// What the line says of a part before these.
fn push_brief(
    out: &mut Text,
    kinds: &KindTable,
    part: &Part,
    parts: &[Part],
) -> Result<(), NoMemory>
    ensures { OnOk result (out.new ≡ out.old ++ brief_of kinds.now part.now.name part.now.value parts.now) }
{
    match part.name {
        PartName::Kind => out.word(kind_meaning(part.value)),
        PartName::EventFlag => out.word(", event"),
        PartName::EventLength => push_said(out, part.value, parts),
        PartName::Op => out.word(op_meaning(part.value)),
        PartName::GhostKind => push_kind(out, part.value),
        PartName::Level { kind, field } => push_field(out, kinds, kind, field, part.value),
        _ => push_numbered(out, word_of(part.name), part.value),
    }
}

/// What the line says of parts.
fn push_briefs(out: &mut Text, kinds: &KindTable, parts: &[Part]) -> Result<(), NoMemory>
    ensures { OnOk result (out.new ≡ out.old ++ briefs_of kinds.now parts.now) }
{
    for place in 0..parts.len() {
        push_brief(out, kinds, &parts[place], &parts[place + 1..])?;
    }
    Ok(())
}

/// A fault, behind the parts before it.
fn push_fault(out: &mut Text, fault: Option<BitsFault>) -> Result<(), NoMemory>
    ensures { OnOk result (out.new ≡ out.old ++ fault_brief fault) }
{
    let Some(fault) = fault else {
        return Ok(());
    };
    out.word(", fault ")?;
    out.word(cause_word(fault.cause))?;
    out.word(" at ")?;
    out.number(fault.place)
}

/// What was told of a datagram in one line.
fn line_text(alloc: Global, kinds: &KindTable, telling: &Telling) -> Result<Vec<u8>, NoMemory>
    ensures { IfOk result (λ text. text.items ≡ line_text kinds.now telling.now) }
{
    let mut out = Text::new(alloc);
    push_briefs(&mut out, kinds, telling.parts.as_slice())?;
    push_fault(&mut out, telling.fault)?;
    out.word("\n")?;
    Ok(out.whole())
}

/// What was told of a datagram under a table of kinds: in one line, which begins with a space, or as a table.
///
/// Answers [`NoMemory`] only where there was none for the text.
pub fn told_text(
    alloc: Global,
    kinds: &KindTable,
    telling: &Telling,
    brief: bool,
) -> Result<Vec<u8>, NoMemory>
    ensures { IfOk result (λ text. text.items ≡ told_text brief kinds.now telling.now) }
{
    if brief {
        line_text(alloc, kinds, telling)
    } else {
        table_text(alloc, kinds, telling)
    }
}
