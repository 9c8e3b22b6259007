//! The lines of a table.
ghost use Rattle.std.specs.Prelude.{◌≡◌, ◌++◌, OnOk, IfOk};
ghost use Rattle.wire_format.specs.Said.{cause_word};
ghost use Rattle.packet_text.specs.Table.{place_text, named_text, part_text, parts_text, fault_text, telling_text};

use crate::meanings::push_meaning;
use crate::names::push_name;
use crate::text::Text;
use packet_parts::{Part, Telling};
use quantised_fields::KindTable;
use std::alloc::Global;
use tn_types::NoMemory;
use wire_format::{BitsCause, BitsFault};

/// What is wrong with a part, by its name.
pub(crate) fn cause_word(cause: BitsCause) -> &'static str
    ensures { result.now ≡ cause_word cause }
{
    match cause {
        BitsCause::Short => "Short",
        BitsCause::Padding => "Padding",
        BitsCause::KindBits => "KindBits",
        BitsCause::OpBits => "OpBits",
        BitsCause::CountBits => "CountBits",
        BitsCause::LengthBits => "LengthBits",
        BitsCause::UnknownKind => "UnknownKind",
        BitsCause::EmptyMask => "EmptyMask",
        BitsCause::ZeroSeq => "ZeroSeq",
        BitsCause::UnknownSlot => "UnknownSlot",
    }
}

/// Where a part is.
fn push_place(out: &mut Text, part: &Part) -> Result<(), NoMemory>
    ensures { OnOk result (out.new ≡ out.old ++ place_text part.now) }
{
    out.number(part.bit)?;
    out.word(" ")?;
    out.number(part.width)?;
    out.word(" ")
}

/// What it is, and its number.
fn push_named(out: &mut Text, part: &Part) -> Result<(), NoMemory>
    ensures { OnOk result (out.new ≡ out.old ++ named_text part.now) }
{
    push_name(out, part.name)?;
    out.word(" ")?;
    out.number(part.value)
}

/// The line of a part before these.
fn push_part(out: &mut Text, kinds: &KindTable, part: &Part, parts: &[Part]) -> Result<(), NoMemory>
    ensures { OnOk result (out.new ≡ out.old ++ part_text kinds.now part.now parts.now) }
{
    push_place(out, part)?;
    push_named(out, part)?;
    push_meaning(out, kinds, part, parts)?;
    out.word("\n")
}

/// The lines of parts.
fn push_parts(out: &mut Text, kinds: &KindTable, parts: &[Part]) -> Result<(), NoMemory>
    ensures { OnOk result (out.new ≡ out.old ++ parts_text kinds.now parts.now) }
{
    for place in 0..parts.len() {
        push_part(out, kinds, &parts[place], &parts[place + 1..])?;
    }
    Ok(())
}

/// The line of a fault.
fn push_fault(out: &mut Text, fault: Option<BitsFault>) -> Result<(), NoMemory>
    ensures { OnOk result (out.new ≡ out.old ++ fault_text fault) }
{
    let Some(fault) = fault else {
        return Ok(());
    };
    out.number(fault.place)?;
    out.word(" fault ")?;
    out.word(cause_word(fault.cause))?;
    out.word("\n")
}

/// The table of what was told of a datagram, under the table of kinds by which it was read: a line `BIT BITS PART VALUE` for each
/// part, with what the value means after it, and a line `BIT fault CAUSE` for its fault.
///
/// Answers [`NoMemory`] only where there was none for the text.
pub fn table_text(alloc: Global, kinds: &KindTable, telling: &Telling) -> Result<Vec<u8>, NoMemory>
    ensures { IfOk result (λ text. text.items ≡ telling_text kinds.now telling.now) }
{
    let mut out = Text::new(alloc);
    push_parts(&mut out, kinds, telling.parts.as_slice())?;
    push_fault(&mut out, telling.fault)?;
    Ok(out.whole())
}
