//! What the value of a part means.
ghost use Rattle.std.specs.Prelude.{◌≡◌, ◌++◌, ◌≤◌, ◌<◌, ◌^◌, OnOk, Some, IfSome, IsTrue, true, length, map, take, codes, slice_get};
ghost use Rattle.std.specs.List.{list_all};
ghost use Rattle.std.specs.Option.{option_copied};
ghost use Rattle.quantised_fields.specs.Levels.{is_sound};
ghost use Rattle.packet_text.specs.Table.{kind_meaning, op_meaning, field_text, fields_text, mask_meaning, number_meaning, shown_text, field_of, is_text, event_text, step_text, meaning};

use crate::names::field_word;
use crate::text::Text;
use packet_parts::{Part, PartName};
use quantised_fields::levels::greatest;
use quantised_fields::{FieldSpec, KindTable, shown};
use tn_types::{MAX_FIELDS, NoMemory};
use world_rules::kind_word;

/// How far a step is raised.
const RAISED_BY: i64 = 8;

/// The first byte that is text, and the last.
const FIRST_TEXT: u32 = 32;

const LAST_TEXT: u32 = 126;

pub(crate) fn kind_meaning(value: u32) -> &'static str
    ensures { result.now ≡ kind_meaning value }
{
    if value == 0 { " data" } else { " ping" }
}

pub(crate) fn op_meaning(value: u32) -> &'static str
    ensures { result.now ≡ op_meaning value }
{
    match value {
        0 => " kill",
        1 => " create",
        _ => " update",
    }
}

/// The name of a field that a mask has.
fn push_field(out: &mut Text, kind: u8, mask: u32, field: u32) -> Result<(), NoMemory>
    requires { field < MAX_FIELDS }
    ensures { OnOk result (out.new ≡ out.old ++ field_text kind mask field) }
{
    if (mask >> field) % 2 != 1 {
        return Ok(());
    }
    out.word(" ")?;
    out.word(field_word(kind, field as u8))
}

/// The names of the fields that a mask of so many has.
fn push_fields(out: &mut Text, kind: u8, mask: u32, count: u32) -> Result<(), NoMemory>
    requires { count ≤ MAX_FIELDS }
    ensures { OnOk result (out.new ≡ out.old ++ fields_text kind mask 0 count) }
{
    for field in 0..count {
        push_field(out, kind, mask, field)?;
    }
    Ok(())
}

/// The names of the fields that a mask has.
fn push_mask(out: &mut Text, kind: u8, mask: u32, width: u32) -> Result<(), NoMemory>
    ensures { OnOk result (out.new ≡ out.old ++ mask_meaning kind mask width) }
{
    if width > MAX_FIELDS as u32 {
        return Ok(());
    }
    push_fields(out, kind, mask, width)
}

/// The name of a kind.
pub(crate) fn push_kind(out: &mut Text, kind: u32) -> Result<(), NoMemory>
    ensures { OnOk result (out.new ≡ out.old ++ number_meaning kind) }
{
    if kind > 255 {
        return Ok(());
    }
    out.word(" ")?;
    out.word(kind_word(kind as u8))
}

/// The field of a kind.
fn field_of(kinds: &KindTable, kind: u8, field: u8) -> Option<&FieldSpec>
    ensures value { option_copied result ≡ field_of (slice_get kinds.now kind) field }
    ensures sound { IfSome result (λ spec. IsTrue (is_sound spec.now)) }
{
    match kinds.kind(kind) {
        None => None,
        Some(kind) => kind.fields.as_slice().get(field as usize),
    }
}

/// Two to the power of the bits of a field.
#[tactic(auto, using(quantised_fields::proofs::Specs::greatest_above))]
fn levels_of(spec: &FieldSpec) -> u64
    requires { IsTrue (is_sound spec.now) }
    ensures { result ≡ 2 ^ spec.now.bits }
{
    greatest(spec) + 1
}

/// The value that a level of a field shows.
fn push_level(out: &mut Text, spec: &FieldSpec, level: u32) -> Result<(), NoMemory>
    requires { IsTrue (is_sound spec.now) }
    ensures { OnOk result (out.new ≡ out.old ++ shown_text (Some spec.now) level) }
{
    if u64::from(level) >= levels_of(spec) {
        return Ok(());
    }
    out.word(" ")?;
    out.signed(shown(spec, level))
}

/// The value that a level shows.
pub(crate) fn push_shown(
    out: &mut Text,
    kinds: &KindTable,
    kind: u8,
    field: u8,
    level: u32,
) -> Result<(), NoMemory>
    ensures { OnOk result (out.new ≡ out.old ++ shown_text (field_of (slice_get kinds.now kind) field) level) }
{
    match field_of(kinds, kind, field) {
        None => Ok(()),
        Some(spec) => push_level(out, spec, level),
    }
}

/// Whether all of these bytes are text.
fn are_text(parts: &[Part]) -> bool
    ensures { result ≡ list_all is_text parts.now }
{
    for part in parts {
        if part.value < FIRST_TEXT || LAST_TEXT < part.value {
            return false;
        }
    }
    true
}

/// The bytes of these parts, which are text.
fn push_bytes(out: &mut Text, parts: &[Part]) -> Result<(), NoMemory>
    requires { list_all is_text parts.now ≡ true }
    ensures { OnOk result (out.new ≡ out.old ++ map (λ p. p.value) parts.now) }
{
    for part in parts {
        out.byte(part.value)?;
    }
    Ok(())
}

/// An event of text: of these parts the first `count` are its bytes.
pub(crate) fn push_event(out: &mut Text, count: u32, parts: &[Part]) -> Result<(), NoMemory>
    ensures { OnOk result (out.new ≡ out.old ++ event_text count parts.now) }
{
    if count == 0 || parts.len() < count as usize {
        return Ok(());
    }
    let front = &parts[..count as usize];
    if !are_text(front) {
        return Ok(());
    }
    out.word(" \"")?;
    push_bytes(out, front)?;
    out.word("\"")
}

/// A step as it is meant.
fn push_step(out: &mut Text, value: u32) -> Result<(), NoMemory>
    ensures { OnOk result (out.new ≡ out.old ++ step_text value) }
{
    out.word(" ")?;
    out.signed(i64::from(value) - RAISED_BY)
}

/// What the value of a part before these means.
pub(crate) fn push_meaning(
    out: &mut Text,
    kinds: &KindTable,
    part: &Part,
    parts: &[Part],
) -> Result<(), NoMemory>
    ensures { let p = part.now in
        OnOk result (out.new ≡ out.old ++ meaning kinds.now p.name p.width p.value parts.now) }
{
    match part.name {
        PartName::Kind => out.word(kind_meaning(part.value)),
        PartName::Op => out.word(op_meaning(part.value)),
        PartName::GhostKind => push_kind(out, part.value),
        PartName::FieldMask { kind } => push_mask(out, kind, part.value, part.width),
        PartName::Level { kind, field } => push_shown(out, kinds, kind, field, part.value),
        PartName::EventLength => push_event(out, part.value, parts),
        PartName::StepX => push_step(out, part.value),
        PartName::StepY => push_step(out, part.value),
        _ => Ok(()),
    }
}
