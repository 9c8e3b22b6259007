//! What a client's end tells a timeline of the packet that came last.
ghost use Rattle.std.specs.Prelude.{◌≡◌, [], ◌∷◌, ◌≤◌, ◌<◌, ◌^◌, Ok, None, OnOk, OnErr, IsTrue, length};
ghost use Rattle.std.specs.Result.{result_err};
ghost use Rattle.quantised_fields.specs.Levels.{is_sound, shown_of};
ghost use Rattle.ghost_client.specs.State.{value_of};
ghost use Rattle.stream_manager.specs.ClientCalls.{Answers};
ghost use Rattle.timeline.specs.Telling.{Came};
ghost use Rattle.timeline.specs.Standing.{Hears, KeepsShape, slot_check, packet_check};
ghost use Rattle.tribes_ends.specs.Drawing.{narrowed, FitFields, value_shown, told_value, told_fields, told_item, told_items, packet_of, HearsOf, item_fault, items_fault, hearing_fault};

use crate::asking::has_field;
use crate::counts::or_zero;
use crate::rows::first_bits;
use ghost_client::{Copies, GhostCopy};
use quantised_fields::{FieldSpec, shown};
use stream_manager::Client;
use timeline::{Refusal, Timeline};
use wire_format::GhostItem;

/// The least value that a timeline holds.
pub const LEAST_VALUE: i64 = -2_147_483_648;

/// The greatest value that a timeline holds.
pub const MOST_VALUE: i64 = 2_147_483_647;

/// Why a timeline was told nothing.
#[derive(Clone, Copy)]
pub enum DrawFault {
    /// The call is for a client's end.
    WrongEnd,
    /// The timeline refuses the packet, or the first item that it has no place for.
    Untold(Refusal),
}

/// The nearest value of 32 bits.
fn narrowed(value: i64) -> i32
    ensures { result ≡ narrowed value }
{
    if value < LEAST_VALUE {
        return i32::MIN;
    }
    if value > MOST_VALUE {
        return i32::MAX;
    }
    value as i32
}

/// The value that a level shows, without a division where each level has a value of its own.
#[tactic(auto, using(crate::proofs::Hearing::own_value))]
fn level_shown(spec: &FieldSpec, level: u32) -> i64
    requires sound { IsTrue (is_sound spec.now) }
    requires fits { level < 2 ^ spec.now.bits }
    ensures { result ≡ shown_of spec.now level }
{
    if spec.hi - spec.lo == i64::from(first_bits(spec.bits as usize)) {
        return spec.lo + i64::from(level);
    }
    shown(spec, level)
}

/// The value that the level of a field shows.
fn value_shown(fields: &[FieldSpec], levels: &[u32], field: u32) -> Option<i64>
    requires { FitFields fields.now levels.now }
    ensures { result ≡ value_shown fields.now levels.now field }
{
    let Some(spec) = fields.get(field as usize) else {
        return None;
    };
    match levels.get(field as usize) {
        Some(level) => Some(level_shown(spec, *level)),
        None => None,
    }
}

/// Tells a value of a field.
#[tactic(auto, using(crate::proofs::Hearing::still_heard))]
fn tell_value(timeline: &mut Timeline, packet: u32, slot: u32, field: u32, value: i32)
    requires slot { slot < length timeline.old.slots }
    requires field { field < timeline.old.fields }
    requires packet { packet_check timeline.old packet ≡ Ok tt }
    ensures told { Hears timeline.old (record { slot = slot; packet = packet; what = Came field value } ∷ []) timeline.new }
    ensures shape { KeepsShape timeline.old timeline.new }
    ensures packet { packet_check timeline.new packet ≡ Ok tt }
{
    timeline.came_checked(slot, packet, field, value);
}

/// Tells the value that the level of a field shows.
fn tell_field(
    timeline: &mut Timeline,
    packet: u32,
    fields: &[FieldSpec],
    levels: &[u32],
    slot: u8,
    field: u32,
)
    requires slot { slot < length timeline.old.slots }
    requires field { field < timeline.old.fields }
    requires packet { packet_check timeline.old packet ≡ Ok tt }
    requires fit { FitFields fields.now levels.now }
    ensures told { Hears timeline.old (told_value packet slot field (value_shown fields.now levels.now field)) timeline.new }
    ensures shape { KeepsShape timeline.old timeline.new }
    ensures packet { packet_check timeline.new packet ≡ Ok tt }
{
    if let Some(value) = value_shown(fields, levels, field) {
        tell_value(timeline, packet, u32::from(slot), field, narrowed(value));
    }
}

/// Tells the values of the fields whose bits are set.
fn tell_fields(timeline: &mut Timeline, packet: u32, copies: &Copies, slot: u8, mask: u32)
    requires slot { slot < length timeline.old.slots }
    requires packet { packet_check timeline.old packet ≡ Ok tt }
    ensures told { Hears timeline.old (told_fields packet (value_of copies.now) slot mask timeline.old.fields) timeline.new }
    ensures shape { KeepsShape timeline.old timeline.new }
    ensures packet { packet_check timeline.new packet ≡ Ok tt }
{
    let Some(copy) = copies.get(slot) else {
        return;
    };
    let Some(kind) = copies.table().kind(copy.kind) else {
        return;
    };
    let fields = kind.fields.as_slice();
    let levels = copy.levels.as_slice();
    let count = timeline.fields() as u32;
    'fields: for field in 0..count {
        if has_field(mask, field) {
            tell_field(timeline, packet, fields, levels, slot, field);
        }
    }
}

/// Tells what an item did to its slot.
fn tell_item(timeline: &mut Timeline, packet: u32, copies: &Copies, item: &GhostItem)
    requires item { item_fault timeline.old item.now ≡ None }
    requires packet { packet_check timeline.old packet ≡ Ok tt }
    ensures told { Hears timeline.old (told_item packet (value_of copies.now) timeline.old.fields item.now) timeline.new }
    ensures shape { KeepsShape timeline.old timeline.new }
    ensures packet { packet_check timeline.new packet ≡ Ok tt }
{
    match item {
        GhostItem::Kill { slot } => {
            let _ = timeline.ended(u32::from(*slot), packet);
        }
        GhostItem::Create {
            slot,
            kind,
            levels,
            ..
        } => {
            let _ = timeline.began(u32::from(*slot), packet, u32::from(*kind));
            tell_fields(timeline, packet, copies, *slot, first_bits(levels.len()));
        }
        GhostItem::Update { slot, mask, .. } => {
            tell_fields(timeline, packet, copies, *slot, *mask);
        }
    }
}

/// Tells what these items did, one after the other.
fn tell_items(timeline: &mut Timeline, packet: u32, copies: &Copies, items: &[GhostItem])
    requires items { items_fault timeline.old items.now ≡ None }
    requires packet { packet_check timeline.old packet ≡ Ok tt }
    ensures told { Hears timeline.old (told_items packet (value_of copies.now) timeline.old.fields items.now) timeline.new }
    ensures shape { KeepsShape timeline.old timeline.new }
{
    'items: for item in items {
        tell_item(timeline, packet, copies, item);
    }
}

/// What is refused of a slot.
fn check_slot(timeline: &Timeline, slot: u8) -> Result<(), Refusal>
    ensures { result ≡ slot_check timeline.now slot }
{
    if timeline.slots() <= usize::from(slot) {
        return Err(Refusal::NoSlot);
    }
    Ok(())
}

/// What is refused of an item.
fn check_item(timeline: &Timeline, item: &GhostItem) -> Result<(), Refusal>
    ensures { result_err result ≡ item_fault timeline.now item.now }
{
    match item {
        GhostItem::Create { slot, kind, .. } => match check_slot(timeline, *slot) {
            Ok(()) => timeline.check_kind(u32::from(*kind)),
            Err(refusal) => Err(refusal),
        },
        GhostItem::Kill { slot } => check_slot(timeline, *slot),
        GhostItem::Update { slot, .. } => check_slot(timeline, *slot),
    }
}

/// What is refused of these items: the first of what is refused of each.
fn check_items(timeline: &Timeline, items: &[GhostItem]) -> Result<(), Refusal>
    ensures { result_err result ≡ items_fault timeline.now items.now }
{
    'items: for item in items {
        match check_item(timeline, item) {
            Ok(()) => {}
            Err(refusal) => return Err(refusal),
        }
    }
    Ok(())
}

/// What is refused of a packet with these items.
fn check(timeline: &Timeline, packet: u32, items: &[GhostItem]) -> Result<(), Refusal>
    ensures refused { result_err result ≡ hearing_fault timeline.now packet items.now }
    ensures packet { OnOk result (packet_check timeline.now packet ≡ Ok tt) }
    ensures items { OnOk result (items_fault timeline.now items.now ≡ None) }
{
    match timeline.check_packet(packet) {
        Ok(()) => check_items(timeline, items),
        Err(refusal) => Err(refusal),
    }
}

/// The number of the packet that the client took last, 0 where none was.
fn packet_taken(client: &Client) -> u32
    ensures { Answers client.now packet_of result }
{
    or_zero(client.last_taken())
}

/// Tells a timeline what the packet that the client took last did to its slots.
#[tactic(auto, using(crate::proofs::Hearing::all_told, crate::proofs::Hearing::all_refused))]
pub(crate) fn tell(client: &Client, timeline: &mut Timeline) -> Result<(), Refusal>
    ensures told { OnOk result (HearsOf client.now timeline.old timeline.new) }
    ensures shape { OnOk result (KeepsShape timeline.old timeline.new) }
    ensures unchanged { OnErr result (timeline.new ≡ timeline.old) }
    ensures refused { Answers client.now (λ log. hearing_fault timeline.old (packet_of log) client.now.changes) (result_err result) }
{
    let packet = packet_taken(client);
    let items = client.changes();
    match check(timeline, packet, items) {
        Ok(()) => {
            tell_items(timeline, packet, client.copies(), items);
            Ok(())
        }
        Err(refusal) => Err(refusal),
    }
}
