//! What a timeline is told, and what it answers of a moment.
ghost use Rattle.std.specs.Prelude.{◌≡◌, pos, Some, None};
ghost use Rattle.std.specs.Result.{result_err};
ghost use Rattle.tn_types.specs.Checks.{then_check};
ghost use Rattle.tn_types.specs.Histories.{Does, Answers};
ghost use Rattle.timeline.specs.Telling.{Began, Came, Ended, told_of};
ghost use Rattle.timeline.specs.Standing.{StandsFor, slot_check, packet_check, field_check, kind_check, value_told, kind_told};
ghost use Rattle.tribes_ends.specs.Drawing.{HearsAt, HearingRefused};
ghost use Rattle.tribes_link.specs.Behind.{Behind, Tells};
ghost use Rattle.tribes_link.specs.Drawing.{LineAnswered, LineAnswers, DrawAnswered, TakeAnswers};

use crate::answering::NO_END;
use crate::end::End;
use crate::timeline_answers::{NO_TIMELINE, finish_heard, finish_kind, finish_told, finish_value};
use crate::timeline_handle::TimelineHandle;
use std::alloc::Global;

/// Tells the timeline what the packet that the client's end took last did to its slots.
#[unsafe(no_mangle)]
pub extern "C" fn tribes_timeline_take(
    alloc: Global,
    timeline: &mut TimelineHandle,
    end: &mut End,
) -> i32
    ensures told { result ≡ pos 0
        → Behind (λ old new. Tells (λ side. HearsAt side old new) end.old.held.value) timeline.old.held.value timeline.new.held.value }
    ensures answer { TakeAnswers timeline.old.state timeline.old.held.value end.old.state end.old.held.value result
        (λ t side. HearingRefused t side (DrawAnswered result)) }
    ensures unchanged { (result ≡ pos 0 → ⊥) → timeline.new.held.value ≡ timeline.old.held.value }
    ensures end { end.new.held.value ≡ end.old.held.value }
{
    match timeline.take(alloc) {
        Some(taken) => {
            let mut lines = taken;
            match end.take(alloc) {
                Some(link) => {
                    let done = link.tell(&mut *lines);
                    end.put(link);
                    finish_heard(timeline, lines, done)
                }
                None => {
                    timeline.put(lines);
                    NO_END
                }
            }
        }
        None => NO_TIMELINE,
    }
}

/// Tells that a copy of this kind is in the slot from this packet on.
#[unsafe(no_mangle)]
pub extern "C" fn tribes_timeline_began(
    alloc: Global,
    timeline: &mut TimelineHandle,
    slot: u32,
    packet: u32,
    kind: u32,
) -> i32
    ensures told { result ≡ pos 0
        → Behind (λ old new. Does StandsFor old (record { slot = slot; packet = packet; what = Began kind }) new)
        timeline.old.held.value timeline.new.held.value }
    ensures answer { LineAnswers timeline.old.state timeline.old.held.value result (λ t. LineAnswered 0 result
        (result_err (then_check (slot_check t slot) (then_check (packet_check t packet) (kind_check t kind))))) }
    ensures unchanged { (result ≡ pos 0 → ⊥) → timeline.new.held.value ≡ timeline.old.held.value }
{
    match timeline.take(alloc) {
        Some(taken) => {
            let mut lines = taken;
            let done = lines.began(slot, packet, kind);
            finish_told(timeline, lines, done)
        }
        None => NO_TIMELINE,
    }
}

/// Tells a value of a field that this packet brought.
#[unsafe(no_mangle)]
pub extern "C" fn tribes_timeline_came(
    alloc: Global,
    timeline: &mut TimelineHandle,
    slot: u32,
    packet: u32,
    field: u32,
    value: i32,
) -> i32
    ensures told { result ≡ pos 0
        → Behind (λ old new. Does StandsFor old (record { slot = slot; packet = packet; what = Came field value }) new)
        timeline.old.held.value timeline.new.held.value }
    ensures answer { LineAnswers timeline.old.state timeline.old.held.value result (λ t. LineAnswered 0 result
        (result_err (then_check (slot_check t slot) (then_check (packet_check t packet) (field_check t field))))) }
    ensures unchanged { (result ≡ pos 0 → ⊥) → timeline.new.held.value ≡ timeline.old.held.value }
{
    match timeline.take(alloc) {
        Some(taken) => {
            let mut lines = taken;
            let done = lines.came(slot, packet, field, value);
            finish_told(timeline, lines, done)
        }
        None => NO_TIMELINE,
    }
}

/// Tells that the slot's copy is gone by this packet.
#[unsafe(no_mangle)]
pub extern "C" fn tribes_timeline_ended(
    alloc: Global,
    timeline: &mut TimelineHandle,
    slot: u32,
    packet: u32,
) -> i32
    ensures told { result ≡ pos 0
        → Behind (λ old new. Does StandsFor old (record { slot = slot; packet = packet; what = Ended }) new)
        timeline.old.held.value timeline.new.held.value }
    ensures answer { LineAnswers timeline.old.state timeline.old.held.value result (λ t. LineAnswered 0 result
        (result_err (then_check (slot_check t slot) (packet_check t packet)))) }
    ensures unchanged { (result ≡ pos 0 → ⊥) → timeline.new.held.value ≡ timeline.old.held.value }
{
    match timeline.take(alloc) {
        Some(taken) => {
            let mut lines = taken;
            let done = lines.ended(slot, packet);
            finish_told(timeline, lines, done)
        }
        None => NO_TIMELINE,
    }
}

/// Answers 1 with the value of a field at a moment, or 0.
#[unsafe(no_mangle)]
pub extern "C" fn tribes_timeline_value(
    alloc: Global,
    timeline: &mut TimelineHandle,
    slot: u32,
    field: u32,
    at: u64,
    value: &mut i64,
) -> i32
    ensures some { result ≡ pos 1 → Tells (λ t. Answers StandsFor t (λ log. value_told t field at (told_of slot log)) (Some value.new))
        timeline.old.held.value }
    ensures none { result ≡ pos 0 → Tells (λ t. Answers StandsFor t (λ log. value_told t field at (told_of slot log)) None)
        timeline.old.held.value }
    ensures answer { LineAnswers timeline.old.state timeline.old.held.value result (λ t. LineAnswered 1 result
        (result_err (then_check (slot_check t slot) (field_check t field)))) }
    ensures unchanged { timeline.new.held.value ≡ timeline.old.held.value }
{
    match timeline.take(alloc) {
        Some(lines) => {
            let done = lines.value_at(slot, field, at);
            finish_value(timeline, lines, done, value)
        }
        None => NO_TIMELINE,
    }
}

/// Answers 1 with the kind of the copy that is drawn in the slot at a moment, or 0.
#[unsafe(no_mangle)]
pub extern "C" fn tribes_timeline_kind(
    alloc: Global,
    timeline: &mut TimelineHandle,
    slot: u32,
    at: u64,
    kind: &mut u32,
) -> i32
    ensures some { result ≡ pos 1 → Tells (λ t. Answers StandsFor t (λ log. kind_told at (told_of slot log)) (Some kind.new))
        timeline.old.held.value }
    ensures none { result ≡ pos 0 → Tells (λ t. Answers StandsFor t (λ log. kind_told at (told_of slot log)) None)
        timeline.old.held.value }
    ensures answer { LineAnswers timeline.old.state timeline.old.held.value result
        (λ t. LineAnswered 1 result (result_err (slot_check t slot))) }
    ensures unchanged { timeline.new.held.value ≡ timeline.old.held.value }
{
    match timeline.take(alloc) {
        Some(lines) => {
            let done = lines.kind_at(slot, at);
            finish_kind(timeline, lines, done, kind)
        }
        None => NO_TIMELINE,
    }
}
