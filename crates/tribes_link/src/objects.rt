//! Objects: at the server what is shown, and at the client which of its copies is its own.
ghost use Rattle.std.specs.Prelude.{◌≡◌, pos, true, false, not, nat_eq, Some, None};
ghost use Rattle.stream_manager.specs.Server.{Scoped, Show, Hide, Near, Absorb};
ghost use Rattle.tribes_ends.specs.Refusals.{at_server, at_client, show_refusal, hide_refusal, near_refusal, changed_refusal, settled_refusal, slot_refusal};
ghost use Rattle.tribes_ends.specs.Sides.{DoesAtServer, IsNextPeriod, IsSettled, HasSlot, HasControl};
ghost use Rattle.tribes_link.specs.Answers.{Answered, AnswersBy};
ghost use Rattle.tribes_link.specs.Behind.{Behind, Tells};

use crate::answering::{NO_END, finish, finish_maybe, finish_with, refused};
use crate::end::End;
use std::alloc::Global;

/// An object that comes into scope.
#[repr(C)]
#[derive(Clone, Copy, Debug, PartialEq, Eq)]
pub struct Object {
    pub kind: u32,
    pub block: u32,
    pub level: u32,
    pub control: u32,
}

/// Shows an object to the client, and gives the number of its period.
#[unsafe(no_mangle)]
pub extern "C" fn tribes_show(alloc: Global, end: &mut End, object: &Object, n: &mut u32) -> i32
    ensures told { let o = object.now in result ≡ pos 0
        → Behind (λ old new. DoesAtServer old (Scoped (Show o.kind o.block o.level (not (nat_eq o.control 0)))) new)
        end.old.held.value end.new.held.value }
    ensures number { result ≡ pos 0 → Tells (λ old. IsNextPeriod old n.new) end.old.held.value }
    ensures answer { let o = object.now in AnswersBy end.old.state end.old.held.value result
        (λ side. Answered 0 result (at_server (show_refusal o.kind o.block o.level (not (nat_eq o.control 0))) side)) }
    ensures unchanged { (result ≡ pos 0 → ⊥) → end.new.held.value ≡ end.old.held.value }
{
    match end.take(alloc) {
        Some(taken) => {
            let mut link = taken;
            let done = link.show(object.kind, object.block, object.level, object.control != 0);
            finish_with(end, link, done, n)
        }
        None => NO_END,
    }
}

/// Ends a period.
#[unsafe(no_mangle)]
pub extern "C" fn tribes_hide(alloc: Global, end: &mut End, n: u32) -> i32
    ensures told { result ≡ pos 0
        → Behind (λ old new. DoesAtServer old (Scoped (Hide n)) new) end.old.held.value end.new.held.value }
    ensures answer { AnswersBy end.old.state end.old.held.value result (λ side. Answered 0 result (at_server (hide_refusal n) side)) }
    ensures unchanged { (result ≡ pos 0 → ⊥) → end.new.held.value ≡ end.old.held.value }
{
    match end.take(alloc) {
        Some(taken) => {
            let mut link = taken;
            let done = link.hide(n);
            finish(end, link, done)
        }
        None => NO_END,
    }
}

/// Puts a period at another level of distance.
#[unsafe(no_mangle)]
pub extern "C" fn tribes_near(alloc: Global, end: &mut End, n: u32, level: u32) -> i32
    ensures told { result ≡ pos 0
        → Behind (λ old new. DoesAtServer old (Scoped (Near n level)) new) end.old.held.value end.new.held.value }
    ensures answer { AnswersBy end.old.state end.old.held.value result (λ side. Answered 0 result (at_server (near_refusal n level) side)) }
    ensures unchanged { (result ≡ pos 0 → ⊥) → end.new.held.value ≡ end.old.held.value }
{
    match end.take(alloc) {
        Some(taken) => {
            let mut link = taken;
            let done = link.near(n, level);
            finish(end, link, done)
        }
        None => NO_END,
    }
}

/// Notes that fields of a period's object changed.
#[unsafe(no_mangle)]
pub extern "C" fn tribes_changed(alloc: Global, end: &mut End, n: u32, bits: u32) -> i32
    ensures told { result ≡ pos 0
        → Behind (λ old new. DoesAtServer old (Scoped (Absorb n bits)) new) end.old.held.value end.new.held.value }
    ensures answer { AnswersBy end.old.state end.old.held.value result
        (λ side. Answered 0 result (at_server (changed_refusal n bits) side)) }
    ensures unchanged { (result ≡ pos 0 → ⊥) → end.new.held.value ≡ end.old.held.value }
{
    match end.take(alloc) {
        Some(taken) => {
            let mut link = taken;
            let done = link.changed(n, bits);
            finish(end, link, done)
        }
        None => NO_END,
    }
}

/// Answers 1 where the client has the newest value of a field that was noted as changed, else 0.
#[unsafe(no_mangle)]
pub extern "C" fn tribes_settled(alloc: Global, end: &mut End, n: u32, field: u32) -> i32
    ensures settled { result ≡ pos 1 → Tells (λ side. IsSettled side n field true) end.old.held.value }
    ensures not_settled { result ≡ pos 0 → Tells (λ side. IsSettled side n field false) end.old.held.value }
    ensures answer { AnswersBy end.old.state end.old.held.value result
        (λ side. Answered 1 result (at_server (settled_refusal n field) side)) }
    ensures unchanged { end.new.held.value ≡ end.old.held.value }
{
    match end.take(alloc) {
        Some(taken) => {
            let mut link = taken;
            let code = match link.settled(n, field) {
                Ok(true) => 1,
                Ok(false) => 0,
                Err(refusal) => refused(&mut *link, refusal),
            };
            end.put(link);
            code
        }
        None => NO_END,
    }
}

/// Answers 1 with the slot that a period holds, or 0.
#[unsafe(no_mangle)]
pub extern "C" fn tribes_slot(alloc: Global, end: &mut End, n: u32, slot: &mut u32) -> i32
    ensures holds { result ≡ pos 1 → Tells (λ side. HasSlot side n (Some slot.new)) end.old.held.value }
    ensures holds_none { result ≡ pos 0 → Tells (λ side. HasSlot side n None) end.old.held.value }
    ensures answer { AnswersBy end.old.state end.old.held.value result (λ side. Answered 1 result (at_server (slot_refusal n) side)) }
    ensures unchanged { end.new.held.value ≡ end.old.held.value }
{
    match end.take(alloc) {
        Some(link) => {
            let done = link.slot(n);
            finish_maybe(end, link, done, slot)
        }
        None => NO_END,
    }
}

/// Answers 1 with the client's control slot, or 0.
#[unsafe(no_mangle)]
pub extern "C" fn tribes_control(alloc: Global, end: &mut End, slot: &mut u32) -> i32
    ensures holds { result ≡ pos 1 → Tells (λ side. HasControl side (Some slot.new)) end.old.held.value }
    ensures holds_none { result ≡ pos 0 → Tells (λ side. HasControl side None) end.old.held.value }
    ensures answer { AnswersBy end.old.state end.old.held.value result (λ side. Answered 1 result (at_client (λ c. None) side)) }
    ensures unchanged { end.new.held.value ≡ end.old.held.value }
{
    match end.take(alloc) {
        Some(link) => {
            let done = link.control();
            finish_maybe(end, link, done, slot)
        }
        None => NO_END,
    }
}
