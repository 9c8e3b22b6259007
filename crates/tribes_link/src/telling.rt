//! What an end tells: counts and free places, verdicts, blocks, copies and what changed of them. No call here changes the end.
ghost use Rattle.std.specs.Prelude.{◌≡◌, pos, Some, None, length, take};
ghost use Rattle.tn_types.specs.declared.limits.TheConstants.{MAX_PACKET_GHOSTS, MAX_UNJUDGED_PACKETS};
ghost use Rattle.tribes_ends.specs.Lists.{ListsVerdicts, ListsChanges, HasBlock, IsNextCopy, HasCopy};
ghost use Rattle.tribes_ends.specs.Refusals.{at_client, room_refusal, BlockRefused, CopyRefused};
ghost use Rattle.tribes_ends.specs.Sides.{AreCounts};
ghost use Rattle.tribes_link.specs.Answers.{Answered, AnswersBy};
ghost use Rattle.tribes_link.specs.Behind.{Tells};

use crate::answering::{NO_END, finish_count, finish_maybe, finish_with, refused};
use crate::end::End;
use std::alloc::Global;
use tribes_ends::{Change, Copied, Counts, Judged};

/// Tells what the end counted, and which places it has free.
#[unsafe(no_mangle)]
pub extern "C" fn tribes_counts(alloc: Global, end: &mut End, counts: &mut Counts) -> i32
    ensures told { result ≡ pos 0 → Tells (λ side. AreCounts side counts.new) end.old.held.value }
    ensures answer { AnswersBy end.old.state end.old.held.value result (λ side. result ≡ pos 0) }
    ensures unchanged { end.new.held.value ≡ end.old.held.value }
{
    match end.take(alloc) {
        Some(link) => {
            *counts = link.counts();
            end.put(link);
            0
        }
        None => NO_END,
    }
}

/// Lists what became of the data packets that the last datagram judged, and gives how many these are.
#[unsafe(no_mangle)]
pub extern "C" fn tribes_verdicts(
    alloc: Global,
    end: &mut End,
    judged: &mut [Judged],
    count: &mut u32,
) -> i32
    ensures told { result ≡ pos 0 → Tells (λ side. ListsVerdicts side (take count.new judged.new)) end.old.held.value }
    ensures answer { AnswersBy end.old.state end.old.held.value result
        (λ side. Answered 0 result (room_refusal MAX_UNJUDGED_PACKETS (length judged.old))) }
    ensures unchanged { end.new.held.value ≡ end.old.held.value }
{
    match end.take(alloc) {
        Some(link) => {
            let done = link.verdicts(judged);
            finish_with(end, link, done, count)
        }
        None => NO_END,
    }
}

/// Hands over the bytes of a block, at the client of one that came.
#[unsafe(no_mangle)]
pub extern "C" fn tribes_block(
    alloc: Global,
    end: &mut End,
    number: u32,
    bytes: &mut [u8],
    count: &mut usize,
) -> i32
    ensures told { result ≡ pos 0 → Tells (λ side. HasBlock side number (take count.new bytes.new)) end.old.held.value }
    ensures answer { AnswersBy end.old.state end.old.held.value result
        (λ side. BlockRefused number (length bytes.old) side (Answered 0 result)) }
    ensures unchanged { end.new.held.value ≡ end.old.held.value }
{
    match end.take(alloc) {
        Some(link) => {
            let done = link.block(number, bytes);
            finish_count(end, link, done, count)
        }
        None => NO_END,
    }
}

/// Lists what the last datagram did to the client's slots, and gives how many items these are.
#[unsafe(no_mangle)]
pub extern "C" fn tribes_changes(
    alloc: Global,
    end: &mut End,
    changes: &mut [Change],
    count: &mut u32,
) -> i32
    ensures told { result ≡ pos 0 → Tells (λ side. ListsChanges side (take count.new changes.new)) end.old.held.value }
    ensures answer { AnswersBy end.old.state end.old.held.value result
        (λ side. Answered 0 result (at_client (λ c. room_refusal MAX_PACKET_GHOSTS (length changes.old)) side)) }
    ensures unchanged { end.new.held.value ≡ end.old.held.value }
{
    match end.take(alloc) {
        Some(link) => {
            let done = link.changes(changes);
            finish_with(end, link, done, count)
        }
        None => NO_END,
    }
}

/// Answers 1 with the least slot from this one on that holds a copy, or 0.
#[unsafe(no_mangle)]
pub extern "C" fn tribes_next_copy(alloc: Global, end: &mut End, from: u32, slot: &mut u32) -> i32
    ensures found { result ≡ pos 1 → Tells (λ side. IsNextCopy side from (Some slot.new)) end.old.held.value }
    ensures found_none { result ≡ pos 0 → Tells (λ side. IsNextCopy side from None) end.old.held.value }
    ensures answer { AnswersBy end.old.state end.old.held.value result (λ side. Answered 1 result (at_client (λ c. None) side)) }
    ensures unchanged { end.new.held.value ≡ end.old.held.value }
{
    match end.take(alloc) {
        Some(link) => {
            let done = link.next_copy(from);
            finish_maybe(end, link, done, slot)
        }
        None => NO_END,
    }
}

/// Reads the copy in a slot, with the values of its fields.
#[unsafe(no_mangle)]
pub extern "C" fn tribes_copy(
    alloc: Global,
    end: &mut End,
    slot: u32,
    copied: &mut Copied,
    values: &mut [i64],
) -> i32
    ensures told { result ≡ pos 0 → Tells (λ side. HasCopy side slot copied.new values.new) end.old.held.value }
    ensures answer { AnswersBy end.old.state end.old.held.value result
        (λ side. CopyRefused slot (length values.old) side (Answered 0 result)) }
    ensures unchanged { end.new.held.value ≡ end.old.held.value }
{
    match end.take(alloc) {
        Some(taken) => {
            let mut link = taken;
            let code = match link.copy(slot, values) {
                Ok(found) => {
                    *copied = found;
                    0
                }
                Err(refusal) => refused(&mut *link, refusal),
            };
            end.put(link);
            code
        }
        None => NO_END,
    }
}
