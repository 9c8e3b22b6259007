//! Events both ways, and moves from the client to the server.
ghost use Rattle.std.specs.Prelude.{◌≡◌, pos, length, take};
ghost use Rattle.tn_types.specs.declared.choices.Class.TheVariants.{Guaranteed, Loose};
ghost use Rattle.tn_types.specs.declared.limits.TheConstants.{MAX_EVENT_BYTES, MAX_PACKET_MOVES};
ghost use Rattle.tribes_ends.specs.Lists.{ListsMoves, ListsPending};
ghost use Rattle.tribes_ends.specs.Refusals.{at_server, at_client, room_refusal, moves_refusal, PostRefused, SampleRefused};
ghost use Rattle.tribes_ends.specs.Sides.{Posts, IsNextEvent, Pops, HasNoEvent, Samples};
ghost use Rattle.tribes_link.specs.Answers.{Answered, AnswersBy};
ghost use Rattle.tribes_link.specs.Behind.{Behind, Tells};

use crate::answering::{NO_END, finish_with, refused};
use crate::end::End;
use std::alloc::Global;
use tn_types::Class;
use tribes_ends::Popped;

/// The class that a caller's number asks for.
fn class_of(guaranteed: u32) -> Class
    ensures loose { guaranteed ≡ 0 → result ≡ Loose }
    ensures guaranteed { (guaranteed ≡ 0 → ⊥) → result ≡ Guaranteed }
{
    if guaranteed == 0 {
        Class::Loose
    } else {
        Class::Guaranteed
    }
}

/// Posts an event, and gives its number where it is guaranteed.
#[unsafe(no_mangle)]
pub extern "C" fn tribes_post(
    alloc: Global,
    end: &mut End,
    bytes: &[u8],
    guaranteed: u32,
    number: &mut u32,
) -> i32
    ensures loose { guaranteed ≡ 0 → result ≡ pos 0
        → Behind (λ old new. Posts old Loose bytes.now new) end.old.held.value end.new.held.value }
    ensures guaranteed { (guaranteed ≡ 0 → ⊥) → result ≡ pos 0
        → Behind (λ old new. Posts old Guaranteed bytes.now new) end.old.held.value end.new.held.value }
    ensures number { (guaranteed ≡ 0 → ⊥) → result ≡ pos 0 → Tells (λ old. IsNextEvent old number.new) end.old.held.value }
    ensures answer_loose { guaranteed ≡ 0 → AnswersBy end.old.state end.old.held.value result
        (λ side. PostRefused bytes.now Loose side (Answered 0 result)) }
    ensures answer_guaranteed { (guaranteed ≡ 0 → ⊥) → AnswersBy end.old.state end.old.held.value result
        (λ side. PostRefused bytes.now Guaranteed side (Answered 0 result)) }
    ensures unchanged { (result ≡ pos 0 → ⊥) → end.new.held.value ≡ end.old.held.value }
{
    match end.take(alloc) {
        Some(taken) => {
            let mut link = taken;
            let done = link.post(bytes, class_of(guaranteed));
            finish_with(end, link, done, number)
        }
        None => NO_END,
    }
}

/// Hands out the oldest event that came in: answers 2 for a guaranteed one and 1 for another with the count of its bytes, or 0.
#[unsafe(no_mangle)]
pub extern "C" fn tribes_event(
    alloc: Global,
    end: &mut End,
    bytes: &mut [u8],
    count: &mut usize,
) -> i32
    ensures guaranteed { result ≡ pos 2
        → Behind (λ old new. Pops old Guaranteed (take count.new bytes.new) new) end.old.held.value end.new.held.value }
    ensures loose { result ≡ pos 1
        → Behind (λ old new. Pops old Loose (take count.new bytes.new) new) end.old.held.value end.new.held.value }
    ensures none { result ≡ pos 0 → Behind HasNoEvent end.old.held.value end.new.held.value }
    ensures answer { AnswersBy end.old.state end.old.held.value result
        (λ side. Answered 2 result (room_refusal MAX_EVENT_BYTES (length bytes.old))) }
    ensures unchanged { (result ≡ pos 0 → ⊥) → (result ≡ pos 1 → ⊥) → (result ≡ pos 2 → ⊥)
        → end.new.held.value ≡ end.old.held.value }
{
    match end.take(alloc) {
        Some(taken) => {
            let mut link = taken;
            let code = match link.pop(bytes) {
                Ok(
                    Some(
                        Popped {
                            class,
                            count: popped,
                        },
                    ),
                ) => {
                    *count = popped;
                    match class {
                        Class::Guaranteed => 2,
                        Class::Loose => 1,
                    }
                }
                Ok(None) => 0,
                Err(refusal) => refused(&mut *link, refusal),
            };
            end.put(link);
            code
        }
        None => NO_END,
    }
}

/// Takes up a move of the player, as a number, and gives the move's own number.
#[unsafe(no_mangle)]
pub extern "C" fn tribes_sample(alloc: Global, end: &mut End, bits: u64, number: &mut u32) -> i32
    ensures told { result ≡ pos 0
        → Behind (λ old new. Samples old bits number.new new) end.old.held.value end.new.held.value }
    ensures answer { AnswersBy end.old.state end.old.held.value result (λ side. SampleRefused bits side (Answered 0 result)) }
    ensures unchanged { (result ≡ pos 0 → ⊥) → end.new.held.value ≡ end.old.held.value }
{
    match end.take(alloc) {
        Some(taken) => {
            let mut link = taken;
            let done = link.sample(bits);
            finish_with(end, link, done, number)
        }
        None => NO_END,
    }
}

/// Lists the moves that the last datagram brought, and gives how many these are.
#[unsafe(no_mangle)]
pub extern "C" fn tribes_moves(
    alloc: Global,
    end: &mut End,
    moves: &mut [u64],
    count: &mut u32,
) -> i32
    ensures told { result ≡ pos 0 → Tells (λ side. ListsMoves side (take count.new moves.new)) end.old.held.value }
    ensures answer { AnswersBy end.old.state end.old.held.value result
        (λ side. Answered 0 result (at_server (moves_refusal (length moves.old)) side)) }
    ensures unchanged { end.new.held.value ≡ end.old.held.value }
{
    match end.take(alloc) {
        Some(link) => {
            let done = link.moves(moves);
            finish_with(end, link, done, count)
        }
        None => NO_END,
    }
}

/// Lists the moves that the server has not told as accepted, and gives how many these are.
#[unsafe(no_mangle)]
pub extern "C" fn tribes_pending(
    alloc: Global,
    end: &mut End,
    moves: &mut [u64],
    count: &mut u32,
) -> i32
    ensures told { result ≡ pos 0 → Tells (λ side. ListsPending side (take count.new moves.new)) end.old.held.value }
    ensures answer { AnswersBy end.old.state end.old.held.value result
        (λ side. Answered 0 result (at_client (λ c. room_refusal MAX_PACKET_MOVES (length moves.old)) side)) }
    ensures unchanged { end.new.held.value ≡ end.old.held.value }
{
    match end.take(alloc) {
        Some(link) => {
            let done = link.pending(moves);
            finish_with(end, link, done, count)
        }
        None => NO_END,
    }
}
