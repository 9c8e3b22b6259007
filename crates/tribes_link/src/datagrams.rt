//! Datagrams: the next one planned and made, and one that came.
ghost use Rattle.std.specs.Prelude.{◌≡◌, pos, length, take};
ghost use Rattle.tribes_ends.specs.Refusals.{ask_refusal, PackRefused, ArrivalRefused};
ghost use Rattle.tribes_ends.specs.Sides.{Takes, Plans, AsksNothing, Sends, Pings, SendsNothing};
ghost use Rattle.tribes_link.specs.Answers.{Answered, AnswersBy};
ghost use Rattle.tribes_link.specs.Behind.{Behind};

use crate::answering::{NO_END, finish_with, refused};
use crate::end::End;
use std::alloc::Global;
use tribes_ends::{Ask, Packed};

/// Plans the next datagram: answers 1 with the count of values that it asks for, or 0 where it asks for nothing.
#[unsafe(no_mangle)]
pub extern "C" fn tribes_plan(
    alloc: Global,
    end: &mut End,
    asks: &mut [Ask],
    count: &mut usize,
) -> i32
    ensures plans { result ≡ pos 1
        → Behind (λ old new. Plans old (take count.new asks.new) new) end.old.held.value end.new.held.value }
    ensures none { result ≡ pos 0 → Behind AsksNothing end.old.held.value end.new.held.value }
    ensures none_asked { result ≡ pos 0 → count.new ≡ 0 }
    ensures answer { AnswersBy end.old.state end.old.held.value result (λ side. Answered 1 result (ask_refusal (length asks.old) side)) }
    ensures unchanged { (result ≡ pos 1 → ⊥) → end.new.held.value ≡ end.old.held.value }
{
    match end.take(alloc) {
        Some(taken) => {
            let mut link = taken;
            let code = match link.ask(asks) {
                Ok(Some(asked)) => {
                    *count = asked;
                    1
                }
                Ok(None) => {
                    *count = 0;
                    0
                }
                Err(refusal) => refused(&mut *link, refusal),
            };
            end.put(link);
            code
        }
        None => NO_END,
    }
}

/// Makes the next datagram: answers 2 for a data packet and 1 for a ping with the count of its bytes, or 0 where there is none.
#[unsafe(no_mangle)]
pub extern "C" fn tribes_pack(
    alloc: Global,
    end: &mut End,
    values: &[i64],
    bytes: &mut [u8],
    count: &mut usize,
) -> i32
    ensures data { result ≡ pos 2
        → Behind (λ old new. Sends old values.now (take count.new bytes.new) new) end.old.held.value end.new.held.value }
    ensures ping { result ≡ pos 1
        → Behind (λ old new. Pings old (take count.new bytes.new) new) end.old.held.value end.new.held.value }
    ensures nothing { result ≡ pos 0 → Behind SendsNothing end.old.held.value end.new.held.value }
    ensures answer { AnswersBy end.old.state end.old.held.value result
        (λ side. PackRefused values.now (length bytes.old) side (Answered 2 result)) }
    ensures unchanged { (result ≡ pos 0 → ⊥) → (result ≡ pos 1 → ⊥) → (result ≡ pos 2 → ⊥)
        → end.new.held.value ≡ end.old.held.value }
{
    match end.take(alloc) {
        Some(taken) => {
            let mut link = taken;
            let code = match link.pack(values, bytes) {
                Ok(Packed::Data { count: made }) => {
                    *count = made;
                    2
                }
                Ok(Packed::Ping { count: made }) => {
                    *count = made;
                    1
                }
                Ok(Packed::Nothing) => {
                    *count = 0;
                    0
                }
                Err(refusal) => refused(&mut *link, refusal),
            };
            end.put(link);
            code
        }
        None => NO_END,
    }
}

/// Takes a datagram that came, where so many further moves have a place, and gives how many moves it brought.
#[unsafe(no_mangle)]
pub extern "C" fn tribes_arrive(
    alloc: Global,
    end: &mut End,
    bytes: &[u8],
    room: u32,
    moves: &mut u32,
) -> i32
    ensures taken { result ≡ pos 0
        → Behind (λ old new. Takes old bytes.now room moves.new new) end.old.held.value end.new.held.value }
    ensures answer { AnswersBy end.old.state end.old.held.value result
        (λ side. ArrivalRefused bytes.now room side (Answered 0 result)) }
    ensures unchanged { (result ≡ pos 0 → ⊥) → end.new.held.value ≡ end.old.held.value }
{
    match end.take(alloc) {
        Some(taken) => {
            let mut link = taken;
            let done = link.arrive(bytes, room);
            finish_with(end, link, done, moves)
        }
        None => NO_END,
    }
}
