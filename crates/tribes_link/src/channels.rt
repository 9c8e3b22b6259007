//! Messages of any length and short events over an end: a channel, which has a handle of its own.
ghost use Rattle.std.specs.Prelude.{◌≡◌, ◌⊎◌, ◌↔◌, ◌<◌, ◌≤◌, pos, IsOk, IsSome, IfOk, IfErr, OnOk, OnErr, IfSome, Some, length, take};
ghost use Rattle.std.specs.Option.{option_map};
ghost use Rattle.std.specs.Result.{result_err};
ghost use Rattle.messages.specs.OutboxStands.{post_answer, free_places};
ghost use Rattle.tribes_channel.specs.Channel.{IsNewChannel, longest_fault, Holds, LooseRefused, PostsLoose, GivesWhole, GivesLoose, Awaits, Turns};
ghost use Rattle.tribes_channel.specs.Codes.{open_why, hold_why};
ghost use Rattle.tribes_ends.specs.Codes.{why_of};
ghost use Rattle.tribes_link.specs.Behind.{Tells};
ghost use Rattle.tribes_link.specs.Channels.{kind_of, BehindBoth, AnswersByBoth, CodedBy, IsOpened, NextAnswered, AnswersLoose, EndsWith};

use crate::answering::{HAS_CHANNEL, NO_CHANNEL, NO_END, NO_MEMORY};
use crate::channel_handle::{ChannelHandle, OPEN_CHANNEL};
use crate::end::{End, OPEN};
use std::alloc::Global;
use tn_types::Class;
use tribes_channel::{
    Channel, Handed, OpenFault, ParcelKind, Places, hold_why, next_why, open_why,
};
use tribes_ends::{Link, Why};

/// What a caller's number says of a parcel.
fn kind_of(kind: u32) -> ParcelKind
    ensures { result ≡ kind_of kind }
{
    if kind == 0 {
        ParcelKind::Event
    } else {
        ParcelKind::Message
    }
}

/// What a parcel is, as a number.
fn number_of(kind: ParcelKind) -> u32
    ensures { kind ≡ kind_of result }
{
    match kind {
        ParcelKind::Event => 0,
        ParcelKind::Message => 1,
    }
}

/// Puts a new channel into the handle, or tells why there is none.
fn begin(
    alloc: Global,
    handle: &mut ChannelHandle,
    made: Result<Channel, OpenFault>,
    reason: &mut Why,
) -> i32
    ensures begun { result ≡ pos 0 → IfOk made (λ channel. handle.new.held.value ≡ Some channel) }
    ensures unchanged { (result ≡ pos 0 → ⊥) → handle.new ≡ handle.old }
    ensures made { result ≡ pos 0 → IsOk made }
    ensures answer { OnOk made ((result ≡ pos 0) ⊎ (result ≡ NO_MEMORY)) }
    ensures refused { IfErr made (λ fault. (result ≡ (open_why fault).code) × (reason.new ≡ open_why fault)) }
{
    match made {
        Ok(channel) => match Box::new(alloc, channel) {
            Ok(boxed) => {
                handle.put(boxed);
                0
            }
            Err(_) => {
                *reason = open_why(OpenFault::NoMemory);
                NO_MEMORY
            }
        },
        Err(fault) => {
            let why = open_why(fault);
            *reason = why;
            why.code
        }
    }
}

/// Makes a channel with so many places for pieces of 24 bytes, for messages that come with at most `longest` bytes.
#[unsafe(no_mangle)]
pub extern "C" fn tribes_channel_open(
    alloc: Global,
    channel: &mut ChannelHandle,
    places: u32,
    longest: u32,
    reason: &mut Why,
) -> i32
    ensures begins { result ≡ pos 0 → IfSome channel.new.held.value (IsNewChannel places longest) }
    ensures some { result ≡ pos 0 → IsSome channel.new.held.value }
    ensures has_channel { channel.old.state ≡ OPEN_CHANNEL → result ≡ HAS_CHANNEL }
    ensures answer { (channel.old.state ≡ OPEN_CHANNEL → ⊥) → IsOpened (option_map open_why (longest_fault longest)) result reason.new }
    ensures unchanged { (result ≡ pos 0 → ⊥) → channel.new ≡ channel.old }
{
    if channel.is_open() {
        return HAS_CHANNEL;
    }
    let made = Channel::new(alloc, places, longest);
    begin(alloc, channel, made, reason)
}

/// Frees a channel.
#[unsafe(no_mangle)]
pub extern "C" fn tribes_channel_free(alloc: Global, channel: &mut ChannelHandle) -> i32
    ensures freed { (result ≡ pos 0) ↔ (channel.old.state ≡ OPEN_CHANNEL) }
    ensures closed { (channel.old.state ≡ OPEN_CHANNEL → ⊥) → result ≡ NO_CHANNEL }
    ensures empty { channel.new.state ≡ OPEN_CHANNEL → ⊥ }
{
    match channel.take(alloc) {
        Some(_) => 0,
        None => NO_CHANNEL,
    }
}

/// Tells why the last call of a channel that did nothing did nothing.
#[unsafe(no_mangle)]
pub extern "C" fn tribes_channel_why(
    alloc: Global,
    channel: &mut ChannelHandle,
    reason: &mut Why,
) -> i32
    ensures answer { (channel.old.state ≡ OPEN_CHANNEL → ⊥) → result ≡ NO_CHANNEL }
    ensures some { channel.old.state ≡ OPEN_CHANNEL → result ≡ pos 0 }
    ensures unchanged { channel.new.held.value ≡ channel.old.held.value }
{
    match channel.take(alloc) {
        Some(taken) => {
            *reason = taken.why();
            channel.put(taken);
            0
        }
        None => NO_CHANNEL,
    }
}

/// Tells how many pieces wait to be posted, and how many more may.
#[unsafe(no_mangle)]
pub extern "C" fn tribes_channel_counts(
    alloc: Global,
    channel: &mut ChannelHandle,
    places: &mut Places,
) -> i32
    ensures held { result ≡ pos 0 → Tells (λ c. places.new.held ≡ length c.outbox.held) channel.old.held.value }
    ensures free { result ≡ pos 0 → Tells (λ c. places.new.free ≡ free_places c.outbox) channel.old.held.value }
    ensures answer { (channel.old.state ≡ OPEN_CHANNEL → ⊥) → result ≡ NO_CHANNEL }
    ensures some { channel.old.state ≡ OPEN_CHANNEL → result ≡ pos 0 }
    ensures unchanged { channel.new.held.value ≡ channel.old.held.value }
{
    match channel.take(alloc) {
        Some(taken) => {
            *places = taken.places();
            channel.put(taken);
            0
        }
        None => NO_CHANNEL,
    }
}

/// Posts a parcel as guaranteed events, and gives the answer.
fn post_held(link: &mut Link, channel: &mut Channel, kind: ParcelKind, bytes: &[u8]) -> i32
    ensures posted { result ≡ pos 0
        → Holds (record { kind = kind; bytes = bytes.now }) channel.old.outbox link.old channel.new.outbox link.new }
    ensures answer { CodedBy 0 result
        (option_map hold_why (result_err (post_answer channel.old.outbox (record { kind = kind; bytes = bytes.now })))) }
    ensures inbox { channel.new.inbox ≡ channel.old.inbox }
    ensures unchanged { (result ≡ pos 0 → ⊥) → (channel.new ≡ channel.old) × (link.new ≡ link.old) }
{
    match channel.post(link, kind, bytes) {
        Ok(()) => 0,
        Err(fault) => channel.note(hold_why(fault)),
    }
}

/// Posts a parcel as an unguaranteed event, and gives the answer.
fn post_loose(link: &mut Link, channel: &mut Channel, kind: ParcelKind, bytes: &[u8]) -> i32
    ensures posted { result ≡ pos 0 → PostsLoose (record { kind = kind; bytes = bytes.now }) link.old link.new }
    ensures answer { AnswersLoose (record { kind = kind; bytes = bytes.now }) result link.old }
    ensures channel { channel.new ≡ channel.old }
    ensures unchanged { (result ≡ pos 0 → ⊥) → link.new ≡ link.old }
{
    match Channel::post_loose(link, kind, bytes) {
        Ok(()) => 0,
        Err(refusal) => channel.note(refusal.why()),
    }
}

/// Posts a message, or a short event where `kind` is 0: whole or not at all.
#[unsafe(no_mangle)]
pub extern "C" fn tribes_post_message(
    alloc: Global,
    end: &mut End,
    channel: &mut ChannelHandle,
    kind: u32,
    bytes: &[u8],
    guaranteed: u32,
) -> i32
    ensures guaranteed { (guaranteed ≡ 0 → ⊥) → result ≡ pos 0 → BehindBoth
        (λ old c new c'. Holds (record { kind = kind_of kind; bytes = bytes.now }) c.outbox old c'.outbox new × (c'.inbox ≡ c.inbox))
        end.old.held.value channel.old.held.value end.new.held.value channel.new.held.value }
    ensures loose { guaranteed ≡ 0 → result ≡ pos 0 → BehindBoth
        (λ old c new c'. PostsLoose (record { kind = kind_of kind; bytes = bytes.now }) old new × (c' ≡ c))
        end.old.held.value channel.old.held.value end.new.held.value channel.new.held.value }
    ensures answer_guaranteed { (guaranteed ≡ 0 → ⊥)
        → AnswersByBoth end.old.state channel.old.state end.old.held.value channel.old.held.value result
        (λ side c. CodedBy 0 result
        (option_map hold_why (result_err (post_answer c.outbox (record { kind = kind_of kind; bytes = bytes.now }))))) }
    ensures answer_loose { guaranteed ≡ 0 → AnswersByBoth end.old.state channel.old.state end.old.held.value channel.old.held.value result
        (λ side c. AnswersLoose (record { kind = kind_of kind; bytes = bytes.now }) result side) }
    ensures unchanged { (result ≡ pos 0 → ⊥) → end.new.held.value ≡ end.old.held.value }
    ensures unchanged_channel { (result ≡ pos 0 → ⊥) → channel.new.held.value ≡ channel.old.held.value }
{
    let Some(taken_end) = end.take(alloc) else {
        return NO_END;
    };
    let mut link = taken_end;
    let Some(taken_channel) = channel.take(alloc) else {
        end.put(link);
        return NO_CHANNEL;
    };
    let mut parcels = taken_channel;
    let code = if guaranteed == 0 {
        post_loose(&mut *link, &mut *parcels, kind_of(kind), bytes)
    } else {
        post_held(&mut *link, &mut *parcels, kind_of(kind), bytes)
    };
    end.put(link);
    channel.put(parcels);
    code
}

/// Hands out the oldest whole parcel, and gives the answer.
fn next_of(
    link: &mut Link,
    channel: &mut Channel,
    bytes: &mut [u8],
    kind: &mut u32,
    count: &mut usize,
) -> i32
    ensures guaranteed { result ≡ pos 2
        → Turns (GivesWhole (record { kind = kind_of kind.new; bytes = take count.new bytes.new }))
        channel.old link.old channel.new link.new }
    ensures loose { result ≡ pos 1
        → Turns (GivesLoose (record { kind = kind_of kind.new; bytes = take count.new bytes.new }))
        channel.old link.old channel.new link.new }
    ensures none { result ≡ pos 0 → Turns Awaits channel.old link.old channel.new link.new }
    ensures answer { NextAnswered (length bytes.old) result channel.old }
    ensures ended { channel.old.inbox.room ≤ length bytes.old → (result ≡ pos 0 → ⊥) → (result ≡ pos 1 → ⊥) → (result ≡ pos 2 → ⊥)
        → Turns (EndsWith result) channel.old link.old channel.new link.new }
    ensures unchanged { length bytes.old < channel.old.inbox.room → (channel.new ≡ channel.old) × (link.new ≡ link.old) }
{
    match channel.next(link, bytes) {
        Ok(
            Some(
                Handed {
                    kind: found,
                    class,
                    count: handed,
                },
            ),
        ) => {
            *kind = number_of(found);
            *count = handed;
            match class {
                Class::Guaranteed => 2,
                Class::Loose => 1,
            }
        }
        Ok(None) => 0,
        Err(fault) => channel.note(next_why(fault)),
    }
}

/// Hands out the oldest parcel that is whole, after held pieces were posted: answers 2 for a guaranteed one and 1 for another with
/// the count of its bytes and whether it is a short event (0) or a message (1), or 0 where none is.
#[unsafe(no_mangle)]
pub extern "C" fn tribes_message(
    alloc: Global,
    end: &mut End,
    channel: &mut ChannelHandle,
    bytes: &mut [u8],
    kind: &mut u32,
    count: &mut usize,
) -> i32
    ensures guaranteed { result ≡ pos 2 → BehindBoth
        (λ old c new c'. Turns (GivesWhole (record { kind = kind_of kind.new; bytes = take count.new bytes.new })) c old c' new)
        end.old.held.value channel.old.held.value end.new.held.value channel.new.held.value }
    ensures loose { result ≡ pos 1 → BehindBoth
        (λ old c new c'. Turns (GivesLoose (record { kind = kind_of kind.new; bytes = take count.new bytes.new })) c old c' new)
        end.old.held.value channel.old.held.value end.new.held.value channel.new.held.value }
    ensures none { result ≡ pos 0 → BehindBoth (λ old c new c'. Turns Awaits c old c' new)
        end.old.held.value channel.old.held.value end.new.held.value channel.new.held.value }
    ensures answer { AnswersByBoth end.old.state channel.old.state end.old.held.value channel.old.held.value result
        (λ side c. NextAnswered (length bytes.old) result c) }
    ensures ended { end.old.state ≡ OPEN → channel.old.state ≡ OPEN_CHANNEL
        → (result ≡ pos 0 → ⊥) → (result ≡ pos 1 → ⊥) → (result ≡ pos 2 → ⊥)
        → BehindBoth (λ old c new c'. c.inbox.room ≤ length bytes.old → Turns (EndsWith result) c old c' new)
        end.old.held.value channel.old.held.value end.new.held.value channel.new.held.value }
    ensures unchanged { end.old.state ≡ OPEN → channel.old.state ≡ OPEN_CHANNEL
        → BehindBoth (λ old c new c'. length bytes.old < c.inbox.room → (c' ≡ c) × (new ≡ old))
        end.old.held.value channel.old.held.value end.new.held.value channel.new.held.value }
    ensures closed { (end.old.state ≡ OPEN → channel.old.state ≡ OPEN_CHANNEL → ⊥)
        → (end.new.held.value ≡ end.old.held.value) × (channel.new.held.value ≡ channel.old.held.value) }
{
    let Some(taken_end) = end.take(alloc) else {
        return NO_END;
    };
    let mut link = taken_end;
    let Some(taken_channel) = channel.take(alloc) else {
        end.put(link);
        return NO_CHANNEL;
    };
    let mut parcels = taken_channel;
    let code = next_of(&mut *link, &mut *parcels, bytes, kind, count);
    end.put(link);
    channel.put(parcels);
    code
}
