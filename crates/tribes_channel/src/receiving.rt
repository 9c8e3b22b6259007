//! What comes in: delivered events are taken until a parcel is whole.
ghost use Rattle.std.specs.Prelude.{◌≡◌, ◌≤◌, IfOk, IfErr, IfSome, IsNone, IsSome, OnOk, Some, None, [], ◌∷◌, length, take};
ghost use Rattle.std.specs.Result.{result_err};
ghost use Rattle.tn_types.specs.declared.choices.Class.TheVariants as class;
ghost use Rattle.tn_types.specs.Histories.{Does};
ghost use Rattle.messages.specs.InboxStands.{InboxStandsFor, HandedOut};
ghost use Rattle.messages.specs.InboxState.{waiting, loose_fault};
ghost use Rattle.messages.specs.Pieces.{pieces_by};
ghost use Rattle.tribes_ends.specs.Sides.{Pops, HasNoEvent};
ghost use Rattle.tribes_channel.specs.Channel.{Awaits, Gives, EndsBy, EndsAt};
ghost use Rattle.tribes_channel.specs.GatheredBy.{GatheredBy};

use crate::channel::Handed;
use messages::{Inbox, MAX_SINGLE_BYTES, PieceFault, loose_parcel};
use tn_types::{MAX_EVENT_BYTES, Payload};
use tribes_ends::{Class, Link};

/// What the events came to that were taken from an end.
enum Gathered {
    /// No parcel is whole, and no event waits.
    Nothing,
    /// A parcel waits in the inbox.
    Whole,
    /// An unguaranteed event.
    Loose(Payload),
    /// A piece that the inbox refused.
    Bad(PieceFault),
}

/// Hands out the oldest event that waits, as it lies.
#[tactic(auto, using(crate::proofs::Channelling::take_within))]
fn pop(link: &mut Link) -> Option<(Class, Payload)>
    ensures popped { IfSome result (λ e. Pops link.old e.0 e.1 link.new) }
    ensures none { IsNone result → HasNoEvent link.old link.new }
{
    let mut event = [0u8; MAX_EVENT_BYTES];
    match link.pop(&mut event) {
        Ok(Some(popped)) => {
            let (bytes, _) = event.split_at(popped.count.min(MAX_EVENT_BYTES));
            match Payload::from_slice(bytes) {
                Some(piece) => Some((popped.class, piece)),
                None => unreachable!(),
            }
        }
        Ok(None) => None,
        Err(_) => unreachable!(),
    }
}

/// Takes events that wait, the oldest first, until they come to something.
#[tactic(auto, using(crate::proofs::Channelling::gathers_none, crate::proofs::Channelling::gathers_more, crate::proofs::Channelling::fewer_wait))]
fn gather(inbox: &mut Inbox, link: &mut Link) -> Gathered
    requires none_waits { waiting inbox.old ≡ None }
    requires sound { inbox.old.fault ≡ None }
    ensures { GatheredBy result inbox.old link.old inbox.new link.new }
{
    'events: while let Some((class, piece)) = pop(link) {
        match class {
            Class::Guaranteed => {
                if let Err(fault) = inbox.take(&piece) {
                    return Gathered::Bad(fault);
                }
                if inbox.waits() {
                    return Gathered::Whole;
                }
            }
            Class::Loose => return Gathered::Loose(piece),
        }
    }
    Gathered::Nothing
}

/// Puts the bytes at the front of the place, and gives how many they are.
fn hand_over(bytes: &[u8], place: &mut [u8]) -> usize
    requires { length bytes.now ≤ length place.old }
    ensures { take result place.new ≡ bytes.now }
{
    let count = bytes.len();
    place[..count].copy_from_slice(bytes);
    count
}

/// Hands over the parcel of an unguaranteed event, or ends the channel.
fn hand_loose(inbox: &mut Inbox, piece: &Payload, place: &mut [u8]) -> Result<Handed, PieceFault>
    requires room { MAX_SINGLE_BYTES ≤ length place.old }
    ensures loose { IfOk result (λ h. h.class ≡ class.Loose) }
    ensures whole { IfOk result (λ h. pieces_by h.kind (take h.count place.new) ≡ piece.now ∷ []) }
    ensures unchanged { OnOk result (inbox.new ≡ inbox.old) }
    ensures bad { result_err result ≡ loose_fault piece.now }
    ensures ended { IfErr result (λ fault. inbox.new ≡ record inbox.old { fault = Some fault }) }
{
    match loose_parcel(piece) {
        Ok((kind, bytes)) => Ok(Handed {
            kind,
            class: Class::Loose,
            count: hand_over(bytes, place),
        }),
        Err(fault) => {
            inbox.end(fault);
            Err(fault)
        }
    }
}

/// Hands out the parcel that waits in the inbox.
fn hand_whole(inbox: &mut Inbox, place: &mut [u8]) -> Handed
    requires waits { IsSome (waiting inbox.old) }
    requires room { inbox.old.room ≤ length place.old }
    ensures class { result.class ≡ class.Guaranteed }
    ensures whole { waiting inbox.old ≡ Some (record { kind = result.kind; bytes = take result.count place.new }) }
    ensures stands { Does InboxStandsFor inbox.old
        (HandedOut (record { kind = result.kind; bytes = take result.count place.new })) inbox.new }
    ensures none_waits { waiting inbox.new ≡ None }
    ensures fault { inbox.new.fault ≡ inbox.old.fault }
    ensures room { inbox.new.room ≡ inbox.old.room }
{
    match inbox.hand_to(place) {
        Some(whole) => Handed {
            kind: whole.kind,
            class: Class::Guaranteed,
            count: whole.count,
        },
        None => unreachable!(),
    }
}

/// Takes events that wait until a parcel is whole, and hands it out.
fn receive(
    inbox: &mut Inbox,
    link: &mut Link,
    place: &mut [u8],
) -> Result<Option<Handed>, PieceFault>
    requires none_waits { waiting inbox.old ≡ None }
    requires sound { inbox.old.fault ≡ None }
    requires least { MAX_SINGLE_BYTES ≤ inbox.old.room }
    requires room { inbox.old.room ≤ length place.old }
    ensures gives { IfOk result (λ found. IfSome found (λ h.
        Gives h.class (record { kind = h.kind; bytes = take h.count place.new }) inbox.old link.old inbox.new link.new)) }
    ensures none { IfOk result (λ found. IsNone found → Awaits inbox.old link.old inbox.new link.new) }
    ensures ended { IfErr result (λ fault. EndsBy fault inbox.old link.old inbox.new link.new) }
    ensures none_waits { waiting inbox.new ≡ None }
    ensures room { inbox.new.room ≡ inbox.old.room }
{
    match gather(inbox, link) {
        Gathered::Nothing => Ok(None),
        Gathered::Whole => Ok(Some(hand_whole(inbox, place))),
        Gathered::Loose(piece) => match hand_loose(inbox, &piece, place) {
            Ok(handed) => Ok(Some(handed)),
            Err(fault) => Err(fault),
        },
        Gathered::Bad(fault) => Err(fault),
    }
}

/// The same where the channel may be ended: then it is so with the same fault, and nothing is taken.
pub(crate) fn take_in(
    inbox: &mut Inbox,
    link: &mut Link,
    place: &mut [u8],
) -> Result<Option<Handed>, PieceFault>
    requires none_waits { waiting inbox.old ≡ None }
    requires least { MAX_SINGLE_BYTES ≤ inbox.old.room }
    requires room { inbox.old.room ≤ length place.old }
    ensures gives { IfOk result (λ found. IfSome found (λ h.
        Gives h.class (record { kind = h.kind; bytes = take h.count place.new }) inbox.old link.old inbox.new link.new)) }
    ensures none { IfOk result (λ found. IsNone found → Awaits inbox.old link.old inbox.new link.new) }
    ensures ended { IfErr result (λ fault. EndsAt inbox.old.fault fault inbox.old link.old inbox.new link.new) }
    ensures none_waits { waiting inbox.new ≡ None }
    ensures room { inbox.new.room ≡ inbox.old.room }
{
    match inbox.fault() {
        Some(fault) => Err(fault),
        None => receive(inbox, link, place),
    }
}
