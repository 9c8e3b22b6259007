//! The client's end, with each call's conditions tested.
ghost use Rattle.std.specs.Prelude.{◌≡◌, ℕ, ◌≤◌, ◌<◌, IfOk, IfSome, IsNone, OnOk, OnErr, Ok, Some, [], map, length, slice_get, take, IsSome};
ghost use Rattle.std.specs.Option.{option_copied};
ghost use Rattle.std.specs.Result.{result_err};
ghost use Rattle.tn_types.specs.declared.choices.Class.TheVariants.{Guaranteed};
ghost use Rattle.ghost_client.specs.State.{copy_in, field_value, first_behind};
ghost use Rattle.stream_manager.specs.Changes.{changes_at};
ghost use Rattle.stream_manager.specs.Client.{Posted, client_end, posted_at_client};
ghost use Rattle.stream_manager.specs.ClientCalls.{Does, Answers};
ghost use Rattle.stream_manager.specs.Verdicts.{last_verdicts};
ghost use Rattle.tribes_ends.specs.Lists.{number_of, judged_of, change_of, pending_at, ShowsCopy, IsNextAtClient};
ghost use Rattle.tribes_ends.specs.Refusals.{ByClient, block_held, copy_held, post_at_client, sample_refusal, room_refusal, arrival_at_client, block_refusal, copy_refusal};
ghost use Rattle.tribes_ends.specs.Sides.{PopsAtClient, SamplesAtClient, TakesDown, SendsUp, PingsUp, WornUp, CountsAtClient};

use crate::counts::{Counts, or_zero};
use crate::handing::{Popped, hand_event, hand_over};
use crate::link::Packed;
use crate::refusal::Refusal;
use crate::rows::{Change, Copied, Judged, list_changes, list_moves, list_verdicts};
use ghost_client::{Copies, GhostCopy};
use stream_manager::{Client, ClientOut};
use tn_types::{
    BlockBytes, Class, MAX_BLOCK_BYTES, MAX_BLOCKS, MAX_EVENT_BYTES, MAX_FIELDS, MAX_PACKET_GHOSTS,
    MAX_PACKET_MOVES, MAX_READ_BYTES, MAX_SLOTS, MAX_UNJUDGED_PACKETS, MoveBits, Payload,
};

/// Posts an event, and gives its number where it is guaranteed, else 0.
pub(crate) fn post(client: &mut Client, bytes: &[u8], class: Class) -> Result<u32, Refusal>
    ensures posted { OnOk result (Does client.old (Posted class bytes.now) client.new) }
    ensures number { class ≡ Guaranteed → IfOk result (λ n. Answers client.old (posted_at_client client.old.common.config) (Ok n)) }
    ensures unchanged { OnErr result (client.new ≡ client.old) }
    ensures refused { ByClient (post_at_client bytes.now class client.old) client.old (λ r. result_err result ≡ r) }
{
    let Some(payload) = Payload::from_slice(bytes) else {
        return Err(Refusal::TooLong {
            most: MAX_EVENT_BYTES as u32,
        });
    };
    match class {
        Class::Guaranteed => match client.post(payload) {
            Ok(number) => Ok(number),
            Err(fault) => Err(Refusal::from(fault)),
        },
        Class::Loose => {
            let _ = client.post_loose(payload);
            Ok(0)
        }
    }
}

/// Takes up the move that this number is, and gives the move's own number.
pub(crate) fn sample(client: &mut Client, bits: u64) -> Result<u32, Refusal>
    ensures told { IfOk result (λ n. SamplesAtClient client.old bits n client.new) }
    ensures unchanged { OnErr result (client.new ≡ client.old) }
    ensures refused { ByClient (sample_refusal bits client.old) client.old (λ r. result_err result ≡ r) }
{
    match client.sample_bits(MoveBits { bits }) {
        Ok(number) => Ok(number),
        Err(fault) => Err(Refusal::from(fault)),
    }
}

/// Makes the next datagram.
pub(crate) fn pack(client: &mut Client, place: &mut [u8]) -> Result<Packed, Refusal>
    ensures data { (count : ℕ) → result ≡ Ok (Packed.Data count) → SendsUp client.old (take count place.new) client.new }
    ensures ping { (count : ℕ) → result ≡ Ok (Packed.Ping count) → PingsUp client.old (take count place.new) client.new }
    ensures nothing { result ≡ Ok Packed.Nothing → WornUp client.old client.new }
    ensures unchanged { OnErr result (client.new ≡ client.old) }
    ensures refused { result_err result ≡ room_refusal client.old.common.config.size (length place.old) }
{
    let size = client.config().size;
    if place.len() < size as usize {
        return Err(Refusal::NoRoom { needed: size });
    }
    match client.pack() {
        ClientOut::Body(bytes) => Ok(Packed::Data {
            count: hand_over(bytes, place),
        }),
        ClientOut::Ping(bytes) => Ok(Packed::Ping {
            count: hand_over(bytes, place),
        }),
        ClientOut::Worn { life: _ } => Ok(Packed::Nothing),
    }
}

/// Takes a datagram.
pub(crate) fn arrive(client: &mut Client, bytes: &[u8]) -> Result<u32, Refusal>
    ensures taken { OnOk result (TakesDown client.old bytes.now client.new) }
    ensures unchanged { OnErr result (client.new ≡ client.old) }
    ensures refused { ByClient (arrival_at_client bytes.now client.old) client.old (λ r. result_err result ≡ r) }
{
    if bytes.len() > MAX_READ_BYTES {
        return Err(Refusal::TooLong {
            most: MAX_READ_BYTES as u32,
        });
    }
    let count = client.waiting();
    if count > 0 {
        return Err(Refusal::EventsWait { count });
    }
    match client.arrive(bytes) {
        Ok(()) => Ok(0),
        Err(fault) => Err(Refusal::AtClient(fault)),
    }
}

/// Hands out the oldest event that waits.
pub(crate) fn pop(client: &mut Client, place: &mut [u8]) -> Result<Option<Popped>, Refusal>
    ensures popped { IfOk result (λ found. IfSome found (λ p. PopsAtClient client.old p.class (take p.count place.new) client.new)) }
    ensures none { IfOk result (λ found. IsNone found → (client.old.common.receiver.ready ≡ []) × (client.new ≡ client.old)) }
    ensures unchanged { OnErr result (client.new ≡ client.old) }
    ensures refused { result_err result ≡ room_refusal MAX_EVENT_BYTES (length place.old) }
{
    if place.len() < MAX_EVENT_BYTES {
        return Err(Refusal::NoRoom {
            needed: MAX_EVENT_BYTES as u32,
        });
    }
    match client.pop_event() {
        Some((class, payload)) => Ok(Some(hand_event(class, &payload, place))),
        None => Ok(None),
    }
}

/// The block that came for this number.
fn block_of(client: &Client, number: u32) -> Option<&BlockBytes>
    ensures { Answers client.now (block_held number) (option_copied result) }
{
    if number < MAX_BLOCKS as u32 {
        client.block(number as u8)
    } else {
        None
    }
}

/// Hands over the bytes of a block that came; gives how many these are.
pub(crate) fn block(client: &Client, number: u32, place: &mut [u8]) -> Result<usize, Refusal>
    ensures told { IfOk result (λ count. Answers client.now (block_held number) (Some (take count place.new))) }
    ensures refused { ByClient (λ log. block_refusal number (length place.old) (block_held number log)) client.now
        (λ r. result_err result ≡ r) }
{
    if place.len() < MAX_BLOCK_BYTES {
        return Err(Refusal::NoRoom {
            needed: MAX_BLOCK_BYTES as u32,
        });
    }
    match block_of(client, number) {
        Some(bytes) => Ok(hand_over(bytes.as_slice(), place)),
        None => Err(Refusal::NoBlock { block: number }),
    }
}

/// What the end counted.
pub(crate) fn counts(client: &Client) -> Counts
    ensures { CountsAtClient client.now result }
{
    Counts {
        sent: client.sent(),
        unjudged: client.unjudged(),
        taken: or_zero(client.last_taken()),
        delivered: client.delivered(),
        waiting: client.waiting(),
        moves: client.sampled(),
        accepted: client.accepted(),
        event_places: client.event_places(),
        loose_places: client.loose_places(),
        move_places: client.move_places(),
    }
}

/// Lists the moves that the server has not told as accepted; gives how many these are.
pub(crate) fn pending(client: &Client, place: &mut [u64]) -> Result<u32, Refusal>
    ensures told { IfOk result (λ count. Answers client.now (λ log. map number_of (pending_at log)) (take count place.new)) }
    ensures refused { result_err result ≡ room_refusal MAX_PACKET_MOVES (length place.old) }
{
    if place.len() < MAX_PACKET_MOVES {
        return Err(Refusal::NoRoom {
            needed: MAX_PACKET_MOVES as u32,
        });
    }
    let (_, moves) = client.pending();
    Ok(list_moves(moves.as_slice(), place))
}

/// Lists what became of the packets that the last datagram judged; gives how many these are.
pub(crate) fn verdicts(client: &Client, place: &mut [Judged]) -> Result<u32, Refusal>
    ensures told { IfOk result (λ count.
        Answers client.now (λ log. map judged_of (last_verdicts (client_end log))) (take count place.new)) }
    ensures refused { result_err result ≡ room_refusal MAX_UNJUDGED_PACKETS (length place.old) }
{
    if place.len() < MAX_UNJUDGED_PACKETS as usize {
        return Err(Refusal::NoRoom {
            needed: MAX_UNJUDGED_PACKETS,
        });
    }
    Ok(list_verdicts(client.verdicts(), place))
}

/// Lists what the last datagram did to slots; gives how many items these are.
pub(crate) fn changes(client: &Client, place: &mut [Change]) -> Result<u32, Refusal>
    ensures told { IfOk result (λ count.
        Answers client.now (λ log. map change_of (take MAX_PACKET_GHOSTS (changes_at log))) (take count place.new)) }
    ensures refused { result_err result ≡ room_refusal MAX_PACKET_GHOSTS (length place.old) }
{
    if place.len() < MAX_PACKET_GHOSTS {
        return Err(Refusal::NoRoom {
            needed: MAX_PACKET_GHOSTS as u32,
        });
    }
    let items = client.changes();
    let (items, _) = items.split_at(items.len().min(MAX_PACKET_GHOSTS));
    Ok(list_changes(items, place))
}

/// The least slot from this one on that holds a copy.
pub(crate) fn next_copy(client: &Client, from: u32) -> Option<u8>
    ensures { IsNextAtClient client.now from result }
{
    if from >= MAX_SLOTS as u32 {
        return None;
    }
    client.copies().next_full(slot_before(from))
}

/// The slot before this one, if any.
fn slot_before(slot: u32) -> Option<u8>
    requires { slot < MAX_SLOTS }
    ensures { first_behind result ≡ slot }
{
    if slot == 0 {
        None
    } else {
        Some((slot - 1) as u8)
    }
}

/// The copy in a slot.
fn copy_of(client: &Client, slot: u32) -> Option<&GhostCopy>
    ensures held { Answers client.now (copy_held slot) (option_copied result) }
    ensures value { IfSome result (λ found. copy_in client.now.copies.slots slot ≡ Some found.now) }
    ensures slot { IsSome result → slot < MAX_SLOTS }
{
    if slot < MAX_SLOTS as u32 {
        client.copies().get(slot as u8)
    } else {
        None
    }
}

/// The copy in a slot, with the values of its fields.
pub(crate) fn copy(client: &Client, slot: u32, values: &mut [i64]) -> Result<Copied, Refusal>
    ensures told { IfOk result (λ copied. ShowsCopy client.now slot copied values.new) }
    ensures refused { ByClient (λ log. copy_refusal slot (length values.old) (copy_held slot log)) client.now
        (λ r. result_err result ≡ r) }
{
    let Some(found) = copy_of(client, slot) else {
        return Err(Refusal::NoCopy { slot });
    };
    let fields = found.levels.len();
    if values.len() < fields {
        return Err(Refusal::NoRoom {
            needed: MAX_FIELDS as u32,
        });
    }
    read_values(client.copies(), slot as u8, found, values);
    Ok(Copied {
        kind: u32::from(found.kind),
        block: u32::from(found.block),
        fields: fields as u32,
    })
}

/// Puts the values of the fields of a slot's copy at the front of the place.
fn read_values(copies: &Copies, slot: u8, found: &GhostCopy, place: &mut [i64])
    requires held { copy_in copies.now.slots slot ≡ Some found.now }
    requires room { length found.now.levels ≤ length place.old }
    ensures { (field : ℕ) → field < length found.now.levels → slice_get place.new field ≡ field_value copies.now.kinds field found.now }
{
    'fields: for field in 0..found.levels.len() as u8 {
        if let Some(value) = copies.value(slot, field) {
            place[usize::from(field)] = value;
        }
    }
}
