//! The server's end, with each call's conditions tested.
ghost use Rattle.std.specs.Prelude.{◌≡◌, ℕ, ◌≤◌, ◌<◌, IfOk, IfSome, IsSome, IsNone, OnOk, OnErr, IsTrue, nat_lt, Ok, Some, [], map, length, take};
ghost use Rattle.std.specs.Option.{option_copied};
ghost use Rattle.std.specs.Result.{result_err};
ghost use Rattle.tn_types.specs.declared.choices.Class.TheVariants.{Guaranteed};
ghost use Rattle.notify_window.specs.State.{send_state};
ghost use Rattle.ghost_model.specs.Ghosts.{scope_log, slot, is_settled};
ghost use Rattle.ghost_model.specs.Scope.{shows};
ghost use Rattle.stream_manager.specs.ghost_scope.Shown.{IsUp, IsAlive};
ghost use Rattle.stream_manager.specs.Server.{Scoped, Show, Hide, Near, Absorb, Posted, server_end, ghost_log, posted_at_server};
ghost use Rattle.stream_manager.specs.ConnCalls.{Does, Answers};
ghost use Rattle.stream_manager.specs.Verdicts.{last_verdicts};
ghost use Rattle.tribes_ends.specs.Lists.{judged_of, number_of};
ghost use Rattle.tribes_ends.specs.Refusals.{ByServer, is_shown, block_at, show_refusal, hide_refusal, near_refusal, changed_refusal, settled_refusal, slot_refusal, post_at_server, room_refusal, seal_refusal, pack_at_server, arrival_at_server, block_refusal, moves_refusal};
ghost use Rattle.tribes_ends.specs.Sides.{PopsAtServer, TakesUp, PlansAtServer, MakesNone, SendsDown, PingsDown, WornDown, CountsAtServer};

use crate::asking::{Ask, plan};
use crate::counts::{Counts, or_zero};
use crate::handing::{Popped, hand_event, hand_over};
use crate::link::Packed;
use crate::refusal::Refusal;
use crate::rows::{Judged, list_moves, list_verdicts};
use conn_packing::{MAX_PACKET_VALUES, ping_into, seal_into};
use notify_window::SendState;
use std::marker::Brand;
use std::sync::ledger::Blank;
use stream_manager::Conn;
use tn_types::{
    BlockBytes, Class, MAX_BLOCK_BYTES, MAX_BLOCKS, MAX_DISTANCE_LEVEL, MAX_EVENT_BYTES,
    MAX_FIELDS, MAX_PACKET_MOVES, MAX_READ_BYTES, MAX_SHOWS, MAX_UNJUDGED_PACKETS, Payload,
};

/// Whether the table has a kind of this number.
fn has_kind(conn: &Conn, kind: u32) -> bool
    ensures value { result ≡ nat_lt kind (length conn.now.masks.kinds) }
    ensures byte { IsTrue result → kind < 256 }
    ensures there { IsTrue result → kind < length conn.now.masks.kinds }
{
    if kind > 255 {
        // for the clause by which a table has few kinds
        let _ = conn.kinds().kind(0);
        return false;
    }
    conn.has_kind(kind as u8)
}

/// The block of this number that the end was made with.
fn block_of(conn: &Conn, number: u32) -> Option<&BlockBytes>
    ensures value { option_copied result ≡ block_at conn.now number }
    ensures byte { IsSome result → number < MAX_BLOCKS }
{
    if number < MAX_BLOCKS as u32 {
        conn.block(number as u8)
    } else {
        None
    }
}

/// Whether the period was shown and isn't hidden.
fn shown(conn: &Conn, n: u32) -> bool
    ensures value { result ≡ is_shown conn.now n }
    ensures up { IsTrue result → IsUp conn.now.masks.periods n }
    ensures alive { IsTrue result → IsAlive conn.now.masks.periods n }
{
    conn.is_up(n)
}

/// Shows an object, and gives the number of its period.
pub(crate) fn show(
    conn: &mut Conn,
    kind: u32,
    block: u32,
    level: u32,
    control: bool,
) -> Result<u32, Refusal>
    ensures told { OnOk result (Does conn.old (Scoped (Show kind block level control)) conn.new) }
    ensures number { IfOk result (Answers conn.old (λ log. shows (scope_log (ghost_log log)))) }
    ensures unchanged { OnErr result (conn.new ≡ conn.old) }
    ensures refused { result_err result ≡ show_refusal kind block level control conn.old }
{
    if !has_kind(conn, kind) {
        return Err(Refusal::NoKind { kind });
    }
    if block_of(conn, block).is_none() {
        return Err(Refusal::NoBlock { block });
    }
    if level > u32::from(MAX_DISTANCE_LEVEL) {
        return Err(Refusal::NoLevel { level });
    }
    if conn.is_full() {
        return Err(Refusal::TooManyShown);
    }
    if conn.shows() == MAX_SHOWS {
        return Err(Refusal::ShowsWorn);
    }
    if control && conn.has_control() {
        return Err(Refusal::HasControl);
    }
    Ok(conn.show(kind as u8, block as u8, level as u8, control))
}

/// Ends a period.
pub(crate) fn hide(conn: &mut Conn, n: u32) -> Result<(), Refusal>
    ensures told { OnOk result (Does conn.old (Scoped (Hide n)) conn.new) }
    ensures unchanged { OnErr result (conn.new ≡ conn.old) }
    ensures refused { result_err result ≡ hide_refusal n conn.old }
{
    if !shown(conn, n) {
        return Err(Refusal::NotShown { n });
    }
    conn.hide(n);
    Ok(())
}

/// Puts a period at another level of distance.
pub(crate) fn near(conn: &mut Conn, n: u32, level: u32) -> Result<(), Refusal>
    ensures told { OnOk result (Does conn.old (Scoped (Near n level)) conn.new) }
    ensures unchanged { OnErr result (conn.new ≡ conn.old) }
    ensures refused { result_err result ≡ near_refusal n level conn.old }
{
    if !shown(conn, n) {
        return Err(Refusal::NotShown { n });
    }
    if level > u32::from(MAX_DISTANCE_LEVEL) {
        return Err(Refusal::NoLevel { level });
    }
    conn.near(n, level as u8);
    Ok(())
}

/// Notes that fields of a period's object changed.
pub(crate) fn changed(conn: &mut Conn, n: u32, bits: u32) -> Result<(), Refusal>
    ensures told { OnOk result (Does conn.old (Scoped (Absorb n bits)) conn.new) }
    ensures unchanged { OnErr result (conn.new ≡ conn.old) }
    ensures refused { result_err result ≡ changed_refusal n bits conn.old }
{
    if !shown(conn, n) {
        return Err(Refusal::NotShown { n });
    }
    if !conn.has_fields(n, bits) {
        return Err(Refusal::NoField { n });
    }
    conn.absorb(n, bits);
    Ok(())
}

/// Whether the client has the newest value of a field that was noted as changed.
pub(crate) fn settled(conn: &Conn, n: u32, field: u32) -> Result<bool, Refusal>
    ensures told { IfOk result (Answers conn.now (λ log. is_settled (ghost_log log) n field)) }
    ensures refused { result_err result ≡ settled_refusal n field conn.now }
{
    if n >= conn.shows() {
        return Err(Refusal::NotShown { n });
    }
    if field >= MAX_FIELDS as u32 {
        return Err(Refusal::NoField { n });
    }
    Ok(conn.settled(n, field as u8))
}

/// The slot of a period, if it holds one.
pub(crate) fn slot(conn: &Conn, n: u32) -> Result<Option<u8>, Refusal>
    ensures told { IfOk result (Answers conn.now (λ log. slot (ghost_log log) n)) }
    ensures refused { result_err result ≡ slot_refusal n conn.now }
{
    if n >= conn.shows() {
        return Err(Refusal::NotShown { n });
    }
    Ok(conn.slot(n))
}

/// Posts an event, and gives its number where it is guaranteed, else 0.
pub(crate) fn post(conn: &mut Conn, bytes: &[u8], class: Class) -> Result<u32, Refusal>
    ensures posted { OnOk result (Does conn.old (Posted class bytes.now) conn.new) }
    ensures number { class ≡ Guaranteed → IfOk result (λ n. Answers conn.old (posted_at_server conn.old.common.config) (Ok n)) }
    ensures unchanged { OnErr result (conn.new ≡ conn.old) }
    ensures refused { ByServer (post_at_server bytes.now class conn.old) conn.old (λ r. result_err result ≡ r) }
{
    let Some(payload) = Payload::from_slice(bytes) else {
        return Err(Refusal::TooLong {
            most: MAX_EVENT_BYTES as u32,
        });
    };
    match class {
        Class::Guaranteed => match conn.post(payload) {
            Ok(number) => Ok(number),
            Err(fault) => Err(Refusal::from(fault)),
        },
        Class::Loose => {
            let _ = conn.post_loose(payload);
            Ok(0)
        }
    }
}

/// Plans the next data packet where one may be sent, and notes the values that it asks for; gives how many these are.
pub(crate) fn ask(conn: &mut Conn, asks: &mut [Ask]) -> Result<Option<usize>, Refusal>
    ensures plans { IfOk result (λ found. IfSome found (λ count. PlansAtServer conn.old (take count asks.new) conn.new)) }
    ensures none { IfOk result (λ found. IsNone found → MakesNone conn.old conn.new) }
    ensures unchanged { OnErr result (conn.new ≡ conn.old) }
    ensures refused { result_err result ≡ room_refusal MAX_PACKET_VALUES (length asks.old) }
{
    if asks.len() < MAX_PACKET_VALUES {
        return Err(Refusal::NoRoom {
            needed: MAX_PACKET_VALUES as u32,
        });
    }
    match conn.pack_state() {
        SendState::Room => {
            let blank = Blank::new(1);
            let count = plan::<Brand>(conn, blank, asks);
            Ok(Some(count))
        }
        SendState::Held => Ok(None),
        SendState::Worn => Ok(None),
    }
}

/// Makes the data packet that was planned, with these values.
fn seal(conn: &mut Conn, values: &[i64], place: &mut [u8]) -> Result<usize, Refusal>
    requires state { send_state conn.old.common.window ≡ SendState.Room }
    ensures sends { IfOk result (λ count. SendsDown conn.old values.now (take count place.new) conn.new) }
    ensures unchanged { OnErr result (conn.new ≡ conn.old) }
    ensures refused { ByServer (λ log. seal_refusal values.now (length place.old) conn.old log conn.old.masks.plan) conn.old
        (λ r. result_err result ≡ r) }
{
    let needed = conn.config().size;
    if !conn.is_planned() {
        return Err(Refusal::NotPlanned);
    }
    if !conn.fits(values) {
        return Err(Refusal::BadValues);
    }
    match seal_into(conn, values, place) {
        Ok(count) => Ok(count),
        Err(_) => Err(Refusal::NoRoom { needed }),
    }
}

/// Makes the next datagram: the data packet that was planned, with these values, or a ping.
pub(crate) fn pack(conn: &mut Conn, values: &[i64], place: &mut [u8]) -> Result<Packed, Refusal>
    ensures data { (count : ℕ) → result ≡ Ok (Packed.Data count) → SendsDown conn.old values.now (take count place.new) conn.new }
    ensures ping { (count : ℕ) → result ≡ Ok (Packed.Ping count) → PingsDown conn.old (take count place.new) conn.new }
    ensures nothing { result ≡ Ok Packed.Nothing → WornDown conn.old conn.new }
    ensures unchanged { OnErr result (conn.new ≡ conn.old) }
    ensures refused { ByServer (pack_at_server values.now (length place.old) conn.old) conn.old (λ r. result_err result ≡ r) }
{
    let needed = conn.config().size;
    match conn.pack_state() {
        SendState::Room => match seal(conn, values, place) {
            Ok(count) => Ok(Packed::Data { count }),
            Err(refusal) => Err(refusal),
        },
        SendState::Held => match ping_into(conn, place) {
            Ok(count) => Ok(Packed::Ping { count }),
            Err(_) => Err(Refusal::NoRoom { needed }),
        },
        SendState::Worn => Ok(Packed::Nothing),
    }
}

/// Takes a datagram, where so many further moves have a place; gives how many moves it brought.
pub(crate) fn arrive(conn: &mut Conn, bytes: &[u8], room: u32) -> Result<u32, Refusal>
    ensures taken { IfOk result (λ moves. TakesUp conn.old bytes.now room moves conn.new) }
    ensures unchanged { OnErr result (conn.new ≡ conn.old) }
    ensures refused { ByServer (arrival_at_server bytes.now room conn.old) conn.old (λ r. result_err result ≡ r) }
{
    if bytes.len() > MAX_READ_BYTES {
        return Err(Refusal::TooLong {
            most: MAX_READ_BYTES as u32,
        });
    }
    let count = conn.waiting();
    if count > 0 {
        return Err(Refusal::EventsWait { count });
    }
    match conn.arrive(bytes, room) {
        Ok(taken) => Ok(taken.moves),
        Err(fault) => Err(Refusal::AtServer(fault)),
    }
}

/// Hands out the oldest event that waits.
pub(crate) fn pop(conn: &mut Conn, place: &mut [u8]) -> Result<Option<Popped>, Refusal>
    ensures popped { IfOk result (λ found. IfSome found (λ p. PopsAtServer conn.old p.class (take p.count place.new) conn.new)) }
    ensures none { IfOk result (λ found. IsNone found → (conn.old.common.receiver.ready ≡ []) × (conn.new ≡ conn.old)) }
    ensures unchanged { OnErr result (conn.new ≡ conn.old) }
    ensures refused { result_err result ≡ room_refusal MAX_EVENT_BYTES (length place.old) }
{
    if place.len() < MAX_EVENT_BYTES {
        return Err(Refusal::NoRoom {
            needed: MAX_EVENT_BYTES as u32,
        });
    }
    match conn.pop_event() {
        Some((class, payload)) => Ok(Some(hand_event(class, &payload, place))),
        None => Ok(None),
    }
}

/// Hands over the bytes of a block that the connection was made with; gives how many these are.
pub(crate) fn block(conn: &Conn, number: u32, place: &mut [u8]) -> Result<usize, Refusal>
    ensures told { IfOk result (λ count. block_at conn.now number ≡ Some (take count place.new)) }
    ensures refused { result_err result ≡ block_refusal number (length place.old) (block_at conn.now number) }
{
    if place.len() < MAX_BLOCK_BYTES {
        return Err(Refusal::NoRoom {
            needed: MAX_BLOCK_BYTES as u32,
        });
    }
    match block_of(conn, number) {
        Some(bytes) => Ok(hand_over(bytes.as_slice(), place)),
        None => Err(Refusal::NoBlock { block: number }),
    }
}

/// What the end counted.
pub(crate) fn counts(conn: &Conn) -> Counts
    ensures { CountsAtServer conn.now result }
{
    let accepted = conn.accepted();
    Counts {
        sent: conn.sent(),
        unjudged: conn.unjudged(),
        taken: or_zero(conn.last_taken()),
        delivered: conn.delivered(),
        waiting: conn.waiting(),
        moves: accepted,
        accepted,
        event_places: conn.event_places(),
        loose_places: conn.loose_places(),
        move_places: 0,
    }
}

/// Lists what became of the packets that the last datagram judged; gives how many these are.
pub(crate) fn verdicts(conn: &Conn, place: &mut [Judged]) -> Result<u32, Refusal>
    ensures told { IfOk result (λ count.
        Answers conn.now (λ log. map judged_of (last_verdicts (server_end log))) (take count place.new)) }
    ensures refused { result_err result ≡ room_refusal MAX_UNJUDGED_PACKETS (length place.old) }
{
    if place.len() < MAX_UNJUDGED_PACKETS as usize {
        return Err(Refusal::NoRoom {
            needed: MAX_UNJUDGED_PACKETS,
        });
    }
    Ok(list_verdicts(conn.verdicts(), place))
}

/// Lists the moves that the last datagram brought; gives how many these are.
pub(crate) fn moves(conn: &Conn, place: &mut [u64]) -> Result<u32, Refusal>
    ensures told { IfOk result (λ count. take count place.new ≡ map number_of (take MAX_PACKET_MOVES conn.now.taken)) }
    ensures refused { result_err result ≡ moves_refusal (length place.old) conn.now }
{
    let taken = conn.taken_bits();
    if place.len() < taken.len() {
        return Err(Refusal::NoRoom {
            needed: MAX_PACKET_MOVES as u32,
        });
    }
    let (taken, _) = taken.split_at(taken.len().min(MAX_PACKET_MOVES));
    Ok(list_moves(taken, place))
}
