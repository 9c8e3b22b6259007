//! A door, which has a handle of its own: hellos and answers come, and the game decides who has which client.
ghost use Rattle.std.specs.Prelude.{◌≡◌, ◌⊎◌, ◌↔◌, pos, IsOk, IsSome, IfOk, OnOk, OnErr, IfSome, None, [], replicate, slice_set};
ghost use Rattle.greeting.specs.Door.{accept_answer};
ghost use Rattle.greeting.specs.Passing.{StandsFor, Left, Renewed, Does};
ghost use Rattle.tribes_link.specs.Behind.{Behind, Tells};
ghost use Rattle.tribes_link.specs.Doors.{address_of, bytes_in, heard_code, heard_number, accept_code, IsHeard, IsGiven, IsTurned};
ghost use Rattle.tribes_link.specs.Handles.{AnswersAt, IsMadeIfRoom};

use crate::answering::NO_MEMORY;
use crate::door_handle::{DoorHandle, OPEN_DOOR};
use crate::door_rows::{AddressRow, DoorTerms, GreetingRow, SecretRow, address_of, put_greeting};
use crate::joining_codes::{HAS_DOOR, NO_DOOR, NO_SEAT, NOBODY_ASKS, SEAT_IS_TAKEN};
use greeting::{AcceptFault, Address, Door, GreetingBytes, Heard};
use std::alloc::Global;

/// Makes a door with free seats.
#[unsafe(no_mangle)]
pub extern "C" fn tribes_door_open(alloc: Global, door: &mut DoorHandle, terms: &DoorTerms) -> i32
    ensures begins { result ≡ pos 0 → IfSome door.new.held.value (λ d. StandsFor terms.now.secret d []) }
    ensures made { result ≡ pos 0 → IfSome door.new.held.value (λ d. d ≡ record {
      secret = terms.now.secret;
      before = terms.now.secret;
      protocol = terms.now.protocol;
      terms = terms.now.terms;
      seats = replicate terms.now.seats None;
      asking = None;
    }) }
    ensures some { result ≡ pos 0 → IsSome door.new.held.value }
    ensures has_door { door.old.state ≡ OPEN_DOOR → result ≡ HAS_DOOR }
    ensures answer { (door.old.state ≡ OPEN_DOOR → ⊥) → IsMadeIfRoom result }
    ensures unchanged { (result ≡ pos 0 → ⊥) → door.new ≡ door.old }
{
    if door.is_open() {
        return HAS_DOOR;
    }
    let Ok(made) = Door::new(
        alloc,
        terms.secret,
        terms.protocol,
        terms.terms,
        terms.seats,
    ) else {
        return NO_MEMORY;
    };
    match Box::new(alloc, made) {
        Ok(boxed) => {
            door.put(boxed);
            0
        }
        Err(_) => NO_MEMORY,
    }
}

/// Frees a door.
#[unsafe(no_mangle)]
pub extern "C" fn tribes_door_free(alloc: Global, door: &mut DoorHandle) -> i32
    ensures freed { (result ≡ pos 0) ↔ (door.old.state ≡ OPEN_DOOR) }
    ensures closed { (door.old.state ≡ OPEN_DOOR → ⊥) → result ≡ NO_DOOR }
    ensures empty { door.new.state ≡ OPEN_DOOR → ⊥ }
{
    match door.take(alloc) {
        Some(_) => 0,
        None => NO_DOOR,
    }
}

fn heard_code(heard: Heard) -> i32
    ensures { result ≡ heard_code heard }
{
    match heard {
        Heard::Dropped => 0,
        Heard::Challenged => 1,
        Heard::Refused { reason: _ } => 2,
        Heard::Asks => 3,
        Heard::Again { client: _ } => 4,
    }
}

fn heard_number(heard: Heard) -> u32
    ensures { result ≡ heard_number heard }
{
    match heard {
        Heard::Refused { reason } => u32::from(reason.byte()),
        Heard::Again { client } => client,
        _ => 0,
    }
}

/// Hears a datagram, and gives the answer.
fn hear_at(
    door: &mut Door,
    from: Address,
    bytes: &[u8],
    reply: &mut GreetingRow,
    number: &mut u32,
) -> i32
    ensures heard { IsHeard from bytes.now result number.new (bytes_in reply.new) door.old door.new }
{
    let mut place = GreetingBytes::new();
    let heard = door.hear(from, bytes, &mut place);
    put_greeting(&place, reply);
    *number = heard_number(heard);
    heard_code(heard)
}

/// A datagram came from an address: answers 0: it is dropped, 1: challenged, 2: refused, with the reason, 3: the game decides, 4: it
/// has a seat, and is told so again. What `reply` then has is to go back there.
#[unsafe(no_mangle)]
pub extern "C" fn tribes_door_hear(
    alloc: Global,
    door: &mut DoorHandle,
    from: &AddressRow,
    bytes: &[u8],
    reply: &mut GreetingRow,
    number: &mut u32,
) -> i32
    ensures heard { door.old.state ≡ OPEN_DOOR → Behind
        (λ old new. IsHeard (address_of from.now) bytes.now result number.new (bytes_in reply.new) old new)
        door.old.held.value door.new.held.value }
    ensures closed { (door.old.state ≡ OPEN_DOOR → ⊥) → (result ≡ NO_DOOR) × (door.new ≡ door.old) × (reply.new ≡ reply.old) }
{
    let Some(taken) = door.take(alloc) else {
        return NO_DOOR;
    };
    let mut open = taken;
    let code = hear_at(&mut *open, address_of(from), bytes, reply, number);
    door.put(open);
    code
}

/// Gives who asks this client, and tells the code.
fn accept_at(door: &mut Door, client: u32, reply: &mut GreetingRow) -> i32
    ensures given { result ≡ pos 0 → IsGiven client (bytes_in reply.new) door.old door.new }
    ensures answer { result ≡ accept_code (accept_answer door.old client) }
    ensures unchanged { (result ≡ pos 0 → ⊥) → (door.new ≡ door.old) × (reply.new ≡ reply.old) }
{
    let mut place = GreetingBytes::new();
    match door.accept(client, &mut place) {
        Ok(()) => {
            put_greeting(&place, reply);
            0
        }
        Err(AcceptFault::NobodyAsks) => NOBODY_ASKS,
        Err(AcceptFault::NoSeat) => NO_SEAT,
        Err(AcceptFault::SeatIsTaken) => SEAT_IS_TAKEN,
    }
}

/// Who asks has this client from now on. What `reply` then has is to go to its address.
#[unsafe(no_mangle)]
pub extern "C" fn tribes_door_accept(
    alloc: Global,
    door: &mut DoorHandle,
    client: u32,
    reply: &mut GreetingRow,
) -> i32
    ensures given { result ≡ pos 0 → Behind (λ old new. IsGiven client (bytes_in reply.new) old new) door.old.held.value door.new.held.value }
    ensures answer { AnswersAt OPEN_DOOR door.old.state NO_DOOR door.old.held.value result
        (λ d. result ≡ accept_code (accept_answer d client)) }
    ensures unchanged { (result ≡ pos 0 → ⊥) → (door.new.held.value ≡ door.old.held.value) × (reply.new ≡ reply.old) }
{
    let Some(taken) = door.take(alloc) else {
        return NO_DOOR;
    };
    let mut open = taken;
    let code = accept_at(&mut *open, client, reply);
    door.put(open);
    code
}

/// Turns away who asks, and tells the code.
fn refuse_at(door: &mut Door, reply: &mut GreetingRow) -> i32
    ensures turned { result ≡ pos 0 → IsTurned (bytes_in reply.new) door.old door.new }
    ensures answer { (result ≡ pos 0) ⊎ (result ≡ NOBODY_ASKS) }
    ensures asks { result ≡ pos 0 ↔ IsSome door.old.asking }
    ensures unchanged { (result ≡ pos 0 → ⊥) → (door.new ≡ door.old) × (reply.new ≡ reply.old) }
{
    let mut place = GreetingBytes::new();
    if door.refuse(&mut place) {
        put_greeting(&place, reply);
        0
    } else {
        NOBODY_ASKS
    }
}

/// The game does not take the token of who asks. What `reply` then has is to go to its address.
#[unsafe(no_mangle)]
pub extern "C" fn tribes_door_refuse(
    alloc: Global,
    door: &mut DoorHandle,
    reply: &mut GreetingRow,
) -> i32
    ensures turned { result ≡ pos 0 → Behind (λ old new. IsTurned (bytes_in reply.new) old new) door.old.held.value door.new.held.value }
    ensures answer { AnswersAt OPEN_DOOR door.old.state NO_DOOR door.old.held.value result
        (λ d. ((result ≡ pos 0) ⊎ (result ≡ NOBODY_ASKS)) × (result ≡ pos 0 ↔ IsSome d.asking)) }
    ensures unchanged { (result ≡ pos 0 → ⊥) → (door.new.held.value ≡ door.old.held.value) × (reply.new ≡ reply.old) }
{
    let Some(taken) = door.take(alloc) else {
        return NO_DOOR;
    };
    let mut open = taken;
    let code = refuse_at(&mut *open, reply);
    door.put(open);
    code
}

/// A client left: its seat is free.
#[unsafe(no_mangle)]
pub extern "C" fn tribes_door_leave(alloc: Global, door: &mut DoorHandle, client: u32) -> i32
    ensures left { result ≡ pos 0 → Behind
        (λ old new. (new ≡ record old { seats = slice_set old.seats client None }) × Does old (Left client) new)
        door.old.held.value door.new.held.value }
    ensures answer { (result ≡ pos 0) ↔ (door.old.state ≡ OPEN_DOOR) }
    ensures closed { (door.old.state ≡ OPEN_DOOR → ⊥) → (result ≡ NO_DOOR) × (door.new ≡ door.old) }
{
    let Some(taken) = door.take(alloc) else {
        return NO_DOOR;
    };
    let mut open = taken;
    open.leave(client);
    door.put(open);
    0
}

/// Another secret. A challenge of the one before is still taken, until there is another one again.
#[unsafe(no_mangle)]
pub extern "C" fn tribes_door_renew(alloc: Global, door: &mut DoorHandle, secret: &SecretRow) -> i32
    ensures renewed { result ≡ pos 0 → Behind
        (λ old new. (new ≡ record old { secret = secret.now.bytes; before = old.secret }) × Does old (Renewed secret.now.bytes) new)
        door.old.held.value door.new.held.value }
    ensures answer { (result ≡ pos 0) ↔ (door.old.state ≡ OPEN_DOOR) }
    ensures closed { (door.old.state ≡ OPEN_DOOR → ⊥) → (result ≡ NO_DOOR) × (door.new ≡ door.old) }
{
    let Some(taken) = door.take(alloc) else {
        return NO_DOOR;
    };
    let mut open = taken;
    open.renew(secret.bytes);
    door.put(open);
    0
}
