//! Both ends on datagrams that were worked out beforehand: those that are refused, and those of shown objects byte for byte.
ghost use Rattle.std.specs.Prelude.{◌≡◌, ◌<◌, ◌≤◌, length};
ghost use Rattle.notify_window.specs.State.{send_state};
ghost use Rattle.stream_manager.specs.Limits.{IsConfig};

use ghost_client::GhostFault;
use notify_window::SendState;
use quantised_fields::KindTable;
use std::alloc::Global;
use std::marker::Brand;
use std::sync::ledger::{Blank, Ledger};
use std::test::Fail;
use stream_manager::{ArriveFault, Client, ClientFault, ClientOut, Config, ConfigFault, Conn};
use tn_types::{BlockBytes, MAX_READ_BYTES, MAX_SHOWS, Steps};
use wire_format::{BitsCause, BitsFault};
use world_rules::match_kinds;

pub(crate) const CONFIG: Config = Config {
    client: 0,
    life: 100,
    size: 128,
    version: 1,
    move_bits: 10,
};

/// The server's end of a new connection of client 0, in a match with one block, the byte `a`.
pub(crate) fn new_conn(alloc: Global, config: Config, kinds: &KindTable) -> Result<Conn, Fail>
    requires { IsConfig config }
{
    let blocks = [BlockBytes::from_slice(b"a").ok_or("too long")?];
    Ok(Conn::new(alloc, config, kinds, &blocks)?)
}

/// What is done at an end, and what it has to give.
enum Step {
    /// The server shows an object of this kind, with block 0, with or without control.
    Show(u8, bool),
    /// The server hides this period.
    Hide(u32),
    /// This period holds this slot.
    Slot(u32, Option<u8>),
    /// The server sends this data packet, whose ghosts have these values.
    Down(&'static [i64], &'static [u8]),
    /// The client takes this datagram, or refuses it.
    Came(&'static [u8], Result<(), ClientFault>),
    /// The client sends this data packet.
    Up(&'static [u8]),
    /// The server takes this datagram, with so many new moves, or refuses it.
    Went(&'static [u8], Result<u32, ArriveFault>),
    /// The client's control slot is this.
    Control(Option<u8>),
    /// The copy of this slot is of this kind, if there is one.
    Copy(u8, Option<u8>),
}

/// Shows an object; whether it could be shown.
pub(crate) fn shows(conn: &mut Conn, kind: u8, control: bool) -> bool {
    if !conn.has_kind(kind) || conn.is_full() || conn.shows() == MAX_SHOWS {
        return false;
    }
    if control && conn.has_control() {
        return false;
    }
    let _ = conn.show(kind, 0, 0, control);
    true
}

/// Hides a period; whether it was shown.
pub(crate) fn hides(conn: &mut Conn, n: u32) -> bool {
    if !conn.is_up(n) {
        return false;
    }
    conn.hide(n);
    true
}

/// Whether the period was shown and holds this slot.
fn holds(conn: &Conn, n: u32, slot: Option<u8>) -> bool {
    n < conn.shows() && conn.slot(n) == slot
}

/// Plans with a counter that nobody reads.
pub(crate) fn plan<L: Ledger>(conn: &mut Conn, blank: Blank)
    requires name { blank.name ≡ L.name }
    requires parts { blank.parts ≡ L.parts }
    requires some { 0 < blank.parts }
    requires room { send_state conn.old.common.window ≡ SendState.Room }
{
    let mut steps: Steps<L> = Steps::new(blank);
    let _ = conn.plan(&mut steps);
}

/// Whether the server's next datagram is a data packet with these bytes, where its ghosts have these values.
fn sends(conn: &mut Conn, values: &[i64], bytes: &[u8]) -> bool {
    if conn.pack_state() != SendState::Room {
        return false;
    }
    plan::<Brand>(conn, Blank::new(1));
    conn.is_planned() && conn.fits(values) && conn.seal(values) == bytes
}

/// Whether the client's next datagram is a data packet with these bytes.
fn answers(client: &mut Client, bytes: &[u8]) -> bool {
    match client.pack() {
        ClientOut::Body(sent) => sent == bytes,
        ClientOut::Ping(_) | ClientOut::Worn { .. } => false,
    }
}

/// What the client says of a datagram; `None` where an event waits, or it is too long.
pub(crate) fn at_client(client: &mut Client, bytes: &[u8]) -> Option<Result<(), ClientFault>> {
    if client.waiting() > 0 || bytes.len() > MAX_READ_BYTES {
        return None;
    }
    Some(client.arrive(bytes))
}

/// What the server says of a datagram; `None` where an event waits, or it is too long.
pub(crate) fn at_server(conn: &mut Conn, bytes: &[u8]) -> Option<Result<u32, ArriveFault>> {
    if conn.waiting() > 0 || bytes.len() > MAX_READ_BYTES {
        return None;
    }
    Some(conn.arrive(bytes, 32).map(|taken| taken.moves))
}

/// Whether the copy of a slot is of this kind, or there is none.
fn copies(client: &Client, slot: u8, kind: Option<u8>) -> bool {
    match client.copies().get(slot) {
        Some(copy) => kind == Some(copy.kind),
        None => kind.is_none(),
    }
}

/// Does the step; whether each end gave what it had to.
fn does(conn: &mut Conn, client: &mut Client, step: &Step) -> bool {
    match step {
        Step::Show(kind, control) => shows(conn, *kind, *control),
        Step::Hide(n) => hides(conn, *n),
        Step::Slot(n, slot) => holds(conn, *n, *slot),
        Step::Down(values, bytes) => sends(conn, values, bytes),
        Step::Came(bytes, answer) => at_client(client, bytes) == Some(*answer),
        Step::Up(bytes) => answers(client, bytes),
        Step::Went(bytes, answer) => at_server(conn, bytes) == Some(*answer),
        Step::Control(slot) => client.control() == *slot,
        Step::Copy(slot, kind) => copies(client, *slot, *kind),
    }
}

/// The place of the first step that doesn't give what it has to.
fn first_wrong(conn: &mut Conn, client: &mut Client, steps: &[Step]) -> Option<usize> {
    for (i, step) in steps.iter().enumerate() {
        if !does(conn, client, step) {
            return Some(i);
        }
    }
    None
}

/// The same for the steps of a new connection.
fn first_wrong_of_new(alloc: Global, steps: &[Step]) -> Result<Option<usize>, Fail> {
    let kinds = match_kinds();
    let mut conn = new_conn(alloc, CONFIG, &kinds)?;
    let mut client = Client::new(alloc, CONFIG, &kinds)?;
    Ok(first_wrong(&mut conn, &mut client, steps))
}

/// Block 0 alone in the server's first packet, and the client's first, which tells that it came.
pub(crate) const BLOCK: &[u8] = &[
    0x40, 0, 0, 0, 0, 0, 0, 0, 0, 0, 0, 0, 0, 0x80, 0, 0x82, 0x30, 0, 0,
];

pub(crate) const BLOCK_CAME: &[u8] = &[0x40, 0, 0, 0x40, 0, 0, 0x40, 0, 0, 0, 0, 0, 0, 0, 0, 0];

/// The client's second packet, which tells that the server's second one came.
const SECOND_CAME: &[u8] = &[0x80, 0, 0, 0x80, 0, 0, 0xc0, 0, 0, 0, 0, 0, 0, 0, 0, 0];

/// A clock in slot 0.
pub(crate) const CLOCK: &[u8] = &[
    0x80, 0, 0, 0x40, 0, 0, 0x40, 0, 0, 0, 0, 0, 0, 0, 0, 1, 0, 0x15, 0, 0, 0, 0, 0, 0,
];

/// An object is created once its block came.
const CREATED: [Step; 12] = [
    Step::Show(5, false),
    Step::Slot(0, None),
    Step::Down(&[], BLOCK),
    Step::Came(BLOCK, Ok(())),
    Step::Up(BLOCK_CAME),
    Step::Went(BLOCK_CAME, Ok(0)),
    Step::Slot(0, Some(0)),
    Step::Down(&[0, 0, 0], CLOCK),
    Step::Came(CLOCK, Ok(())),
    Step::Copy(0, Some(5)),
    Step::Copy(1, None),
    Step::Up(SECOND_CAME),
];

/// A player at (1000, 1000) in slot 0.
const PLAYER: &[u8] = &[
    0x80, 0, 0, 0x40, 0, 0, 0x40, 0, 0, 0, 0, 0, 0, 0, 0, 1, 0, 1, 0x80, 0x3e, 0x80, 0x3e, 0xf0,
    0xff, 0,
];

/// Control in slot 0, and none where the player is killed.
const LIVE: &[u8] = &[0, 1, 0, 0x80, 0, 0, 0xc0, 0, 0, 0, 0, 0, 0, 0x40, 0, 0, 0];

const KILL: &[u8] = &[
    0x40, 1, 0, 0x80, 0, 0, 0xc0, 0, 0, 0, 0, 0, 0, 0, 0, 1, 0, 0,
];

/// The create of a player is on its way, and no control slot is sent until the server knows that it came.
const CONTROLLED: [Step; 19] = [
    Step::Down(&[], BLOCK),
    Step::Came(BLOCK, Ok(())),
    Step::Up(BLOCK_CAME),
    Step::Went(BLOCK_CAME, Ok(0)),
    Step::Show(0, true),
    Step::Down(&[1000, 1000, 100, 20, 0], PLAYER),
    Step::Down(
        &[],
        &[0xc0, 0, 0, 0x40, 0, 0, 0x40, 0, 0, 0, 0, 0, 0, 0, 0, 0],
    ),
    Step::Came(PLAYER, Ok(())),
    Step::Control(None),
    Step::Up(SECOND_CAME),
    Step::Went(SECOND_CAME, Ok(0)),
    Step::Down(&[], LIVE),
    Step::Came(LIVE, Ok(())),
    Step::Control(Some(0)),
    Step::Hide(0),
    Step::Down(&[], KILL),
    Step::Came(KILL, Ok(())),
    Step::Control(None),
    Step::Copy(0, None),
];

/// Datagrams that a new end refuses, each with its reason. Of faulty bits there is one for each end: the others are those of
/// `wire_format`.
const MALFORMED: [Step; 10] = [
    Step::Went(
        &[0x40, 0, 0, 0, 0, 0, 0, 0, 0, 0, 0, 0, 0, 0x40, 8, 0],
        Err(ArriveFault::Bits(BitsFault {
            place: 110,
            cause: BitsCause::CountBits,
        })),
    ),
    Step::Went(
        &[0x44, 0, 0, 0, 0, 0, 0, 0, 0, 0, 0, 0, 0, 0, 0, 0],
        Err(ArriveFault::WrongClient { client: 1 }),
    ),
    Step::Went(
        &[0x40, 0, 0, 0x40, 1, 0, 0, 0, 0, 0, 0, 0, 0, 0, 0, 0],
        Err(ArriveFault::AckAhead {
            horizon: 5,
            last: 0,
        }),
    ),
    Step::Went(
        &[0x40, 0, 0, 0, 0, 0, 0, 0, 0, 0, 0x40, 0, 0, 0, 0, 0],
        Err(ArriveFault::MoveGap {
            first: 1,
            accepted: 0,
        }),
    ),
    Step::Went(
        &[
            0x40, 0, 0, 0, 0, 0, 0, 0, 0, 0, 0, 0, 0, 0, 0x10, 2, 1, 0, 0,
        ],
        Err(ArriveFault::EventAhead {
            number: 64,
            delivered: 0,
        }),
    ),
    Step::Came(
        &[0x40, 0, 0, 0, 0, 0, 0, 0, 0, 0, 0, 0, 0, 0, 0, 1, 0, 0x19],
        Err(ClientFault::Bits(BitsFault {
            place: 138,
            cause: BitsCause::UnknownKind,
        })),
    ),
    Step::Came(
        &[0x40, 0, 0, 0, 0, 0, 0, 0, 0, 0, 0, 0, 0, 0, 0, 1, 0, 0],
        Err(ClientFault::Ghost(GhostFault::Unknown { slot: 0 })),
    ),
    Step::Came(
        &[
            0x40, 0, 0, 0, 0, 0, 0, 0, 0, 0, 0, 0, 0, 0, 0, 1, 0, 0x15, 0, 0, 0, 0, 0, 0,
        ],
        Err(ClientFault::Ghost(GhostFault::BlockMissing { slot: 0, block: 0 })),
    ),
    Step::Came(
        &[0x40, 0, 0, 0, 0, 0, 0, 0, 0, 0, 0, 0, 0, 0x40, 0, 0, 0],
        Err(ClientFault::Ghost(GhostFault::Unknown { slot: 0 })),
    ),
    Step::Came(
        &[0x40, 0, 0, 0, 0, 0, 0, 0, 0, 0, 0x40, 0, 0, 0, 0, 0],
        Err(ClientFault::MoveAhead {
            count: 1,
            sampled: 0,
        }),
    ),
];

const ROWS: [(&str, &[Step]); 3] = [
    ("object_is_created_once_its_block_came", &CREATED),
    ("control_slot_is_sent_once_it_is_live", &CONTROLLED),
    ("malformed_datagrams", &MALFORMED),
];

#[test]
fn rows(rt: HostRuntime) -> Result<(), Fail> {
    for (name, steps) in ROWS {
        assert!(rt; first_wrong_of_new(rt.alloc(), steps)?.is_none(), "{name}");
    }
    Ok(())
}

/// What a configuration of client 0 and life 100 is refused for, by size, version and bits of a move.
const CONFIGS: [(u32, u8, u8, Option<ConfigFault>); 14] = [
    (128, 1, 10, None),
    (128, 2, 10, None),
    (128, 3, 1, None),
    (128, 3, 21, None),
    (130, 3, 22, Some(ConfigFault::Size { size: 130 })),
    (131, 3, 22, None),
    (298, 3, 64, Some(ConfigFault::Size { size: 298 })),
    (299, 3, 64, None),
    (1_201, 3, 64, Some(ConfigFault::Size { size: 1_201 })),
    (128, 2, 9, Some(ConfigFault::MoveBits { move_bits: 9 })),
    (128, 1, 11, Some(ConfigFault::MoveBits { move_bits: 11 })),
    (127, 3, 0, Some(ConfigFault::MoveBits { move_bits: 0 })),
    (128, 3, 65, Some(ConfigFault::MoveBits { move_bits: 65 })),
    (127, 4, 0, Some(ConfigFault::Version { version: 4 })),
];

#[test]
fn configurations(rt: HostRuntime) {
    for (size, version, move_bits, fault) in CONFIGS {
        assert!(rt; Config::new(0, 100, size, version, move_bits).err() == fault);
    }
}
