//! What each end tells of the packets that were sent and of the one that came last, over a connection that loses some.
ghost use Rattle.std.specs.Prelude.{IsTrue, IsSome};
ghost use Rattle.ghost_masks.specs.StandsFor.{FitPlan};

use crate::ends::{at_client, at_server, hides, new_conn, plan, shows};
use notify_window::SendState;
use std::alloc::Global;
use std::marker::Brand;
use std::sync::ledger::Blank;
use std::test::Fail;
use stream_manager::{Client, ClientOut, Config, Conn, Verdicts};
use tn_types::{MAX_DISTANCE_LEVEL, Move, Op, Payload, Verdict};
use wire_format::GhostItem;
use world_rules::match_kinds;

/// What is done at both ends, and what an end has to tell.
enum Step {
    /// The server shows a clock with block 0.
    Show,
    /// The server hides this period.
    Hide(u32),
    /// This period is at this level of distance.
    Near(u32, u8),
    /// Fields of this period changed.
    Changed(u32, u32),
    /// The server sends a data packet, whose ghosts have these values, and the client takes it.
    Down(&'static [i64]),
    /// The server sends a data packet without ghosts that have values, and it is lost.
    DownLost,
    /// The client sends a data packet, and the server takes it.
    Up,
    /// The client is given a datagram of another client, which it refuses.
    Refused,
    /// The client takes up a move.
    Sample,
    /// The client posts a guaranteed event.
    Post,
    /// The client posts an unguaranteed event.
    PostLoose,
    /// The server has sent so many packets, and this is the first without a verdict.
    ConnSent(u32, u32),
    /// The same of the client.
    ClientSent(u32, u32),
    /// What the packet that the server took last judged.
    ConnVerdicts(&'static [(u32, Verdict)]),
    /// The same of the client.
    ClientVerdicts(&'static [(u32, Verdict)]),
    /// What the packet that the client took last did to slots: to which one, and to which fields where it is an update.
    Changes(&'static [(Op, u8, u32)]),
    /// The bytes of this block at the client.
    Block(u8, Option<&'static [u8]>),
    /// The number of the first move that waits, and how many wait: so many moves the server told as accepted, and so many places of 32
    /// are taken.
    Pending(u32, usize),
    /// The number of the packet that the server took last.
    ConnTook(Option<u32>),
    /// The same of the client.
    ClientTook(Option<u32>),
    /// So many places are free at the server for guaranteed and for unguaranteed events.
    ConnPlaces(u32, u32),
    /// The same of the client.
    ClientPlaces(u32, u32),
    /// The server has accepted so many moves.
    Accepted(u32),
    /// The server hands out an event.
    Handed,
    /// The server delivered so many guaranteed events, of which one at the most waits.
    Delivered(u32),
}

/// Brings a period to a level of distance; whether it could be brought there.
fn nears(conn: &mut Conn, n: u32, level: u8) -> bool {
    if level > MAX_DISTANCE_LEVEL || !conn.is_up(n) {
        return false;
    }
    conn.near(n, level);
    true
}

/// Tells of changed fields; whether the period has them.
fn changes(conn: &mut Conn, n: u32, bits: u32) -> bool {
    if !conn.is_up(n) || !conn.has_fields(n, bits) {
        return false;
    }
    conn.absorb(n, bits);
    true
}

/// Whether the server has a next data packet whose ghosts have these values.
fn plans(conn: &mut Conn, values: &[i64]) -> bool
    ensures { IsTrue result → IsSome conn.new.masks.plan × FitPlan conn.new.masks values.now }
{
    if conn.pack_state() != SendState::Room {
        return false;
    }
    plan::<Brand>(conn, Blank::new(1));
    conn.is_planned() && conn.fits(values)
}

/// Whether the server's next datagram is a data packet that the client takes.
fn goes_down(conn: &mut Conn, client: &mut Client, values: &[i64]) -> bool {
    if !plans(conn, values) {
        return false;
    }
    at_client(client, conn.seal(values)) == Some(Ok(()))
}

/// Whether the server's next datagram is a data packet; nobody takes it.
fn is_lost(conn: &mut Conn) -> bool {
    if !plans(conn, &[]) {
        return false;
    }
    let _ = conn.seal(&[]);
    true
}

/// Whether the client's next datagram is a data packet that the server takes.
fn goes_up(conn: &mut Conn, client: &mut Client) -> bool {
    match client.pack() {
        ClientOut::Body(bytes) => matches!(at_server(conn, bytes), Some(Ok(_))),
        ClientOut::Ping(_) | ClientOut::Worn { .. } => false,
    }
}

/// Whether the client posts an event of one byte.
fn posts(client: &mut Client) -> bool {
    match Payload::from_slice(b"x") {
        Some(payload) => client.post(payload).is_ok(),
        None => false,
    }
}

/// Whether the client posts an unguaranteed event of one byte, and drops none for it.
fn posts_loose(client: &mut Client) -> bool {
    match Payload::from_slice(b"y") {
        Some(payload) => client.post_loose(payload).is_none(),
        None => false,
    }
}

/// Whether these are the verdicts.
fn are(verdicts: &Verdicts, wanted: &[(u32, Verdict)]) -> bool {
    if verdicts.count() as usize != wanted.len() {
        return false;
    }
    for (place, one) in (0..verdicts.count()).zip(wanted.iter()) {
        if verdicts.get(place) != Some(*one) {
            return false;
        }
    }
    true
}

/// What an item does to which slot, and to which fields.
fn change_of(item: &GhostItem) -> (Op, u8, u32) {
    match item {
        GhostItem::Kill { slot } => (Op::Kill, *slot, 0),
        GhostItem::Create { slot, .. } => (Op::Create, *slot, 0),
        GhostItem::Update { slot, mask, .. } => (Op::Update, *slot, *mask),
    }
}

/// Whether these are the changes.
fn did(items: &[GhostItem], wanted: &[(Op, u8, u32)]) -> bool {
    if items.len() != wanted.len() {
        return false;
    }
    for (item, one) in items.iter().zip(wanted.iter()) {
        if change_of(item) != *one {
            return false;
        }
    }
    true
}

/// Whether these are the bytes of a block.
fn has_block(client: &Client, number: u8, wanted: Option<&'static [u8]>) -> bool {
    match (client.block(number), wanted) {
        (Some(bytes), Some(wanted)) => bytes.as_slice() == wanted,
        (None, None) => true,
        _ => false,
    }
}

/// Whether so many moves wait, from this one on.
fn waits(client: &Client, first: u32, count: usize) -> bool {
    let (number, moves) = client.pending();
    let places = client.move_places() as usize;
    number == first && moves.len() == count && client.accepted() == first && places + count == 32
}

/// Whether so many events were delivered; one that waits is handed out.
fn delivers(conn: &mut Conn, count: u32) -> bool {
    let _ = conn.pop_event();
    conn.delivered() == count
}

const STANDING: Move = Move {
    dx: 0,
    dy: 0,
    fire: false,
    act: false,
};

/// Does the step; whether it gave what it had to.
fn does(conn: &mut Conn, client: &mut Client, step: &Step) -> bool {
    match step {
        Step::Show => shows(conn, 5, false),
        Step::Hide(n) => hides(conn, *n),
        Step::Near(n, level) => nears(conn, *n, *level),
        Step::Changed(n, bits) => changes(conn, *n, *bits),
        Step::Down(values) => goes_down(conn, client, values),
        Step::DownLost => is_lost(conn),
        Step::Up => goes_up(conn, client),
        Step::Refused => matches!(at_client(client, OF_ANOTHER), Some(Err(_))),
        Step::Sample => client.sample(STANDING).is_ok(),
        Step::Post => posts(client),
        Step::Handed => conn.pop_event().is_some(),
        Step::PostLoose => posts_loose(client),
        _ => tells(conn, client, step),
    }
}

/// Whether an end tells what it has to.
fn tells(conn: &mut Conn, client: &Client, step: &Step) -> bool {
    match step {
        Step::ConnSent(sent, unjudged) => conn.sent() == *sent && conn.unjudged() == *unjudged,
        Step::ClientSent(sent, unjudged) => {
            client.sent() == *sent && client.unjudged() == *unjudged
        }
        Step::ConnVerdicts(wanted) => are(conn.verdicts(), wanted),
        Step::ClientVerdicts(wanted) => are(client.verdicts(), wanted),
        Step::Changes(wanted) => did(client.changes(), wanted),
        Step::Block(number, wanted) => has_block(client, *number, *wanted),
        Step::Pending(first, count) => waits(client, *first, *count),
        Step::Delivered(count) => delivers(conn, *count),
        Step::ConnTook(number) => conn.last_taken() == *number,
        Step::ClientTook(number) => client.last_taken() == *number,
        Step::ConnPlaces(events, loose) => {
            conn.event_places() == *events && conn.loose_places() == *loose
        }
        Step::ClientPlaces(events, loose) => {
            client.event_places() == *events && client.loose_places() == *loose
        }
        Step::Accepted(count) => conn.accepted() == *count,
        _ => false,
    }
}

/// A data packet that names client 1.
const OF_ANOTHER: &[u8] = &[0x44, 0, 0, 0, 0, 0, 0, 0, 0, 0, 0, 0, 0, 0, 0, 0];

/// A new connection knows nothing; the first packet brings the block, and the second a clock in slot 0.
const BEGUN: [Step; 26] = [
    Step::Show,
    Step::ConnSent(0, 1),
    Step::ClientSent(0, 1),
    Step::ConnVerdicts(&[]),
    Step::ClientVerdicts(&[]),
    Step::Changes(&[]),
    Step::Block(0, None),
    Step::ConnTook(None),
    Step::ClientTook(None),
    Step::Down(&[]),
    Step::ClientTook(Some(1)),
    Step::ConnTook(None),
    Step::Block(0, Some(b"a")),
    Step::Block(1, None),
    Step::Block(64, None),
    Step::Changes(&[]),
    Step::ClientVerdicts(&[]),
    Step::Up,
    Step::ConnVerdicts(&[(1, Verdict::Received)]),
    Step::ConnSent(1, 2),
    Step::ClientSent(1, 1),
    Step::Down(&[0, 0, 0]),
    Step::ConnTook(Some(1)),
    Step::ClientTook(Some(2)),
    Step::ClientVerdicts(&[(1, Verdict::Received)]),
    Step::Changes(&[(Op::Create, 0, 0)]),
];

/// A clock is created, which is nearer than one that is updated; then a packet is lost.
const LOST: [Step; 19] = [
    Step::Show,
    Step::Down(&[]),
    Step::Up,
    Step::Down(&[0, 0, 0]),
    Step::Up,
    Step::Show,
    Step::Near(0, 3),
    Step::Changed(0, 1),
    Step::Down(&[0, 0, 0, 1]),
    Step::Changes(&[(Op::Create, 1, 0), (Op::Update, 0, 1)]),
    Step::ClientVerdicts(&[(2, Verdict::Received)]),
    Step::DownLost,
    Step::ConnSent(4, 3),
    Step::ConnVerdicts(&[(2, Verdict::Received)]),
    Step::Down(&[]),
    Step::ClientVerdicts(&[]),
    Step::Up,
    Step::ConnVerdicts(&[
        (3, Verdict::Received),
        (4, Verdict::Lost),
        (5, Verdict::Received),
    ]),
    Step::ConnSent(5, 6),
];

/// A refused datagram leaves what the last one that was taken told. Then the clock is killed.
const KILLED: [Step; 12] = [
    Step::Show,
    Step::Down(&[]),
    Step::Up,
    Step::Down(&[0, 0, 0]),
    Step::Refused,
    Step::ClientTook(Some(2)),
    Step::ClientVerdicts(&[(1, Verdict::Received)]),
    Step::Changes(&[(Op::Create, 0, 0)]),
    Step::Up,
    Step::Hide(0),
    Step::Down(&[]),
    Step::Changes(&[(Op::Kill, 0, 0)]),
];

/// Moves wait until the server tells that it has them; an event comes, and has its place until then.
const MOVED: [Step; 23] = [
    Step::Pending(0, 0),
    Step::Sample,
    Step::Sample,
    Step::Pending(0, 2),
    Step::ClientPlaces(256, 64),
    Step::ConnPlaces(256, 64),
    Step::Post,
    Step::PostLoose,
    Step::PostLoose,
    Step::ClientPlaces(255, 62),
    Step::Accepted(0),
    Step::Up,
    Step::ClientPlaces(255, 64),
    Step::Accepted(2),
    Step::Handed,
    Step::Handed,
    Step::Delivered(1),
    Step::Pending(0, 2),
    Step::Down(&[]),
    Step::Pending(2, 0),
    Step::ClientPlaces(256, 64),
    Step::ConnPlaces(256, 64),
    Step::Changes(&[]),
];

const ROWS: [(&str, &[Step]); 4] = [
    ("begun", &BEGUN),
    ("lost", &LOST),
    ("killed", &KILLED),
    ("moved", &MOVED),
];

/// The place of the first step that doesn't give what it has to.
fn first_wrong(conn: &mut Conn, client: &mut Client, steps: &[Step]) -> Option<usize> {
    for (i, step) in steps.iter().enumerate() {
        if !does(conn, client, step) {
            return Some(i);
        }
    }
    None
}

/// The same for the steps of a new connection, in a version of the wire.
fn first_wrong_of_new(alloc: Global, version: u8, steps: &[Step]) -> Result<Option<usize>, Fail> {
    let config = Config::new(0, 100, 128, version, 10)?;
    let kinds = match_kinds();
    let mut conn = new_conn(alloc, config, &kinds)?;
    let mut client = Client::new(alloc, config, &kinds)?;
    Ok(first_wrong(&mut conn, &mut client, steps))
}

#[test]
fn asked(rt: HostRuntime) -> Result<(), Fail> {
    for (name, steps) in ROWS {
        for version in [1, 2, 3] {
            assert!(rt;
                first_wrong_of_new(rt.alloc(), version, steps)?.is_none(),
                "{name}, version {version}"
            );
        }
    }
    Ok(())
}
