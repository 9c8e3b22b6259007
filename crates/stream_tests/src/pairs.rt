//! Both ends and the network on rows that were worked out beforehand, byte for byte: what is lost, and what comes of it.
ghost use Rattle.std.specs.Prelude.{◌≡◌, ℕ, true, false, ◌<◌, ◌≤ℤ◌, List, IfOk, IsTrue, IsSome, Some, slice_get, length};
ghost use Rattle.std.specs.Option.{option_and_then};
ghost use Rattle.ghost_masks.specs.Plan.{kind_of, fields_of};
ghost use Rattle.ghost_model.specs.Legal.{IsUp};
ghost use Rattle.ghost_scope.specs.Shown.{has_control};
ghost use Rattle.stream_manager.specs.Server.{ServerEvent, ghost_log};
ghost use Rattle.stream_manager.specs.Stands.{ConnStandsFor, terms_of};
ghost use Rattle.stream_manager.specs.Limits.{IsConfig};
ghost use Rattle.pair_core.specs.Calls.{Stands};
ghost use Rattle.conn_packing.specs.Reads.{MayBeDrained};

mod low;
mod own;
mod worked;

use self::low::{EVENT, LOW_SUPERSEDED, OLD_BY_ITS_HEAD};
use self::own::{FLAGS, OWN_MOVES, WIDEST};
use self::worked::{HIDDEN, RAISED, SHARED, SUPERSEDED, TAKEN};
use bit_stream::bits_of_move;
use move_manager::MoveFault;
use notify_window::SendState;
use pair_core::{Answer, Pair, PairStep};
use quantised_fields::{FieldSpec, KindTable};
use std::alloc::Global;
use std::test::Fail;
use stream_manager::{ClientFault, Config, Conn, least_size};
use tn_types::{
    BlockBytes, Class, Drain, End, MAX_DATAGRAMS, MAX_FIELDS, MAX_SHOWS, Move, MoveBits,
    PacketKind, Payload, Read, Values,
};
use wire_format::Wire;
use world_rules::match_kinds;

/// The configuration of both ends, with the least size for how their datagrams are written.
fn config(wire: Wire) -> Result<Config, Fail>
    ensures { IfOk result IsConfig }
{
    Ok(
        Config::new(0, 100, least_size(wire), wire.version, wire.move_bits)
            .ok()
            .ok_or("no configuration")?,
    )
}

/// The values of a packet in the order in which they are asked for, of periods that were shown with these kinds.
#[derive(Drop)]
pub(crate) struct Given<'a> {
    pub(crate) kinds: KindTable,
    pub(crate) shown: &'a [u8],
    pub(crate) values: &'a [i64],
    pub(crate) asked: usize,
}

/// The field of a period.
fn spec_of(kinds: &KindTable, shown: &[u8], n: u32, field: u8) -> FieldSpec
    requires { IsSome (option_and_then (λ k. slice_get (fields_of kinds.now k) field) (slice_get shown.now n)) }
    ensures spec { Some result ≡ option_and_then (λ k. slice_get (fields_of kinds.now k) field) (slice_get shown.now n) }
    ensures range { result.lo ≤ℤ result.hi }
{
    if let Some(number) = shown.get(n as usize) {
        if let Some(kind) = kinds.kind(*number) {
            if let Some(spec) = kind.fields.as_slice().get(field as usize) {
                return *spec;
            }
        }
    }
    unreachable!()
}

/// The value, or the least of the field where the field may not have it.
fn within(spec: &FieldSpec, value: i64) -> i64
    requires { spec.now.lo ≤ℤ spec.now.hi }
    ensures least { spec.now.lo ≤ℤ result }
    ensures greatest { result ≤ℤ spec.now.hi }
{
    if spec.contains(value) { value } else { spec.lo }
}

impl<'a> Values for Given<'a> {
    ghost use Rattle.std.specs.Prelude.{◌≡◌, refl, slice_get};
    ghost use Rattle.std.specs.Option.{option_map, option_and_then};
    ghost use Rattle.ghost_masks.specs.Plan.{fields_of};
    ghost use Rattle.std.proofs.Common.{◌∙◌};

    ghost ranges = { λ v n f. option_map (λ s. (s.lo, s.hi))
        (option_and_then (λ k. slice_get (fields_of v.kinds k) f) (slice_get v.shown.now n)) };

    ghost asks = { λ a reads b. (b.kinds ≡ a.kinds) × (b.shown ≡ a.shown) };

    fn value(&mut self, n: u32, field: u8) -> Read {
        let spec = spec_of(&self.kinds, self.shown, n, field);
        let next = self.values.get(self.asked).copied().unwrap_or(spec.lo);
        self.asked = self.asked.saturating_add(1);
        Read {
            n,
            field,
            version: 0,
            value: within(&spec, next),
        }
    }

    ghost asks_none = { λ x. (refl, refl) };

    ghost asks_more = { λ x y z first later p q. (q.0 ∙ p.0, q.1 ∙ p.1) };

    ghost asks_ranges = { λ x y reads n f p j. option_map (λ s. (s.lo, s.hi))
        (option_and_then (λ k. slice_get (fields_of (p.0 j) k) f) (slice_get ((p.1 j).now) n)) };
}

const WEST: Move = Move {
    dx: -1,
    dy: 0,
    fire: false,
    act: false,
};

const EAST: Move = Move {
    dx: 1,
    dy: 0,
    fire: false,
    act: false,
};

/// What is done, and what it has to give.
enum Step {
    /// The server shows an object of this kind, with block 0, with or without control.
    Show(u8, bool),
    /// The server hides this period.
    Hide(u32),
    /// The server drains this, and sends this data packet, whose ghosts have exactly these values.
    Pack(Option<Drain>, &'static [i64], &'static [u8]),
    /// The client takes the server's datagram of this place.
    Down(u32),
    /// The client sends this data packet.
    ClientPack(&'static [u8]),
    /// The server takes the client's datagram of this place, with so many new moves.
    Up(u32, u32),
    /// The client takes up the move (-1, 0).
    West,
    /// The client takes up the move (1, 0).
    East,
    /// The client takes up a move of these bits, or refuses it.
    Sample(u64, Option<MoveFault>),
    /// The moves that the server took last have these bits.
    Took(&'static [u64]),
    /// Whether this field of the period is settled.
    Settled(u32, u8, bool),
    /// This period holds this slot.
    Slot(u32, Option<u8>),
    /// The client's control slot is this.
    Control(Option<u8>),
    /// The server posts this guaranteed event.
    Post(&'static [u8]),
    /// The client hands out this guaranteed event, and no other waits.
    Handed(&'static [u8]),
    /// The client refuses the server's datagram of this place as old.
    OldDown(u32),
    /// The copy of this slot is of this kind with these levels, if there is one.
    Copy(u8, Option<(u8, &'static [u32])>),
}

/// Whether a period may be shown so, by what has control.
fn may_control(conn: &Conn, control: bool) -> bool
    ensures { IsTrue result → control ≡ true → has_control conn.now.masks.periods ≡ false }
{
    !control || !conn.has_control()
}

/// Shows an object; whether it could be shown.
fn shows(pair: &mut Pair, kind: u8, control: bool) -> bool
    requires { Stands pair.old }
    ensures { Stands pair.new }
{
    let conn = pair.conn();
    if !conn.has_kind(kind) || conn.is_full() || conn.shows() == MAX_SHOWS {
        return false;
    }
    if !may_control(conn, control) {
        return false;
    }
    let step = PairStep::Show {
        kind,
        block: 0,
        level: 0,
        control,
    };
    matches!(pair.step(&step), Answer::Period { .. })
}

/// Hides a period; whether it was shown.
fn hides(pair: &mut Pair, n: u32) -> bool
    requires { Stands pair.old }
    ensures { Stands pair.new }
{
    if !pair.conn().is_up(n) {
        return false;
    }
    matches!(pair.step(&PairStep::Hide { n }), Answer::Done)
}

/// Whether the period, where it is up, was shown with the kind that is listed for it.
fn is_listed(conn: &Conn, shown: &[u8], n: u32) -> bool
    ensures { IsTrue result → (log : List ServerEvent) → ConnStandsFor conn.now log → IsUp (ghost_log log) n
        → slice_get shown.now n ≡ Some (kind_of (ghost_log log) n) }
{
    if !conn.is_up(n) {
        return true;
    }
    if !conn.is_alive(n) {
        return false;
    }
    match shown.get(n as usize) {
        Some(kind) => *kind == conn.kind(n),
        None => false,
    }
}

/// Whether each period that is up was shown with the kind that is listed for it.
pub(crate) fn are_listed(conn: &Conn, shown: &[u8]) -> bool
    ensures { IsTrue result → (log : List ServerEvent) → ConnStandsFor conn.now log → (n : ℕ) → IsUp (ghost_log log) n
        → slice_get shown.now n ≡ Some (kind_of (ghost_log log) n) }
{
    'periods: for n in 0..conn.shows() {
        if !is_listed(conn, shown, n) {
            return false;
        }
    }
    true
}

/// Whether this may be drained of a period.
fn may_be_drained(conn: &Conn, drain: Drain) -> bool
    ensures { IsTrue result → (log : List ServerEvent) → ConnStandsFor conn.now log
        → MayBeDrained (terms_of conn.now) (ghost_log log) drain }
{
    conn.is_up(drain.n) && conn.is_alive(drain.n) && conn.has_fields(drain.n, drain.bits)
}

/// Whether the server sent fewer datagrams than may be.
fn server_has_place(pair: &Pair) -> bool
    ensures { IsTrue result → pair.now.sent < MAX_DATAGRAMS }
{
    pair.sent() < MAX_DATAGRAMS
}

/// Whether the client sent fewer datagrams than may be.
fn client_has_place(pair: &Pair) -> bool
    ensures { IsTrue result → length pair.now.up < MAX_DATAGRAMS }
{
    pair.datagram(End::Client, MAX_DATAGRAMS - 1).is_none()
}

/// Whether a data packet with these bytes was made by the end.
fn made(pair: &Pair, by: End, answer: Answer, bytes: &[u8]) -> bool {
    match answer {
        Answer::Packed {
            kind: PacketKind::Body,
            place,
        } => pair.datagram(by, place) == Some(bytes),
        _ => false,
    }
}

/// Whether the server's next datagram is a data packet with these bytes, where its ghosts have exactly these values.
fn packs(
    alloc: Global,
    pair: &mut Pair,
    shown: &[u8],
    drain: Option<Drain>,
    values: &[i64],
    bytes: &[u8],
) -> bool
    requires { Stands pair.old }
    ensures { Stands pair.new }
{
    if pair.prepare(alloc).is_err() {
        return false;
    }
    if !server_has_place(pair) || !are_listed(pair.conn(), shown) {
        return false;
    }
    let mut given = Given {
        kinds: pair.conn().kinds().copy(),
        shown,
        values,
        asked: 0,
    };
    let Some(drain) = drain else {
        let answer = pair.pack(&[], &mut given);
        return given.asked == values.len() && made(pair, End::Server, answer, bytes);
    };
    if pair.conn().pack_state() != SendState::Room || !may_be_drained(pair.conn(), drain) {
        return false;
    }
    let answer = pair.pack(&[drain], &mut given);
    given.asked == values.len() && made(pair, End::Server, answer, bytes)
}

/// Whether the client's next datagram is a data packet with these bytes.
fn client_packs(alloc: Global, pair: &mut Pair, bytes: &[u8]) -> bool
    requires { Stands pair.old }
    ensures { Stands pair.new }
{
    if pair.prepare(alloc).is_err() || !client_has_place(pair) {
        return false;
    }
    let answer = pair.step(&PairStep::ClientPack);
    made(pair, End::Client, answer, bytes)
}

/// Whether the client takes the server's datagram of this place.
fn comes_down(pair: &mut Pair, k: u32) -> bool
    requires { Stands pair.old }
    ensures { Stands pair.new }
{
    if pair.client_waiting() > 0 || !pair.keeps_all() {
        return false;
    }
    matches!(pair.step(&PairStep::Down { k }), Answer::Came { .. })
}

/// How many new moves the client's datagram of this place brings; `None` where it is refused.
fn comes_up(pair: &mut Pair, k: u32) -> Option<u32>
    requires { Stands pair.old }
    ensures { Stands pair.new }
{
    if pair.server_waiting() > 0 {
        return None;
    }
    match pair.step(&PairStep::Up { k, room: 32 }) {
        Answer::Came { moves } => Some(moves),
        _ => None,
    }
}

/// Whether the client refuses the server's datagram of this place as old.
fn is_old(pair: &mut Pair, k: u32) -> bool
    requires { Stands pair.old }
    ensures { Stands pair.new }
{
    if pair.client_waiting() > 0 || !pair.keeps_all() {
        return false;
    }
    matches!(
        pair.step(&PairStep::Down { k }),
        Answer::ClientRefused(ClientFault::Old { .. })
    )
}

/// Whether the server may post the event.
fn posts(pair: &mut Pair, bytes: &[u8]) -> bool
    requires { Stands pair.old }
    ensures { Stands pair.new }
{
    let Some(payload) = Payload::from_slice(bytes) else {
        return false;
    };
    let class = Class::Guaranteed;
    matches!(
        pair.step(&PairStep::Post { class, payload }),
        Answer::Posted { .. }
    )
}

/// Whether the client hands out this event, and no other waits.
fn hands(pair: &mut Pair, bytes: &[u8]) -> bool
    requires { Stands pair.old }
    ensures { Stands pair.new }
{
    match pair.pop_client_event() {
        Some((Class::Guaranteed, payload)) => {
            payload.as_slice() == bytes && pair.client_waiting() == 0
        }
        _ => false,
    }
}

/// Whether the client takes up the move.
fn moves(pair: &mut Pair, m: Move) -> bool
    requires { Stands pair.old }
    ensures { Stands pair.new }
{
    let m = bits_of_move(&m);
    matches!(pair.step(&PairStep::Sample { m }), Answer::Sampled { .. })
}

/// What the client says of a move of these bits: `None` where it is taken up.
fn samples(pair: &mut Pair, bits: u64) -> Option<MoveFault>
    requires { Stands pair.old }
    ensures { Stands pair.new }
{
    let m = MoveBits { bits };
    match pair.step(&PairStep::Sample { m }) {
        Answer::MoveRefused(fault) => Some(fault),
        _ => None,
    }
}

/// Whether these are the moves that the last datagram newly brought to the server.
fn took(conn: &Conn, wanted: &[u64]) -> bool {
    let moves = conn.taken_bits();
    if moves.len() != wanted.len() {
        return false;
    }
    for (m, bits) in moves.iter().zip(wanted.iter()) {
        if m.bits != *bits {
            return false;
        }
    }
    true
}

/// Whether the field is settled; `None` where there is none.
fn is_settled(conn: &Conn, n: u32, field: u8) -> Option<bool> {
    if n < conn.shows() && usize::from(field) < MAX_FIELDS {
        Some(conn.settled(n, field))
    } else {
        None
    }
}

/// Whether the period was shown and holds this slot.
fn holds(conn: &Conn, n: u32, slot: Option<u8>) -> bool {
    n < conn.shows() && conn.slot(n) == slot
}

/// Whether the copy of a slot is of this kind with these levels, or there is none.
fn copies(pair: &Pair, slot: u8, wanted: Option<(u8, &'static [u32])>) -> bool {
    match (pair.client().copies().get(slot), wanted) {
        (Some(copy), Some((kind, levels))) => copy.kind == kind && copy.levels.as_slice() == levels,
        (None, None) => true,
        _ => false,
    }
}

/// Does the step; whether it gave what it had to.
fn does(alloc: Global, pair: &mut Pair, shown: &[u8], step: &Step) -> bool
    requires { Stands pair.old }
    ensures { Stands pair.new }
{
    match step {
        Step::Show(kind, control) => shows(pair, *kind, *control),
        Step::Hide(n) => hides(pair, *n),
        Step::Pack(drain, values, bytes) => packs(alloc, pair, shown, *drain, values, bytes),
        Step::Down(k) => comes_down(pair, *k),
        Step::ClientPack(bytes) => client_packs(alloc, pair, bytes),
        Step::Up(k, moves) => comes_up(pair, *k) == Some(*moves),
        Step::West => moves(pair, WEST),
        Step::East => moves(pair, EAST),
        Step::Sample(bits, answer) => samples(pair, *bits) == *answer,
        Step::Took(wanted) => took(pair.conn(), wanted),
        Step::Settled(n, field, settled) => is_settled(pair.conn(), *n, *field) == Some(*settled),
        Step::Slot(n, slot) => holds(pair.conn(), *n, *slot),
        Step::Control(slot) => pair.client().control() == *slot,
        Step::Post(bytes) => posts(pair, bytes),
        Step::Handed(bytes) => hands(pair, bytes),
        Step::OldDown(k) => is_old(pair, *k),
        Step::Copy(slot, wanted) => copies(pair, *slot, *wanted),
    }
}

/// The place of the first step that doesn't give what it has to. Periods are shown with these kinds.
fn first_wrong(alloc: Global, pair: &mut Pair, shown: &[u8], steps: &[Step]) -> Option<usize>
    requires { Stands pair.old }
{
    'steps: for (i, step) in steps.iter().enumerate() {
        if !does(alloc, pair, shown, step) {
            return Some(i);
        }
    }
    None
}

/// The same for the steps of a new pair, in a match with one block, the byte `a`.
fn first_wrong_of_new(
    alloc: Global,
    wire: Wire,
    shown: &[u8],
    steps: &[Step],
) -> Result<Option<usize>, Fail> {
    let kinds = match_kinds();
    let blocks = [BlockBytes::from_slice(b"a").ok_or("too long")?];
    let mut pair = Pair::new(alloc, config(wire)?, &kinds, &blocks)?;
    Ok(first_wrong(alloc, &mut pair, shown, steps))
}

const PLAYER_AND_MINES: [u8; 21] = [
    0, 2, 2, 2, 2, 2, 2, 2, 2, 2, 2, 2, 2, 2, 2, 2, 2, 2, 2, 2, 2,
];

/// Each row by its name, with the version of its datagrams, the bits of a move and the kinds that its objects are shown with.
const ROWS: [(&str, u8, u8, &[u8], &[Step]); 14] = [
    ("lost_update_superseded", 1, 10, &[5], &SUPERSEDED),
    ("lost_update_raised_again", 1, 10, &[5], &RAISED),
    ("slot_taken_until_kill_received", 1, 10, &[0, 2, 2], &TAKEN),
    ("hidden_before_create_received", 1, 10, &[0, 2], &HIDDEN),
    ("priority_and_share", 1, 10, &PLAYER_AND_MINES, &SHARED),
    ("event_version_2", 2, 10, &[], &EVENT),
    (
        "lost_update_superseded_version_2",
        2,
        10,
        &[5],
        &LOW_SUPERSEDED,
    ),
    (
        "old_before_the_rest_version_2",
        2,
        10,
        &[0, 2, 2],
        &OLD_BY_ITS_HEAD,
    ),
    ("event_version_3", 3, 10, &[], &EVENT),
    (
        "lost_update_superseded_version_3",
        3,
        10,
        &[5],
        &LOW_SUPERSEDED,
    ),
    (
        "old_before_the_rest_version_3",
        3,
        10,
        &[0, 2, 2],
        &OLD_BY_ITS_HEAD,
    ),
    ("moves_of_40_bits", 3, 40, &[], &OWN_MOVES),
    ("moves_of_a_bit", 3, 1, &[], &FLAGS),
    ("widest_moves", 3, 64, &[], &WIDEST),
];

#[test]
fn rows(rt: HostRuntime) -> Result<(), Fail> {
    for (name, version, move_bits, shown, steps) in ROWS {
        let wire = Wire { version, move_bits };
        assert!(rt;
            first_wrong_of_new(rt.alloc(), wire, shown, steps)?.is_none(),
            "{name}"
        );
    }
    Ok(())
}
