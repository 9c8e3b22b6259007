//! The server's end of a connection.
ghost use Rattle.std.specs.Prelude.{◌≡◌, ℕ, true, false, ◌+◌, ◌-◌, ◌*◌, ◌<◌, ◌≤◌, ◌^◌, ◌&&◌, ◌↔◌, ◌⊎◌, List, [], ◌∷◌, ◌++◌, All, IfOk, IfErr, OnOk, OnErr, IsNone, None, Ok, Err, length, map, slice_get, drop, take, count_by};
ghost use Rattle.std.specs.Option.{option_copied};
ghost use Rattle.notify_window.specs.State.{send_state};
ghost use Rattle.tn_types.specs.PacketKinds.{is_ping};
ghost use Rattle.notify_window.specs.Log.{arrival_of};
ghost use Rattle.tn_types.specs.declared.choices.Class.TheVariants.{Guaranteed, Loose};
ghost use Rattle.wire_format.specs.declared.client.ClientPacket.TheVariants as up;
ghost use Rattle.wire_format.specs.Header.{IsHeader};
ghost use Rattle.wire_format.specs.Client.{IsClientBody};
ghost use Rattle.wire_format.specs.Events.{IsEventInRange};
ghost use Rattle.stream_manager.specs.EndCalls.{whole_at};
ghost use Rattle.stream_manager.specs.Limits.{wire_of};
ghost use Rattle.bit_stream.specs.WorldMoves.{move_of};
ghost use Rattle.stream_manager.specs.Server.{Took, moves_new};
ghost use Rattle.stream_manager.specs.Stands.{ConnStandsForSome, terms_of};
ghost use Rattle.stream_manager.specs.ConnCalls.{Does, Answers, Hands, Accepts, Admits, conn_of, made_whole};

use crate::config::Config;
use crate::end::End;
use crate::fault::ArriveFault;
use crate::settling::{settle_blocks, settle_ghosts};
use bit_stream::{BitWriter, move_of_bits};
use datablocks::BlockSender;
use event_manager::{EventAhead, MAX_READY_EVENTS, PostFault};
use ghost_masks::Masks;
use move_manager::MoveReceiver;
use notify_window::{Arrival, SendState};
use quantised_fields::KindTable;
use std::alloc::Global;
use std::marker::Model;
use tn_types::{
    BlockBytes, Class, MAX_BLOCKS, MAX_LIFE, MAX_PACKET_MOVES, MAX_READ_BYTES, Move, MoveBits,
    NoMemory, PacketKind, Payload, ShortList,
};
use wire_format::{ClientBody, EventList, Header, MoveList, decode_client_into};

/// What a packet of the client brought.
#[derive(Clone, Copy, Debug, PartialEq, Eq)]
pub struct Taken {
    /// Moves newly accepted.
    pub moves: u32,
}

/// The server's end of the connection to one client.
///
/// A clause sees `ConnState`, and what it means by the list of what happened at this end.
pub struct Conn {
    pub(crate) common: End,
    pub(crate) masks: Masks,
    pub(crate) blocks: BlockSender,
    pub(crate) moves: MoveReceiver,
    pub(crate) taken: MoveList,
    // where a datagram is written; it holds the one that was made last
    pub(crate) out: BitWriter,
    // where the next packet that comes is read
    body: Box<ClientBody>,
}

// Written out, so that a function above that lets an end go calls this, and doesn't prove again how its parts are let go.
impl Drop for Conn {
    fn drop(self) {
        let Conn {
            common: _common,
            masks: _masks,
            blocks: _blocks,
            moves: _moves,
            taken: _taken,
            out: _out,
            body: _body,
        } = self;
    }
}

impl Model for Conn {
    ghost use Rattle.stream_manager.specs.Stands.{ConnState, ConnStandsForSome};

    ghost Value = { ConnState };

    ghost view = { λ c. record { common = c.common; masks = c.masks; blocks = c.blocks; moves = c.moves; taken = c.taken } };

    ghost invariant = { λ c. ConnStandsForSome (record {
      common = c.common;
      masks = c.masks;
      blocks = c.blocks;
      moves = c.moves;
      taken = c.taken;
    }) };
}

impl Conn {
    ghost use Rattle.stream_manager.specs.Limits.{IsConfig};
    ghost use Rattle.stream_manager.specs.End.{seen, dropped_of, events_answer};
    ghost use Rattle.stream_manager.specs.EndCalls.{popped};
    ghost use Rattle.stream_manager.specs.Server.{Posted, server_end, accepted_at, posted_at_server, server_state, arrive_answer, arriving, head_check, packet_check, gap_check};
    ghost use Rattle.stream_manager.specs.Stands.{ConnStandsFor};
    ghost use Rattle.stream_manager.specs.ConnCalls.{Becomes, Keeps};
    ghost use Rattle.stream_manager.specs.Faults.{events_at_server};
    ghost use Rattle.wire_format.specs.Client.{IsClient};
    ghost use Rattle.event_manager.specs.Receiving.{take_answer};

    /// The server's end of a new connection, for a match of these kinds and blocks, at most 64. It alone takes memory.
    pub fn new(
        alloc: Global,
        config: Config,
        kinds: &KindTable,
        blocks: &[BlockBytes],
    ) -> Result<Conn, NoMemory>
        requires config { IsConfig config }
        requires few { length blocks.now ≤ MAX_BLOCKS }
        ensures stands { IfOk result (λ c. ConnStandsFor c []) }
        ensures terms { IfOk result (λ c. terms_of c ≡ record { config = config; kinds = kinds.now; blocks = blocks.now }) }
        ensures empty { IfOk result (λ c. c.common.receiver.ready ≡ []) }
        ensures none_taken { IfOk result (λ c. c.taken ≡ []) }
    {
        let common = End::new(alloc, config)?;
        let masks = Masks::new(alloc, kinds)?;
        let blocks = BlockSender::new(alloc, blocks)?;
        let Ok(body) = Box::new(alloc, ClientBody::new()) else {
            return Err(NoMemory);
        };
        Ok(Conn {
            common,
            masks,
            blocks,
            moves: MoveReceiver::new(config.life),
            taken: MoveList::new(),
            out: BitWriter::new(config.size),
            body,
        })
    }

    /// What the connection was made with.
    pub fn config(&self) -> &Config
        ensures value { result.now ≡ self.now.common.config }
        ensures fits { IsConfig result.now }
    {
        self.common.config()
    }

    /// The table of kinds that the connection was made with.
    pub fn kinds(&self) -> &KindTable
        ensures { result.now ≡ self.now.masks.kinds }
    {
        self.masks.kinds()
    }

    /// What this end knows of the ghosts at its client: it answers what `show`, `hide`, `slot` and `seal` ask for.
    pub fn masks(&self) -> &Masks
        ensures { result.now ≡ self.now.masks }
    {
        &self.masks
    }

    /// The block of this number; `None` exactly where the connection was made with none of this number.
    pub fn block(&self, number: u8) -> Option<&BlockBytes>
        ensures { option_copied result ≡ slice_get self.now.blocks.blocks number }
    {
        self.blocks.get(number)
    }

    /// How many moves were accepted, which is the number of the next one.
    pub fn accepted(&self) -> u32
        ensures log { Answers self.now (λ log. length (accepted_at self.now.common.config log)) result }
        ensures fits { result ≤ MAX_LIFE }
    {
        // for its clauses
        let _life = self.common.config().life;
        self.moves.accepted()
    }

    /// Posts a guaranteed event, and gives its number, from 0 on. `Worn` comes exactly where `life` were posted, else
    /// `Full` exactly where 256 are unacknowledged; nothing changes then.
    pub fn post(&mut self, payload: Payload) -> Result<u32, PostFault>
        ensures answer { Answers self.old (posted_at_server self.old.common.config) result }
        ensures stands { OnOk result (Does self.old (Posted Guaranteed payload) self.new) }
        ensures unchanged { OnErr result (self.new ≡ self.old) }
        ensures keeps { Keeps self.old self.new }
    {
        let number = self.common.post(payload)?;
        self.masks.discard_plan();
        Ok(number)
    }

    /// Posts an unguaranteed event. It never refuses: where 64 wait, the oldest of them is dropped and given back.
    pub fn post_loose(&mut self, payload: Payload) -> Option<Payload>
        ensures dropped { Answers self.old (λ log. dropped_of (server_end log)) result }
        ensures stands { Does self.old (Posted Loose payload) self.new }
        ensures keeps { Keeps self.old self.new }
    {
        self.masks.discard_plan();
        self.common.post_loose(payload)
    }

    /// What a pack makes now (docs/connection.md, "Sending").
    pub fn pack_state(&self) -> SendState
        ensures state { result ≡ send_state self.now.common.window }
        ensures log { Answers self.now (server_state self.now.common.config) result }
    {
        self.common.state()
    }

    /// Takes bytes that came from the client, at most 65,536, where `room` further moves have a place, or refuses them by
    /// the first refusal that holds; nothing changes then (docs/connection.md, "Arriving"). No event may wait.
    pub fn arrive(&mut self, bytes: &[u8], room: u32) -> Result<Taken, ArriveFault>
        requires few { length bytes.now ≤ MAX_READ_BYTES }
        requires none_waits { self.old.common.receiver.ready ≡ [] }
        ensures answer { Answers self.old (arrive_answer self.old.common.config room bytes.now) result }
        ensures stands { Becomes self.old (arriving self.old.common.config room bytes.now) self.new }
        ensures handed { Hands self.old (arriving self.old.common.config room bytes.now) self.new }
        ensures moves { OnOk result (Accepts self.old (arriving self.old.common.config room bytes.now) self.new) }
        ensures unchanged { OnErr result (self.new ≡ self.old) }
        ensures terms { terms_of self.new ≡ terms_of self.old }
    {
        match decode_client_into(bytes, self.common.config().wire(), &mut *self.body) {
            Ok(PacketKind::Ping) => {
                let head = self.body.head;
                self.check_ping(&head)?;
                self.take_ping(&head, room);
                Ok(Taken { moves: 0 })
            }
            Ok(PacketKind::Body) => {
                self.check(&*self.body)?;
                let moves = take_body(
                    &mut self.common,
                    &mut self.masks,
                    &mut self.blocks,
                    &mut self.moves,
                    &mut self.taken,
                    &*self.body,
                    room,
                );
                Ok(Taken { moves })
            }
            Err(fault) => Err(ArriveFault::Bits(fault)),
        }
    }

    /// The first refusal of a packet by its header; nothing changes.
    fn check_head(&self, kind: PacketKind, head: &Header) -> Result<(), ArriveFault>
        ensures answer { Answers self.now (head_check self.now.common.config (seen (is_ping kind) head.now [])) result }
        ensures fresh { OnOk result (arrival_of (is_ping kind) head.now.seq self.now.common.window.horizon ≡ Arrival.Fresh) }
        ensures known { OnOk result (head.now.horizon ≤ self.now.common.window.sent) }
    {
        match self.common.check_head(kind, head) {
            Ok(()) => Ok(()),
            Err(fault) => Err(fault.at_server()),
        }
    }

    /// The first refusal of a ping; nothing changes.
    fn check_ping(&self, head: &Header) -> Result<(), ArriveFault>
        ensures answer { Answers self.now (λ log. packet_check self.now.common.config log (up.Ping head.now)) result }
        ensures fresh { OnOk result (arrival_of true head.now.seq self.now.common.window.horizon ≡ Arrival.Fresh) }
        ensures known { OnOk result (head.now.horizon ≤ self.now.common.window.sent) }
    {
        self.check_head(PacketKind::Ping, head)
    }

    /// The first refusal of a data packet; nothing changes.
    fn check(&self, body: &ClientBody) -> Result<(), ArriveFault>
        requires fits { IsClientBody (wire_of self.now.common.config) body.now }
        ensures answer { Answers self.now (λ log. packet_check self.now.common.config log (up.Body (made_whole self.now body.now))) result }
        ensures admits { OnOk result (Admits self.now (made_whole self.now body.now)) }
    {
        self.check_head(PacketKind::Body, &body.head)?;
        self.check_gap(body.first)?;
        self.check_events(&body.events)
    }

    /// Whether a packet's first move stands after the next one.
    fn check_gap(&self, first: u32) -> Result<(), ArriveFault>
        ensures answer { Answers self.now (λ log. gap_check self.now.common.config log first) result }
        ensures next { OnOk result (first ≤ self.now.moves.accepted) }
    {
        let accepted = self.moves.accepted();
        if first > accepted {
            return Err(ArriveFault::MoveGap { first, accepted });
        }
        Ok(())
    }

    /// Whether an event is too far ahead.
    fn check_events(&self, events: &EventList) -> Result<(), ArriveFault>
        requires numbers { All (IsEventInRange self.now.common.config.version) events.now }
        ensures answer { Answers self.now (λ log.
            events_at_server (events_answer (server_end log) (whole_at self.now.common events.now))) result }
        ensures near { OnOk result (take_answer self.now.common.receiver.delivered (whole_at self.now.common events.now) ≡ Ok tt) }
    {
        match self.common.check_events(events) {
            Ok(()) => Ok(()),
            Err(EventAhead { number, delivered }) => Err(ArriveFault::EventAhead {
                number,
                delivered,
            }),
        }
    }

    /// Takes a ping that nothing refuses. It brings no moves, whatever the room for them.
    fn take_ping(&mut self, head: &Header, room: u32)
        requires fits { IsHeader head.now }
        requires fresh { arrival_of true head.now.seq self.old.common.window.horizon ≡ Arrival.Fresh }
        requires known { head.now.horizon ≤ self.old.common.window.sent }
        requires none_waits { self.old.common.receiver.ready ≡ [] }
        ensures stands { Does self.old (Took (up.Ping head.now) room) self.new }
        ensures handed { Hands self.old (λ log. Took (up.Ping head.now) room ∷ log) self.new }
        ensures moves { self.new.taken ≡ [] }
        ensures terms { terms_of self.new ≡ terms_of self.old }
    {
        let notices = self.common.take(PacketKind::Ping, head, &EventList::new());
        settle_blocks(&mut self.blocks, &notices);
        self.masks.discard_plan();
        settle_ghosts(&mut self.masks, &notices);
        self.taken.clear();
    }

    /// The moves that the last packet newly brought, until the next call that takes a packet.
    pub fn taken_bits(&self) -> &[MoveBits]
        ensures { result.now ≡ self.now.taken }
    {
        self.taken.as_slice()
    }

    /// The same as moves of this project's own world, which reads the lowest ten bits of each.
    pub fn taken_moves(&self) -> ShortList<Move, MAX_PACKET_MOVES>
        ensures { result ≡ map move_of self.now.taken }
    {
        let mut moves = ShortList::new();
        'moves: for m in self.taken.as_slice() {
            moves.push(move_of_bits(*m));
        }
        moves
    }

    /// How many events wait to be handed out, at most 95.
    pub fn waiting(&self) -> u32
        ensures count { result ≡ length self.now.common.receiver.ready }
        ensures few { result ≤ MAX_READY_EVENTS }
    {
        self.common.waiting()
    }

    /// Hands out the oldest event of the client that waits; `None` exactly where none does.
    pub fn pop_event(&mut self) -> Option<(Class, Payload)>
        ensures first { result ≡ slice_get self.old.common.receiver.ready 0 }
        ensures rest { self.new ≡ record self.old { common = popped self.old.common } }
        ensures stands { Becomes self.old (λ log. log) self.new }
    {
        self.common.pop_event()
    }
}

/// Takes a data packet that nothing refuses into these parts of a server's end, and gives how many moves are newly accepted.
fn take_body(
    common: &mut End,
    masks: &mut Masks,
    blocks: &mut BlockSender,
    moves: &mut MoveReceiver,
    taken: &mut MoveList,
    body: &ClientBody,
    room: u32,
) -> u32
    requires fits { IsClientBody (wire_of common.old.config) body.now }
    requires some { ConnStandsForSome (conn_of common.old masks.old blocks.old moves.old taken.old) }
    requires admits { let old = conn_of common.old masks.old blocks.old moves.old taken.old in Admits old (made_whole old body.now) }
    requires none_waits { common.old.receiver.ready ≡ [] }
    ensures count { let old = conn_of common.old masks.old blocks.old moves.old taken.old in
        Answers old (λ log. moves_new common.old.config log room (up.Body (made_whole old body.now))) result }
    ensures stands { let old = conn_of common.old masks.old blocks.old moves.old taken.old in
        Does old (Took (up.Body (made_whole old body.now)) room) (conn_of common.new masks.new blocks.new moves.new taken.new) }
    ensures handed { let old = conn_of common.old masks.old blocks.old moves.old taken.old in
        Hands old (λ log. Took (up.Body (made_whole old body.now)) room ∷ log)
        (conn_of common.new masks.new blocks.new moves.new taken.new) }
    ensures accepts { let old = conn_of common.old masks.old blocks.old moves.old taken.old in
        Accepts old (λ log. Took (up.Body (made_whole old body.now)) room ∷ log)
        (conn_of common.new masks.new blocks.new moves.new taken.new) }
    ensures terms { terms_of (conn_of common.new masks.new blocks.new moves.new taken.new)
        ≡ terms_of (conn_of common.old masks.old blocks.old moves.old taken.old) }
{
    let notices = common.take(PacketKind::Body, &body.head, &body.events);
    settle_blocks(blocks, &notices);
    masks.discard_plan();
    settle_ghosts(masks, &notices);
    let before = moves.accepted();
    let Ok(count) = moves.take(body.first, &body.moves, room) else {
        unreachable!()
    };
    pick(taken, &body.moves, before - body.first, count);
    count
}

/// `count` of these moves from place `start` on, as far as there are so many, in place of those that were taken before.
fn pick(taken: &mut MoveList, moves: &MoveList, start: u32, count: u32)
    ensures { taken.new ≡ take count (drop start moves.now) }
{
    let (_, later) = moves.as_slice().split_at((start as usize).min(moves.len()));
    let (chosen, _) = later.split_at((count as usize).min(later.len()));
    taken.clear();
    'picking: for m in chosen {
        taken.push(*m);
    }
}
