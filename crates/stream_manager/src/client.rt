//! The client's end of a connection.
ghost use Rattle.std.specs.Prelude.{◌≡◌, ℕ, true, ◌+◌, ◌-◌, ◌*◌, ◌<◌, ◌≤◌, ◌^◌, List, [], ◌∷◌, ◌++◌, All, IfOk, IfErr, OnOk, OnErr, Ok, Err, None, length, slice_get, drop};
ghost use Rattle.std.specs.Borrow.{sem};
ghost use Rattle.std.specs.Io.BufRead.{Rests};
ghost use Rattle.notify_window.specs.State.{send_state};
ghost use Rattle.tn_types.specs.PacketKinds.{is_ping};
ghost use Rattle.notify_window.specs.Log.{arrival_of};
ghost use Rattle.tn_types.specs.declared.choices.Class.TheVariants.{Guaranteed, Loose};
ghost use Rattle.wire_format.specs.declared.server.ServerPacket.TheVariants as down;
ghost use Rattle.wire_format.specs.Header.{IsHeader};
ghost use Rattle.wire_format.specs.declared.ghosts.GhostItem.{GhostItem as OneGhost};
ghost use Rattle.wire_format.specs.Events.{IsEventInRange};
ghost use Rattle.bit_stream.specs.WorldMoves.{bits_of};
ghost use Rattle.ghost_client.specs.StandsFor.{StandsFor as CopiesStandFor};
ghost use Rattle.stream_manager.specs.Client.{ClientEvent as OneEvent, ghosts_came, kind_at};
ghost use Rattle.stream_manager.specs.EndCalls.{whole_at};
ghost use Rattle.wire_format.specs.Reading.{IsWhole};
ghost use Rattle.wire_format.specs.Server.{IsServer, IsServerBody, read_server, server_meant};
ghost use Rattle.stream_manager.specs.ClientCalls.{AdmitsDown, TakesDown, client_of, made_whole};

use crate::arriving::{check_control, check_same, take_blocks};
use crate::config::Config;
use crate::end::End;
use crate::fault::ClientFault;
use crate::taking::take_down;
use bit_stream::{BitWriter, bits_of_move};
use datablocks::BlockReceiver;
use event_manager::{EventAhead, MAX_READY_EVENTS, PostFault};
use ghost_client::Copies;
use move_manager::{MoveFault, MoveSender};
use notify_window::{Arrival, SendState};
use quantised_fields::KindTable;
use std::alloc::Global;
use std::marker::Model;
use tn_types::{Class, MAX_READ_BYTES, Move, MoveBits, NoMemory, PacketKind, Payload};
use wire_format::{
    BitsFault, CLIENT_FIXED_BITS, EventList, Header, ServerBody, decode_server_into, move_width,
    put_client_front, put_moves, put_ping, server_head,
};

/// What a client's pack makes: the bytes of a datagram, or nothing.
#[derive(Drop)]
pub enum ClientOut<'a> {
    /// A data packet.
    Body(&'a [u8]),
    /// A ping: 32 packets are unjudged.
    Ping(&'a [u8]),
    /// Nothing: `life` data packets were sent.
    Worn { life: u32 },
}

/// A client's end of its connection to the server.
///
/// A clause sees `ClientState`, and what it means by the list of what happened at this end.
pub struct Client {
    pub(crate) common: End,
    pub(crate) moves: MoveSender,
    pub(crate) blocks: BlockReceiver,
    copies: Copies,
    control: Option<u8>,
    // where a datagram is written; it holds the one that was made last
    out: BitWriter,
    // where the next packet that comes is read
    body: Box<ServerBody>,
    // the packet that was taken last
    pub(crate) took: Box<ServerBody>,
}

// Written out, so that a function above that lets an end go calls this, and doesn't prove again how its parts are let go.
impl Drop for Client {
    fn drop(self) {
        let Client {
            common: _common,
            moves: _moves,
            blocks: _blocks,
            copies: _copies,
            control: _control,
            out: _out,
            body: _body,
            took: _took,
        } = self;
    }
}

impl Model for Client {
    ghost use Rattle.std.specs.Prelude.{◌≡◌};
    ghost use Rattle.stream_manager.specs.Limits.{wire_of};
    ghost use Rattle.stream_manager.specs.Stands.{ClientState};

    ghost Value = { ClientState };

    ghost view = { λ c. record {
      common = c.common;
      moves = c.moves;
      blocks = c.blocks;
      copies = c.copies;
      control = c.control;
      changes = c.took.value.ghosts;
    } };

    ghost invariant = { λ c. (c.moves.life ≡ c.common.config.life) × (c.moves.wire ≡ wire_of c.common.config) };
}

impl Client {
    ghost use Rattle.stream_manager.specs.Limits.{IsConfig};
    ghost use Rattle.stream_manager.specs.End.{seen, dropped_of, came_of, client_or_old, events_answer};
    ghost use Rattle.stream_manager.specs.EndCalls.{popped};
    ghost use Rattle.event_manager.specs.Receiving.{run_of, take_answer};
    ghost use Rattle.stream_manager.specs.Client.{ClientEvent, Posted, Sampled, Packed, Took, client_end, sampled_at, control_at, posted_at_client, sampled_answer, client_body, client_bytes, client_ping_bytes, arrive_answer, arriving, whole_answer, took_at_client, head_first, head_check, packet_check, moves_check, ghosts_check};
    ghost use Rattle.stream_manager.specs.Stands.{ClientStandsFor};
    ghost use Rattle.stream_manager.specs.ClientCalls.{Does, Answers, Becomes, Hands, KeepsTerms, Keeps, ClientSealed, ClientPinging, ClientPacked, IsOut, IsShort, FitGhosts};
    ghost use Rattle.stream_manager.specs.Faults.{head_at_client, events_at_client, without_packet};
    ghost use Rattle.stream_manager.specs.contracts.client.Client.{the_row};

    /// A client's end of a new connection, in a match of these kinds. It alone takes memory.
    pub fn new(alloc: Global, config: Config, kinds: &KindTable) -> Result<Client, NoMemory>
        requires { IsConfig config }
        ensures stands { IfOk result (λ c. ClientStandsFor c []) }
        ensures config { IfOk result (λ c. c.common.config ≡ config) }
        ensures kinds { IfOk result (λ c. c.copies.kinds ≡ kinds.now) }
        ensures empty { IfOk result (λ c. c.common.receiver.ready ≡ []) }
    {
        let common = End::new(alloc, config)?;
        let blocks = BlockReceiver::new(alloc)?;
        let copies = Copies::new(alloc, kinds)?;
        let Ok(body) = Box::new(alloc, ServerBody::new()) else {
            return Err(NoMemory);
        };
        let Ok(took) = Box::new(alloc, ServerBody::new()) else {
            return Err(NoMemory);
        };
        Ok(Client {
            common,
            moves: MoveSender::new(config.wire(), config.life),
            blocks,
            copies,
            control: None,
            out: BitWriter::new(config.size),
            body,
            took,
        })
    }

    /// What the connection was made with.
    pub fn config(&self) -> &Config
        ensures value { result.now ≡ self.now.common.config }
        ensures fits { IsConfig result.now }
    {
        self.common.config()
    }

    /// The copies of the objects that are shown to this client.
    pub fn copies(&self) -> &Copies
        ensures { result.now ≡ self.now.copies }
    {
        &self.copies
    }

    /// The slot of the client's own player, as the last data packet told it; `None` exactly where that packet has none or
    /// no data packet came.
    pub fn control(&self) -> Option<u8>
        ensures { Answers self.now control_at result }
    {
        self.control
    }

    /// How many moves were sampled so far.
    pub fn sampled(&self) -> u32
        ensures { Answers self.now (λ log. length (sampled_at log)) result }
    {
        self.moves.sampled()
    }

    /// Posts a guaranteed event, and gives its number, from 0 on. `Worn` comes exactly where `life` were posted, else
    /// `Full` exactly where 256 are unacknowledged; nothing changes then.
    pub fn post(&mut self, payload: Payload) -> Result<u32, PostFault>
        ensures answer { Answers self.old (posted_at_client self.old.common.config) result }
        ensures stands { OnOk result (Does self.old (Posted Guaranteed payload) self.new) }
        ensures unchanged { OnErr result (self.new ≡ self.old) }
        ensures keeps { Keeps self.old self.new }
    {
        self.common.post(payload)
    }

    /// Posts an unguaranteed event. It never refuses: where 64 wait, the oldest of them is dropped and given back.
    pub fn post_loose(&mut self, payload: Payload) -> Option<Payload>
        ensures dropped { Answers self.old (λ log. dropped_of (client_end log)) result }
        ensures stands { Does self.old (Posted Loose payload) self.new }
        ensures keeps { Keeps self.old self.new }
    {
        self.common.post_loose(payload)
    }

    /// Takes up a move of the player, and gives its number, from 0 on. `TooWide` comes exactly where a bit is set that the
    /// connection's moves don't have, else `Worn` exactly where `life` were sampled, else `Full` exactly where the server may
    /// lack 32; nothing changes then.
    pub fn sample_bits(&mut self, m: MoveBits) -> Result<u32, MoveFault>
        ensures answer { Answers self.old (sampled_answer self.old.common.config m) result }
        ensures stands { OnOk result (Does self.old (Sampled m) self.new) }
        ensures unchanged { OnErr result (self.new ≡ self.old) }
        ensures keeps { Keeps self.old self.new }
    {
        self.moves.sample_bits(m)
    }

    /// Takes up a move of this project's own world, as the number of ten bits that it travels as.
    pub fn sample(&mut self, m: Move) -> Result<u32, MoveFault>
        ensures answer { Answers self.old (sampled_answer self.old.common.config (bits_of m)) result }
        ensures stands { OnOk result (Does self.old (Sampled (bits_of m)) self.new) }
        ensures unchanged { OnErr result (self.new ≡ self.old) }
        ensures keeps { Keeps self.old self.new }
    {
        self.sample_bits(bits_of_move(&m))
    }

    /// Makes the next datagram (docs/connection.md, "Sending"), and lends its bytes.
    pub fn pack(&mut self) -> ClientOut<'_>
        ensures made { (log : List ClientEvent) → ClientStandsFor self.old log → IsOut self.old.common.config log result }
        ensures few { IsShort self.old.common.config result }
        ensures* after { sem 𝓛 (Rests the_row self.entry (ClientPacked self.old)) }
    {
        let life = self.common.config().life;
        match self.common.state() {
            SendState::Held => ClientOut::Ping(self.ping()),
            SendState::Worn => ClientOut::Worn { life },
            SendState::Room => ClientOut::Body(self.seal()),
        }
    }

    /// Makes the next data packet, and lends its bytes.
    fn seal(&mut self) -> &[u8]
        requires { send_state self.old.common.window ≡ SendState.Room }
        ensures bytes { Answers self.old (client_bytes self.old.common.config) result.now }
        ensures few { length result.now ≤ self.old.common.config.size }
        ensures* after { sem 𝓛 (Rests the_row self.entry (ClientSealed self.old)) }
    {
        let config = *self.common.config();
        let wire = config.wire();
        let head = self.common.data_head();
        let (first, moves) = self.moves.pending();
        let used = move_width(wire) * moves.len() as u32;
        self.out.begin(config.size);
        put_client_front(&mut self.out, &head, first);
        put_moves(&mut self.out, wire, moves);
        self.common
            .pack(8 * config.size - CLIENT_FIXED_BITS - used, &mut self.out);
        self.out.end();
        self.out.bytes()
    }

    /// Makes a ping, and lends its bytes.
    fn ping(&mut self) -> &[u8]
        requires { send_state self.old.common.window ≡ SendState.Held }
        ensures bytes { Answers self.old (client_ping_bytes self.old.common.config) result.now }
        ensures few { length result.now ≤ self.old.common.config.size }
        ensures* after { sem 𝓛 (Rests the_row self.entry (ClientPinging self.old)) }
    {
        let head = self.common.pinged();
        self.out.begin(self.common.config().size);
        put_ping(&mut self.out, &head);
        self.out.end();
        self.out.bytes()
    }

    /// Takes bytes that came from the server, at most 65,536, or refuses them by the first refusal that holds; nothing
    /// changes then (docs/connection.md, "Arriving"). No event may wait.
    pub fn arrive(&mut self, bytes: &[u8]) -> Result<(), ClientFault>
        requires few { length bytes.now ≤ MAX_READ_BYTES }
        requires none_waits { self.old.common.receiver.ready ≡ [] }
        ensures answer { Answers self.old (arrive_answer self.old.common.config self.old.copies.kinds bytes.now) result }
        ensures stands { Becomes self.old (arriving self.old.common.config self.old.copies.kinds bytes.now) self.new }
        ensures handed { Hands self.old (arriving self.old.common.config self.old.copies.kinds bytes.now) self.new }
        ensures unchanged { OnErr result (self.new ≡ self.old) }
        ensures terms { KeepsTerms self.old self.new }
    {
        self.look_first(bytes)?;
        self.arrive_whole(bytes)
    }

    /// Takes bytes by the whole of them, or refuses them by the first refusal that holds; nothing changes then.
    fn arrive_whole(&mut self, bytes: &[u8]) -> Result<(), ClientFault>
        requires few { length bytes.now ≤ MAX_READ_BYTES }
        requires none_waits { self.old.common.receiver.ready ≡ [] }
        ensures answer { Answers self.old (λ log.
            without_packet (whole_answer self.old.common.config self.old.copies.kinds log bytes.now)) result }
        ensures stands { Becomes self.old (λ log.
            took_at_client log (whole_answer self.old.common.config self.old.copies.kinds log bytes.now)) self.new }
        ensures handed { Hands self.old (λ log.
            took_at_client log (whole_answer self.old.common.config self.old.copies.kinds log bytes.now)) self.new }
        ensures unchanged { OnErr result (self.new ≡ self.old) }
        ensures terms { KeepsTerms self.old self.new }
    {
        match read(
            bytes,
            self.common.config().version,
            &self.copies,
            &mut *self.body,
        ) {
            Ok(PacketKind::Ping) => {
                let head = self.body.head;
                self.check_ping(&head)?;
                self.take_ping(&head);
                Ok(())
            }
            Ok(PacketKind::Body) => {
                self.check(&*self.body)?;
                take_down(
                    &mut self.common,
                    &mut self.moves,
                    &mut self.blocks,
                    &mut self.copies,
                    &mut self.control,
                    &mut self.body,
                    &mut self.took,
                );
                Ok(())
            }
            Err(fault) => Err(ClientFault::Bits(fault)),
        }
    }

    /// In versions 2 and 3 what the header of these bytes says of whether to read the rest; nothing changes.
    fn look_first(&self, bytes: &[u8]) -> Result<(), ClientFault>
        requires few { length bytes.now ≤ MAX_READ_BYTES }
        ensures answer { Answers self.now (λ log. head_first self.now.common.config log bytes.now) result }
    {
        if self.common.config().version < 2 {
            return Ok(());
        }
        match server_head(bytes) {
            Ok((kind, head)) => self.client_or_old(kind, &head),
            Err(fault) => Err(ClientFault::Bits(fault)),
        }
    }

    /// Whether a packet is of another client, or a data packet that is old; nothing changes.
    fn client_or_old(&self, kind: PacketKind, head: &Header) -> Result<(), ClientFault>
        ensures answer { Answers self.now (λ log. head_at_client
            (client_or_old self.now.common.config.client (client_end log) (seen (is_ping kind) head.now []))) result }
    {
        match self.common.client_or_old(kind, head) {
            Ok(()) => Ok(()),
            Err(fault) => Err(fault.at_client()),
        }
    }

    /// The first refusal of a packet by its header; nothing changes.
    fn check_head(&self, kind: PacketKind, head: &Header) -> Result<(), ClientFault>
        ensures answer { Answers self.now (head_check self.now.common.config (seen (is_ping kind) head.now [])) result }
        ensures fresh { OnOk result (arrival_of (is_ping kind) head.now.seq self.now.common.window.horizon ≡ Arrival.Fresh) }
        ensures known { OnOk result (head.now.horizon ≤ self.now.common.window.sent) }
    {
        match self.common.check_head(kind, head) {
            Ok(()) => Ok(()),
            Err(fault) => Err(fault.at_client()),
        }
    }

    /// The first refusal of a ping; nothing changes.
    fn check_ping(&self, head: &Header) -> Result<(), ClientFault>
        ensures answer { Answers self.now (λ log. packet_check self.now.common.config log (down.Ping head.now)) result }
        ensures fresh { OnOk result (arrival_of true head.now.seq self.now.common.window.horizon ≡ Arrival.Fresh) }
        ensures known { OnOk result (head.now.horizon ≤ self.now.common.window.sent) }
    {
        self.check_head(PacketKind::Ping, head)
    }

    /// The first refusal of a data packet; nothing changes.
    fn check(&self, body: &ServerBody) -> Result<(), ClientFault>
        requires fits { IsServerBody self.now.common.config.version self.now.copies.kinds body.now }
        ensures answer { Answers self.now (λ log.
            packet_check self.now.common.config log (down.Body (made_whole self.now body.now))) result }
        ensures admits { OnOk result (AdmitsDown self.now (made_whole self.now body.now)) }
    {
        self.check_head(PacketKind::Body, &body.head)?;
        self.check_moves(body.accepted)?;
        check_same(&self.blocks, &body.blocks)?;
        self.check_events(&body.events)?;
        self.check_ghosts(body)
    }

    /// Whether the server tells of more moves than were sampled.
    fn check_moves(&self, count: u32) -> Result<(), ClientFault>
        ensures answer { Answers self.now (λ log. moves_check log count) result }
        ensures known { OnOk result (count ≤ self.now.moves.first + length self.now.moves.waiting) }
    {
        let sampled = self.moves.sampled();
        if count > sampled {
            return Err(ClientFault::MoveAhead { count, sampled });
        }
        Ok(())
    }

    /// Whether an event is too far ahead.
    fn check_events(&self, events: &EventList) -> Result<(), ClientFault>
        requires numbers { All (IsEventInRange self.now.common.config.version) events.now }
        ensures answer { Answers self.now (λ log.
            events_at_client (events_answer (client_end log) (whole_at self.now.common events.now))) result }
        ensures near { OnOk result (take_answer self.now.common.receiver.delivered (whole_at self.now.common events.now) ≡ Ok tt) }
    {
        match self.common.check_events(events) {
            Ok(()) => Ok(()),
            Err(EventAhead { number, delivered }) => Err(ClientFault::EventAhead {
                number,
                delivered,
            }),
        }
    }

    /// The first fault of the ghosts of a packet, or of its control slot.
    fn check_ghosts(&self, body: &ServerBody) -> Result<(), ClientFault>
        requires fits { IsServerBody self.now.common.config.version self.now.copies.kinds body.now }
        ensures answer { Answers self.now (λ log. ghosts_check log body.now) result }
        ensures fit { OnOk result (FitGhosts self.now body.now) }
    {
        let held = self.blocks.held_after(&body.blocks);
        if let Err(fault) = self.copies.check(&body.ghosts, held) {
            return Err(ClientFault::Ghost(fault));
        }
        check_control(&self.copies, body.control)
    }

    /// Takes a ping that nothing refuses.
    fn take_ping(&mut self, head: &Header)
        requires fits { IsHeader head.now }
        requires fresh { arrival_of true head.now.seq self.old.common.window.horizon ≡ Arrival.Fresh }
        requires known { head.now.horizon ≤ self.old.common.window.sent }
        requires none_waits { self.old.common.receiver.ready ≡ [] }
        ensures stands { Does self.old (Took (down.Ping head.now)) self.new }
        ensures handed { Hands self.old (λ log. Took (down.Ping head.now) ∷ log) self.new }
        ensures terms { KeepsTerms self.old self.new }
    {
        let _ = self.common.take(PacketKind::Ping, head, &EventList::new());
        self.took.ghosts.clear();
    }

    /// How many guaranteed events were delivered, those that wait included.
    pub fn delivered(&self) -> u32
        ensures { Answers self.now (λ log. run_of (came_of (client_end log))) result }
    {
        self.common.delivered()
    }

    /// How many events wait to be handed out, at most 95.
    pub fn waiting(&self) -> u32
        ensures count { result ≡ length self.now.common.receiver.ready }
        ensures few { result ≤ MAX_READY_EVENTS }
    {
        self.common.waiting()
    }

    /// Hands out the oldest event of the server that waits; `None` exactly where none does.
    pub fn pop_event(&mut self) -> Option<(Class, Payload)>
        ensures first { result ≡ slice_get self.old.common.receiver.ready 0 }
        ensures rest { self.new ≡ record self.old { common = popped self.old.common } }
        ensures stands { Becomes self.old (λ log. log) self.new }
    {
        self.common.pop_event()
    }
}

/// Reads a packet of the server into a body, as `decode_server_into` does, by what the copies are.
fn read(
    bytes: &[u8],
    version: u8,
    copies: &Copies,
    body: &mut ServerBody,
) -> Result<PacketKind, BitsFault>
    requires few { length bytes.now ≤ MAX_READ_BYTES }
    ensures found { IfOk result (λ kind. IsServer version copies.now.kinds (server_meant kind body.new)) }
    ensures exact { (log : List OneEvent) → CopiesStandFor copies.now (ghosts_came log)
        → IsWhole server_meant result body.new (read_server version copies.now.kinds (kind_at log) bytes.now) }
{
    decode_server_into(bytes, version, copies.table(), copies.kinds(), body)
}

/// Takes a data packet that nothing refuses into these parts of a client's end.
pub(crate) fn take_body(
    common: &mut End,
    moves: &mut MoveSender,
    blocks: &mut BlockReceiver,
    copies: &mut Copies,
    control: &mut Option<u8>,
    body: &ServerBody,
)
    requires fits { IsServerBody common.old.config.version copies.old.kinds body.now }
    requires admits { let old = client_of common.old moves.old blocks.old copies.old control.old [] in
        AdmitsDown old (made_whole old body.now) }
    requires none_waits { common.old.receiver.ready ≡ [] }
    ensures took { (changes : List OneGhost) →
        let old = client_of common.old moves.old blocks.old copies.old control.old changes in
        TakesDown old (made_whole old body.now) (client_of common.new moves.new blocks.new copies.new control.new body.now.ghosts) }
    ensures life { moves.new.life ≡ moves.old.life }
    ensures wire { moves.new.wire ≡ moves.old.wire }
{
    let _ = common.take(PacketKind::Body, &body.head, &body.events);
    let _ = moves.acked(body.accepted);
    take_blocks(blocks, &body.blocks);
    copies.take_checked(&body.ghosts, blocks.held());
    *control = body.control;
}
