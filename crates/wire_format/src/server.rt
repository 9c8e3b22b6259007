ghost use Rattle.std.specs.Prelude.{◌≡◌, ◌+◌, ◌*◌, ◌^◌, ◌<◌, ◌≤◌, ◌++◌, Ok, length, IfOk, IfSome, [], None};
ghost use Rattle.bit_stream.specs.Bits.{datagram};
ghost use Rattle.wire_format.specs.Header.{IsHeader, IsHeaderInRange, no_header};
ghost use Rattle.wire_format.specs.Ghosts.{none_held, held_in, AreOfTable};
ghost use Rattle.wire_format.specs.Server.{spell_server, server_at, read_server, server_rest, server_front, server_in_parts, server_body_at, server_size, IsServer, IsServerBody, IsServerInRange, IsServerBodyInRange, AreOfHeld, server_meant};
ghost use Rattle.wire_format.specs.Reading.{Fills, FillsAs, IsWhole};

use crate::blocks::{BlockList, put_blocks};
use crate::events::{EventList, put_events};
use crate::fault::{BitsCause, BitsFault};
use crate::ghosts::{GhostList, Known, Spelled, few_kinds, put_ghosts};
use crate::header::{Header, put_header, put_ping, read_header};
use crate::held::HeldKinds;
use crate::items::{list_bits, read_list};
use crate::parts::{optional_bits, optional_byte, part, put_optional, widened, within};
use crate::widths::{
    BLOCK_COUNT_WIDTH, DATA, EVENT_COUNT_WIDTH, GHOST_COUNT_WIDTH, HEADER_BITS, KIND_WIDTH,
    MAX_PACKET_BITS, NUMBER_WIDTH, PING, SLOT_WIDTH,
};
use bit_stream::{BitReader, BitWriter};
use quantised_fields::KindTable;
use tn_types::{
    MAX_PACKET_BLOCKS, MAX_PACKET_EVENTS, MAX_PACKET_GHOSTS, MAX_READ_BYTES, PacketKind,
};

/// A packet of the server.
#[derive(Drop)]
pub enum ServerPacket {
    /// What is sent while 32 packets are unjudged: the header alone.
    Ping(Header),
    Body(ServerBody),
}

/// A data packet of the server.
#[derive(Drop)]
pub struct ServerBody {
    pub head: Header,
    /// How many moves of the client were accepted, below 2^24.
    pub accepted: u32,
    /// The slot of the client's own player.
    pub control: Option<u8>,
    pub blocks: BlockList,
    pub events: EventList,
    pub ghosts: GhostList,
}

impl ServerBody {
    /// A body of nothing, to be filled by [`decode_server_into`].
    pub fn new() -> Self
        ensures lists { (result.blocks ≡ []) × (result.events ≡ []) × (result.ghosts ≡ []) }
        ensures control { result.control ≡ None }
        ensures accepted { result.accepted ≡ 0 }
        ensures head { result.head ≡ no_header }
    {
        ServerBody {
            head: Header::new(),
            accepted: 0,
            control: None,
            blocks: BlockList::new(),
            events: EventList::new(),
            ghosts: GhostList::new(),
        }
    }
}

/// Reads what stands after a data packet's header into its body, or gives its first fault.
#[tactic(auto, unfolding(crate::specs::Server::server_body_at))]
fn read_server_body(
    reader: &mut BitReader<'_>,
    known: &Known<'_>,
    body: &mut ServerBody,
) -> Result<(), BitsFault>
    ensures { let k = known.now in
        Fills result body.new reader.new (server_body_at k.version k.kinds.now (held_in k.held.now) body.old.head reader.old) }
{
    body.accepted = part(reader, NUMBER_WIDTH)?;
    body.control = optional_byte(reader)?;
    read_list(
        reader,
        &(),
        MAX_PACKET_BLOCKS as u32,
        BLOCK_COUNT_WIDTH,
        &mut body.blocks,
    )?;
    read_list(
        reader,
        &known.version,
        MAX_PACKET_EVENTS as u32,
        EVENT_COUNT_WIDTH,
        &mut body.events,
    )?;
    read_list(
        reader,
        known,
        MAX_PACKET_GHOSTS as u32,
        GHOST_COUNT_WIDTH,
        &mut body.ghosts,
    )
}

/// Reads a packet, or gives its first fault.
#[tactic(auto, unfolding(crate::specs::Server::server_at))]
fn read_server(
    reader: &mut BitReader<'_>,
    known: &Known<'_>,
    body: &mut ServerBody,
) -> Result<PacketKind, BitsFault>
    ensures { let k = known.now in
        FillsAs server_meant result body.new reader.new (server_at k.version k.kinds.now (held_in k.held.now) reader.old) }
{
    let kind = within(reader, BitsCause::KindBits, DATA, PING, KIND_WIDTH)?;
    body.head = read_header(reader)?;
    if kind == PING {
        return Ok(PacketKind::Ping);
    }
    read_server_body(reader, known, body)?;
    Ok(PacketKind::Body)
}

/// The whole of these bytes, into a body.
fn read_into(
    bytes: &[u8],
    known: &Known<'_>,
    body: &mut ServerBody,
) -> Result<PacketKind, BitsFault>
    requires { length bytes.now ≤ MAX_READ_BYTES }
    ensures { let k = known.now in
        IsWhole server_meant result body.new (read_server k.version k.kinds.now (held_in k.held.now) bytes.now) }
{
    let mut reader = BitReader::new(bytes);
    let kind = read_server(&mut reader, known, body)?;
    match reader.end() {
        Ok(()) => Ok(kind),
        Err(padding) => Err(BitsFault {
            place: padding.place,
            cause: BitsCause::Padding,
        }),
    }
}

/// The whole of these bytes.
fn read_whole(bytes: &[u8], known: &Known<'_>) -> Result<ServerPacket, BitsFault>
    requires { length bytes.now ≤ MAX_READ_BYTES }
    ensures { let k = known.now in result ≡ read_server k.version k.kinds.now (held_in k.held.now) bytes.now }
{
    let mut body = ServerBody::new();
    match read_into(bytes, known, &mut body) {
        Ok(PacketKind::Ping) => Ok(ServerPacket::Ping(body.head)),
        Ok(PacketKind::Body) => Ok(ServerPacket::Body(body)),
        Err(fault) => Err(fault),
    }
}

/// The bits of what stands after the header.
fn server_rest_bits(body: &ServerBody, version: u8, kinds: &KindTable) -> u32
    ensures value { result ≡ length (server_rest version kinds.now body.now) }
    ensures few { result ≤ MAX_PACKET_BITS }
{
    let control = optional_bits(widened(body.control), SLOT_WIDTH);
    let blocks = list_bits(&(), &body.blocks);
    let events = list_bits(&version, &body.events);
    let ghosts = list_bits(&Spelled { version, kinds }, &body.ghosts);
    let counts = BLOCK_COUNT_WIDTH + EVENT_COUNT_WIDTH + GHOST_COUNT_WIDTH;
    NUMBER_WIDTH + counts + control + blocks + events + ghosts
}

/// The bits of a packet under a version.
fn packet_bits(packet: &ServerPacket, version: u8, kinds: &KindTable) -> u32
    ensures value { result ≡ length (spell_server version kinds.now packet.now) }
    ensures size { result ≡ server_size version kinds.now packet.now }
{
    match packet {
        ServerPacket::Ping(_) => HEADER_BITS,
        ServerPacket::Body(body) => HEADER_BITS + server_rest_bits(body, version, kinds),
    }
}

/// The bits of a packet: those of the header, and in a data packet [`SERVER_FIXED_BITS`](crate::SERVER_FIXED_BITS), less 8
/// where no control slot is set, and the bits of all items.
pub fn server_bits(packet: &ServerPacket, kinds: &KindTable) -> u32
    ensures value { result ≡ length (spell_server 1 kinds.now packet.now) }
    ensures size { result ≡ server_size 1 kinds.now packet.now }
{
    packet_bits(packet, 1, kinds)
}

/// The bits of a packet of version 2.
pub fn server2_bits(packet: &ServerPacket, kinds: &KindTable) -> u32
    ensures value { result ≡ length (spell_server 2 kinds.now packet.now) }
    ensures size { result ≡ server_size 2 kinds.now packet.now }
{
    packet_bits(packet, 2, kinds)
}

/// Writes what stands before the lists of a data packet: its kind, its header, how many moves were accepted, and the
/// control slot. The blocks, the events and the ghosts follow. The caller sees to it that each number fits its part and
/// that all bits fit the room.
#[tactic(auto, using(crate::proofs::Lengths::lengths))]
pub fn put_server_front(out: &mut BitWriter, head: &Header, accepted: u32, control: Option<u8>)
    requires head { IsHeaderInRange head.now }
    requires accepted { accepted < 2 ^ NUMBER_WIDTH }
    requires room { length out.old.bits + length (server_front head.now accepted control) ≤ 8 * out.old.size }
    ensures head { IsHeader head.now }
    ensures control { IfSome control (λ slot. slot < 2 ^ SLOT_WIDTH) }
    ensures bits { out.new.bits ≡ out.old.bits ++ server_front head.now accepted control }
    ensures len { length out.new.bits ≡ length out.old.bits + length (server_front head.now accepted control) }
    ensures size { out.new.size ≡ out.old.size }
{
    out.put(DATA, KIND_WIDTH);
    put_header(out, head);
    out.put(accepted, NUMBER_WIDTH);
    put_optional(out, widened(control), SLOT_WIDTH);
}

/// Writes a data packet, part by part.
#[tactic(auto, using(crate::proofs::Lengths::lengths))]
fn put_server_body(out: &mut BitWriter, version: u8, kinds: &KindTable, body: &ServerBody)
    requires fits { IsServerBodyInRange version kinds.now body.now }
    requires room { length out.old.bits + length (server_in_parts version kinds.now body.now) ≤ 8 * out.old.size }
    ensures spelled { IsServerBody version kinds.now body.now }
    ensures bits { out.new.bits ≡ out.old.bits ++ server_in_parts version kinds.now body.now }
    ensures size { out.new.size ≡ out.old.size }
{
    put_server_front(out, &body.head, body.accepted, body.control);
    put_blocks(out, &body.blocks);
    put_events(out, version, &body.events);
    put_ghosts(out, version, kinds, &body.ghosts);
}

/// Writes a packet under a version and a table of kinds.
#[tactic(auto, using(crate::proofs::Lengths::lengths, crate::proofs::InParts::server_parts))]
fn put_packet(packet: &ServerPacket, version: u8, kinds: &KindTable, out: &mut BitWriter)
    requires fits { IsServerInRange version kinds.now packet.now }
    requires room { length out.old.bits + length (spell_server version kinds.now packet.now) ≤ 8 * out.old.size }
    ensures spelled { IsServer version kinds.now packet.now }
    ensures bits { out.new.bits ≡ out.old.bits ++ spell_server version kinds.now packet.now }
    ensures size { out.new.size ≡ out.old.size }
{
    match packet {
        ServerPacket::Ping(head) => put_ping(out, head),
        ServerPacket::Body(body) => put_server_body(out, version, kinds, body),
    }
}

/// Writes a packet in its one spelling under a table of kinds. The caller sees to it that each number fits its part and all
/// of [`server_bits`] fit the room.
pub fn encode_server(packet: &ServerPacket, kinds: &KindTable, out: &mut BitWriter)
    requires fits { IsServerInRange 1 kinds.now packet.now }
    requires room { length out.old.bits + length (spell_server 1 kinds.now packet.now) ≤ 8 * out.old.size }
    ensures spelled { IsServer 1 kinds.now packet.now }
    ensures bits { out.new.bits ≡ out.old.bits ++ spell_server 1 kinds.now packet.now }
    ensures size { out.new.size ≡ out.old.size }
{
    put_packet(packet, 1, kinds, out);
}

/// Writes a packet in its one spelling of version 2. The caller sees to it that each number fits its part, that of an event 7
/// bits, and all of [`server2_bits`] fit the room.
pub fn encode_server2(packet: &ServerPacket, kinds: &KindTable, out: &mut BitWriter)
    requires fits { IsServerInRange 2 kinds.now packet.now }
    requires room { length out.old.bits + length (spell_server 2 kinds.now packet.now) ≤ 8 * out.old.size }
    ensures spelled { IsServer 2 kinds.now packet.now }
    ensures bits { out.new.bits ≡ out.old.bits ++ spell_server 2 kinds.now packet.now }
    ensures size { out.new.size ≡ out.old.size }
{
    put_packet(packet, 2, kinds, out);
}

/// Reads a packet of a version under a table of kinds out of these bytes, at most 65,536, into a body, and tells its kind; of a
/// ping only `head` counts. `held` tells which kinds the client's slots held before the packet. Or gives the first fault in
/// reading order with the bit at which the faulty part begins (docs/wire.md, "Datagrams"), and the body then holds nothing
/// that counts. What the body had before plays no part.
pub fn decode_server_into(
    bytes: &[u8],
    version: u8,
    kinds: &KindTable,
    held: &HeldKinds,
    body: &mut ServerBody,
) -> Result<PacketKind, BitsFault>
    requires few { length bytes.now ≤ MAX_READ_BYTES }
    requires kinds { AreOfTable kinds.now (held_in held.now) }
    // What is read has a spelling, and each update of version 2 is of the kind that its slot holds.
    ensures found { IfOk result (λ kind. IsServer version kinds.now (server_meant kind body.new)
        × AreOfHeld version (held_in held.now) (server_meant kind body.new)) }
    // It is the packet that these bytes spell, or their fault.
    ensures exact { IsWhole server_meant result body.new (read_server version kinds.now (held_in held.now) bytes.now) }
{
    few_kinds(kinds);
    let known = Known {
        version,
        kinds,
        held,
    };
    read_into(bytes, &known, body)
}

/// The packet that these bytes spell under a table of kinds, at most 65,536 of them, or the first fault in reading order
/// with the bit at which the faulty part begins (docs/wire.md, "Datagrams").
pub fn decode_server(bytes: &[u8], kinds: &KindTable) -> Result<ServerPacket, BitsFault>
    requires { length bytes.now ≤ MAX_READ_BYTES }
    // What is read is spelled so, and it alone.
    ensures found { IfOk result (λ p. IsServer 1 kinds.now p × (bytes.now ≡ datagram (spell_server 1 kinds.now p))) }
    // What is spelled so is read.
    ensures only { (p : ServerPacket) → IsServer 1 kinds.now p → bytes.now ≡ datagram (spell_server 1 kinds.now p) → result ≡ Ok p }
    // Which fault it is.
    ensures exact { result ≡ read_server 1 kinds.now none_held bytes.now }
{
    few_kinds(kinds);
    let known = Known {
        version: 1,
        kinds,
        held: &HeldKinds::new(),
    };
    read_whole(bytes, &known)
}

/// The same for packets of version 2, where `held` tells which kinds the client's slots held before the packet, each a kind of
/// the table. The number of a guaranteed event is then its low number, 0 to 127.
pub fn decode_server2(
    bytes: &[u8],
    kinds: &KindTable,
    held: &HeldKinds,
) -> Result<ServerPacket, BitsFault>
    requires few { length bytes.now ≤ MAX_READ_BYTES }
    requires kinds { AreOfTable kinds.now (held_in held.now) }
    // What is read is spelled so, each of its updates is of the kind that its slot holds, and it alone.
    ensures found { IfOk result (λ p. IsServer 2 kinds.now p × AreOfHeld 2 (held_in held.now) p
        × (bytes.now ≡ datagram (spell_server 2 kinds.now p))) }
    // What is spelled so is read.
    ensures only { (p : ServerPacket) → IsServer 2 kinds.now p → AreOfHeld 2 (held_in held.now) p
        → bytes.now ≡ datagram (spell_server 2 kinds.now p) → result ≡ Ok p }
    // Which fault it is.
    ensures exact { result ≡ read_server 2 kinds.now (held_in held.now) bytes.now }
{
    few_kinds(kinds);
    let known = Known {
        version: 2,
        kinds,
        held,
    };
    read_whole(bytes, &known)
}
