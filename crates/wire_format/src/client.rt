ghost use Rattle.std.specs.Prelude.{◌≡◌, ◌+◌, ◌*◌, ◌^◌, ◌<◌, ◌≤◌, ◌++◌, Ok, length, IfOk, []};
ghost use Rattle.bit_stream.specs.Bits.{datagram};
ghost use Rattle.wire_format.specs.Header.{IsHeader, IsHeaderInRange, no_header};
ghost use Rattle.wire_format.specs.Client.{spell_client, client_at, read_client, client_rest, client_front, client_in_parts, client_body_at, client_size, IsClient, IsClientBody, IsClientInRange, IsClientBodyInRange, client_meant};
ghost use Rattle.wire_format.specs.Moves.{old_wire};
ghost use Rattle.wire_format.specs.Reading.{Fills, FillsAs, IsWhole};

use crate::events::{EventList, put_events};
use crate::fault::{BitsCause, BitsFault};
use crate::header::{Header, put_header, put_ping, read_header};
use crate::items::{list_bits, read_list};
use crate::moves::{MoveList, put_moves, read_moves};
use crate::parts::{part, within};
use crate::widths::{
    DATA, EVENT_COUNT_WIDTH, HEADER_BITS, KIND_WIDTH, MAX_PACKET_BITS, MOVE_COUNT_WIDTH,
    NUMBER_WIDTH, PING,
};
use crate::wire::Wire;
use bit_stream::{BitReader, BitWriter};
use tn_types::{MAX_PACKET_EVENTS, MAX_READ_BYTES, PacketKind};

/// A packet of a client.
#[derive(Drop)]
pub enum ClientPacket {
    /// What is sent while 32 packets are unjudged: the header alone.
    Ping(Header),
    Body(ClientBody),
}

/// A data packet of a client.
#[derive(Drop)]
pub struct ClientBody {
    pub head: Header,
    /// The number of the first move, below 2^24.
    pub first: u32,
    /// The moves from `first` on.
    pub moves: MoveList,
    pub events: EventList,
}

impl ClientBody {
    /// A body of nothing, to be filled by [`decode_client_into`].
    pub fn new() -> Self
        ensures lists { (result.moves ≡ []) × (result.events ≡ []) }
        ensures first { result.first ≡ 0 }
        ensures head { result.head ≡ no_header }
    {
        ClientBody {
            head: Header::new(),
            first: 0,
            moves: MoveList::new(),
            events: EventList::new(),
        }
    }
}

/// Reads what stands after a data packet's header into its body, or gives its first fault.
#[tactic(auto, unfolding(crate::specs::Client::client_body_at))]
fn read_client_body(
    reader: &mut BitReader<'_>,
    wire: Wire,
    body: &mut ClientBody,
) -> Result<(), BitsFault>
    ensures { Fills result body.new reader.new (client_body_at wire body.old.head reader.old) }
{
    body.first = part(reader, NUMBER_WIDTH)?;
    read_moves(reader, wire, &mut body.moves)?;
    read_list(
        reader,
        &wire.version,
        MAX_PACKET_EVENTS as u32,
        EVENT_COUNT_WIDTH,
        &mut body.events,
    )
}

/// Reads a packet, or gives its first fault.
#[tactic(auto, unfolding(crate::specs::Client::client_at))]
fn read_client(
    reader: &mut BitReader<'_>,
    wire: Wire,
    body: &mut ClientBody,
) -> Result<PacketKind, BitsFault>
    ensures { FillsAs client_meant result body.new reader.new (client_at wire reader.old) }
{
    let kind = within(reader, BitsCause::KindBits, DATA, PING, KIND_WIDTH)?;
    body.head = read_header(reader)?;
    if kind == PING {
        return Ok(PacketKind::Ping);
    }
    read_client_body(reader, wire, body)?;
    Ok(PacketKind::Body)
}

/// The whole of these bytes, into a body.
fn read_into(bytes: &[u8], wire: Wire, body: &mut ClientBody) -> Result<PacketKind, BitsFault>
    requires { length bytes.now ≤ MAX_READ_BYTES }
    ensures { IsWhole client_meant result body.new (read_client wire bytes.now) }
{
    let mut reader = BitReader::new(bytes);
    let kind = read_client(&mut reader, wire, body)?;
    match reader.end() {
        Ok(()) => Ok(kind),
        Err(padding) => Err(BitsFault {
            place: padding.place,
            cause: BitsCause::Padding,
        }),
    }
}

/// The whole of these bytes.
fn read_whole(bytes: &[u8], wire: Wire) -> Result<ClientPacket, BitsFault>
    requires { length bytes.now ≤ MAX_READ_BYTES }
    ensures { result ≡ read_client wire bytes.now }
{
    let mut body = ClientBody::new();
    match read_into(bytes, wire, &mut body) {
        Ok(PacketKind::Ping) => Ok(ClientPacket::Ping(body.head)),
        Ok(PacketKind::Body) => Ok(ClientPacket::Body(body)),
        Err(fault) => Err(fault),
    }
}

/// The bits of what stands after the header.
fn client_rest_bits(body: &ClientBody, wire: Wire) -> u32
    ensures value { result ≡ length (client_rest wire body.now) }
    ensures few { result ≤ MAX_PACKET_BITS }
{
    let moves = list_bits(&wire, &body.moves);
    let events = list_bits(&wire.version, &body.events);
    NUMBER_WIDTH + MOVE_COUNT_WIDTH + EVENT_COUNT_WIDTH + moves + events
}

/// The bits of a packet under a version.
fn packet_bits(packet: &ClientPacket, wire: Wire) -> u32
    ensures value { result ≡ length (spell_client wire packet.now) }
    ensures size { result ≡ client_size wire packet.now }
{
    match packet {
        ClientPacket::Ping(_) => HEADER_BITS,
        ClientPacket::Body(body) => HEADER_BITS + client_rest_bits(body, wire),
    }
}

/// The bits of a packet: those of the header, and in a data packet [`CLIENT_FIXED_BITS`](crate::CLIENT_FIXED_BITS)
/// and the bits of all items.
pub fn client_bits(packet: &ClientPacket) -> u32
    ensures value { result ≡ length (spell_client (old_wire 1) packet.now) }
    ensures size { result ≡ client_size (old_wire 1) packet.now }
{
    packet_bits(packet, Wire::old(1))
}

/// The bits of a packet of version 2.
pub fn client2_bits(packet: &ClientPacket) -> u32
    ensures value { result ≡ length (spell_client (old_wire 2) packet.now) }
    ensures size { result ≡ client_size (old_wire 2) packet.now }
{
    packet_bits(packet, Wire::old(2))
}

/// Writes what stands before the lists of a data packet: its kind, its header and the number of its first move. The moves
/// and the events follow. The caller sees to it that each number fits its part and that all bits fit the room.
#[tactic(auto, using(crate::proofs::Lengths::lengths))]
pub fn put_client_front(out: &mut BitWriter, head: &Header, first: u32)
    requires head { IsHeaderInRange head.now }
    requires first { first < 2 ^ NUMBER_WIDTH }
    requires room { length out.old.bits + length (client_front head.now first) ≤ 8 * out.old.size }
    ensures head { IsHeader head.now }
    ensures bits { out.new.bits ≡ out.old.bits ++ client_front head.now first }
    ensures len { length out.new.bits ≡ length out.old.bits + length (client_front head.now first) }
    ensures size { out.new.size ≡ out.old.size }
{
    out.put(DATA, KIND_WIDTH);
    put_header(out, head);
    out.put(first, NUMBER_WIDTH);
}

/// Writes a data packet, part by part.
#[tactic(auto, using(crate::proofs::Lengths::lengths))]
fn put_client_body(out: &mut BitWriter, wire: Wire, body: &ClientBody)
    requires fits { IsClientBodyInRange wire body.now }
    requires room { length out.old.bits + length (client_in_parts wire body.now) ≤ 8 * out.old.size }
    ensures spelled { IsClientBody wire body.now }
    ensures bits { out.new.bits ≡ out.old.bits ++ client_in_parts wire body.now }
    ensures size { out.new.size ≡ out.old.size }
{
    put_client_front(out, &body.head, body.first);
    put_moves(out, wire, &body.moves);
    put_events(out, wire.version, &body.events);
}

/// Writes a packet under a version.
#[tactic(auto, using(crate::proofs::Lengths::lengths, crate::proofs::InParts::client_parts))]
fn put_packet(packet: &ClientPacket, wire: Wire, out: &mut BitWriter)
    requires fits { IsClientInRange wire packet.now }
    requires room { length out.old.bits + length (spell_client wire packet.now) ≤ 8 * out.old.size }
    ensures spelled { IsClient wire packet.now }
    ensures bits { out.new.bits ≡ out.old.bits ++ spell_client wire packet.now }
    ensures size { out.new.size ≡ out.old.size }
{
    match packet {
        ClientPacket::Ping(head) => put_ping(out, head),
        ClientPacket::Body(body) => put_client_body(out, wire, body),
    }
}

/// Writes a packet in its one spelling. The caller sees to it that each number fits its part and all
/// of [`client_bits`] fit the room.
pub fn encode_client(packet: &ClientPacket, out: &mut BitWriter)
    requires fits { IsClientInRange (old_wire 1) packet.now }
    requires room { length out.old.bits + length (spell_client (old_wire 1) packet.now) ≤ 8 * out.old.size }
    ensures spelled { IsClient (old_wire 1) packet.now }
    ensures bits { out.new.bits ≡ out.old.bits ++ spell_client (old_wire 1) packet.now }
    ensures size { out.new.size ≡ out.old.size }
{
    put_packet(packet, Wire::old(1), out);
}

/// Writes a packet in its one spelling of version 2. The caller sees to it that each number fits its part, that of an event 7
/// bits, and all of [`client2_bits`] fit the room.
pub fn encode_client2(packet: &ClientPacket, out: &mut BitWriter)
    requires fits { IsClientInRange (old_wire 2) packet.now }
    requires room { length out.old.bits + length (spell_client (old_wire 2) packet.now) ≤ 8 * out.old.size }
    ensures spelled { IsClient (old_wire 2) packet.now }
    ensures bits { out.new.bits ≡ out.old.bits ++ spell_client (old_wire 2) packet.now }
    ensures size { out.new.size ≡ out.old.size }
{
    put_packet(packet, Wire::old(2), out);
}

/// Reads a packet of a wire out of these bytes, at most 65,536, into a body, and tells its kind; of a ping only `head`
/// counts. Or gives the first fault in reading order with the bit at which the faulty part begins (docs/wire.md,
/// "Datagrams"), and the body then holds nothing that counts. What the body had before plays no part.
pub fn decode_client_into(
    bytes: &[u8],
    wire: Wire,
    body: &mut ClientBody,
) -> Result<PacketKind, BitsFault>
    requires { length bytes.now ≤ MAX_READ_BYTES }
    // What is read has a spelling.
    ensures found { IfOk result (λ kind. IsClient wire (client_meant kind body.new)) }
    // It is the packet that these bytes spell, or their fault.
    ensures exact { IsWhole client_meant result body.new (read_client wire bytes.now) }
{
    read_into(bytes, wire, body)
}

/// The packet that these bytes spell, at most 65,536 of them, or the first fault in reading order
/// with the bit at which the faulty part begins (docs/wire.md, "Datagrams").
pub fn decode_client(bytes: &[u8]) -> Result<ClientPacket, BitsFault>
    requires { length bytes.now ≤ MAX_READ_BYTES }
    // What is read is spelled so, and it alone.
    ensures found { IfOk result (λ p. IsClient (old_wire 1) p × (bytes.now ≡ datagram (spell_client (old_wire 1) p))) }
    // What is spelled so is read.
    ensures only { (p : ClientPacket) → IsClient (old_wire 1) p → bytes.now ≡ datagram (spell_client (old_wire 1) p) → result ≡ Ok p }
    // Which fault it is.
    ensures exact { result ≡ read_client (old_wire 1) bytes.now }
{
    read_whole(bytes, Wire::old(1))
}

/// The same for packets of version 2. The number of a guaranteed event is then its low number, 0 to 127.
pub fn decode_client2(bytes: &[u8]) -> Result<ClientPacket, BitsFault>
    requires { length bytes.now ≤ MAX_READ_BYTES }
    // What is read is spelled so, and it alone.
    ensures found { IfOk result (λ p. IsClient (old_wire 2) p × (bytes.now ≡ datagram (spell_client (old_wire 2) p))) }
    // What is spelled so is read.
    ensures only { (p : ClientPacket) → IsClient (old_wire 2) p → bytes.now ≡ datagram (spell_client (old_wire 2) p) → result ≡ Ok p }
    // Which fault it is.
    ensures exact { result ≡ read_client (old_wire 2) bytes.now }
{
    read_whole(bytes, Wire::old(2))
}
