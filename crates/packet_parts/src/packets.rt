//! Whole datagrams, part by part.
ghost use Rattle.std.specs.Prelude.{◌≡◌, ◌≤◌, Ok, Err, Result, length, IfOk, IsErr, IfSome};
ghost use Rattle.std.specs.Result.{result_err};
ghost use Rattle.bit_stream.specs.Bits.{bits_of};
ghost use Rattle.wire_format.specs.declared.server.ServerPacket.{ServerPacket};
ghost use Rattle.wire_format.specs.declared.client.ClientPacket.{ClientPacket};
ghost use Rattle.wire_format.specs.Ghosts.{held_in, AreOfTable};
ghost use Rattle.wire_format.specs.Server.{read_server, spell_server};
ghost use Rattle.wire_format.specs.Client.{read_client, spell_client};
ghost use Rattle.packet_parts.specs.Parts.{Told, Stop, Tells, AreFirstOf, IsTold, ended, spelled};
ghost use Rattle.packet_parts.specs.Telling.{server_body_told, server_told, server_telling, client_body_told, client_told, client_telling};

use crate::items::Item;
use crate::part::{PartList, PartName};
use crate::reader::{Halt, PartReader};
use crate::widths::{DATA, KIND_WIDTH, NUMBER_WIDTH, PING, SLOT_WIDTH};
use quantised_fields::KindTable;
use std::alloc::Global;
use tn_types::{
    MAX_KINDS, MAX_PACKET_BLOCKS, MAX_PACKET_EVENTS, MAX_PACKET_GHOSTS, MAX_PACKET_MOVES,
    MAX_READ_BYTES, NoMemory,
};
use wire_format::{
    BLOCK_COUNT_WIDTH, BitsCause, BitsFault, EVENT_COUNT_WIDTH, GHOST_COUNT_WIDTH, HeldKinds,
    MOVE_COUNT_WIDTH, Wire,
};

/// A datagram taken apart: the parts up to its end or up to its first fault, and that fault.
#[derive(Drop)]
pub struct Telling {
    pub parts: PartList,
    pub fault: Option<BitsFault>,
}

impl<'a> PartReader<'a> {
    /// What stands after the header of a server's data packet.
    #[tactic(auto, unfolding(crate::specs::Telling::server_body_told))]
    fn server_body(&mut self, version: u8, kinds: &KindTable, held: &HeldKinds) -> Result<(), Halt>
        ensures read { Tells result self.new (server_body_told version kinds.now (held_in held.now) self.old) }
        ensures whole { self.new.whole ≡ self.old.whole }
    {
        self.part(PartName::Accepted, NUMBER_WIDTH)?;
        self.optional(PartName::ControlFlag, PartName::ControlSlot, SLOT_WIDTH)?;
        self.list(
            PartName::BlockCount,
            MAX_PACKET_BLOCKS,
            BLOCK_COUNT_WIDTH,
            &Item::Block,
        )?;
        let event = Item::Event { version };
        self.list(
            PartName::EventCount,
            MAX_PACKET_EVENTS,
            EVENT_COUNT_WIDTH,
            &event,
        )?;
        let ghosts = Item::Ghost {
            version,
            kinds,
            held,
        };
        self.list(
            PartName::GhostCount,
            MAX_PACKET_GHOSTS,
            GHOST_COUNT_WIDTH,
            &ghosts,
        )
    }

    /// A packet of the server.
    #[tactic(auto, unfolding(crate::specs::Telling::server_told))]
    fn server(&mut self, version: u8, kinds: &KindTable, held: &HeldKinds) -> Result<(), Halt>
        ensures read { Tells result self.new (server_told version kinds.now (held_in held.now) self.old) }
        ensures whole { self.new.whole ≡ self.old.whole }
    {
        let kind = self.within(PartName::Kind, BitsCause::KindBits, DATA, PING, KIND_WIDTH)?;
        self.header()?;
        if kind == PING {
            return Ok(());
        }
        self.server_body(version, kinds, held)
    }

    /// What stands after the header of a client's data packet.
    #[tactic(auto, unfolding(crate::specs::Telling::client_body_told))]
    fn client_body(&mut self, wire: Wire) -> Result<(), Halt>
        ensures read { Tells result self.new (client_body_told wire self.old) }
        ensures whole { self.new.whole ≡ self.old.whole }
    {
        self.part(PartName::FirstMove, NUMBER_WIDTH)?;
        self.list(
            PartName::MoveCount,
            MAX_PACKET_MOVES,
            MOVE_COUNT_WIDTH,
            &Item::Move { wire },
        )?;
        let event = Item::Event {
            version: wire.version,
        };
        self.list(
            PartName::EventCount,
            MAX_PACKET_EVENTS,
            EVENT_COUNT_WIDTH,
            &event,
        )
    }

    /// A packet of a client.
    #[tactic(auto, unfolding(crate::specs::Telling::client_told))]
    fn client(&mut self, wire: Wire) -> Result<(), Halt>
        ensures read { Tells result self.new (client_told wire self.old) }
        ensures whole { self.new.whole ≡ self.old.whole }
    {
        let kind = self.within(PartName::Kind, BitsCause::KindBits, DATA, PING, KIND_WIDTH)?;
        self.header()?;
        if kind == PING {
            return Ok(());
        }
        self.client_body(wire)
    }

    /// What was told of a whole datagram, however its reading went.
    fn told(self, read: Result<(), Halt>) -> Result<Telling, NoMemory>
        ensures told { IsTold self.entry }
        ensures telling { (r : Result (Unit {0} × Told) Stop) → Tells read self.entry r → IfOk result (λ t. t ≡ ended r) }
        ensures memory { read ≡ Err Halt.NoMemory → IsErr result }
        ensures parts { IfOk result (λ t. t.parts ≡ self.entry.parts) }
        ensures place { IfOk result (λ t. IfSome t.fault (λ e. e.place ≡ self.entry.unread.place)) }
    {
        match read {
            Ok(()) => Ok(self.close()),
            Err(Halt::Fault(cause)) => Ok(self.stop(cause)),
            Err(Halt::NoMemory) => Err(NoMemory),
        }
    }
}

/// A table has at most 16 kinds.
fn few_kinds(kinds: &KindTable)
    ensures { length kinds.now ≤ MAX_KINDS }
{
    let _ = kinds.kind(0);
}

/// Takes a datagram of the server of a version apart, at most 65,536 bytes, under a table of kinds: its parts in their order up to
/// its end, or up to the first fault, which [`wire_format::decode_server_into`] tells of the same bytes. `held` tells which kinds
/// the client's slots held before the packet.
///
/// Answers [`NoMemory`] only where there was none for the list.
pub fn server_parts(
    alloc: Global,
    bytes: &[u8],
    version: u8,
    kinds: &KindTable,
    held: &HeldKinds,
) -> Result<Telling, NoMemory>
    requires few { length bytes.now ≤ MAX_READ_BYTES }
    requires kinds { AreOfTable kinds.now (held_in held.now) }
    // Which parts, each with what it is, and which fault.
    ensures exact { IfOk result (λ t. t ≡ server_telling version kinds.now (held_in held.now) bytes.now) }
    // They are the datagram's bits from bit 0 on.
    ensures bits { IfOk result (λ t. AreFirstOf (bits_of bytes.now) t.parts) }
    // Put together they are the packet that the decoder reads.
    ensures packet { (p : ServerPacket) → read_server version kinds.now (held_in held.now) bytes.now ≡ Ok p
        → IfOk result (λ t. spelled t.parts ≡ spell_server version kinds.now p) }
    // The fault is the decoder's, and none where it reads a packet.
    ensures fault { IfOk result (λ t. t.fault ≡ result_err (read_server version kinds.now (held_in held.now) bytes.now)) }
    // A faulty part begins after those before it.
    ensures place { IfOk result (λ t. IfSome t.fault (λ e. e.place ≡ length (spelled t.parts))) }
{
    few_kinds(kinds);
    let mut reader = PartReader::new(alloc, bytes);
    let read = reader.server(version, kinds, held);
    reader.told(read)
}

/// The same of a datagram of a client, whose fault [`wire_format::decode_client_into`] tells.
pub fn client_parts(alloc: Global, bytes: &[u8], wire: Wire) -> Result<Telling, NoMemory>
    requires few { length bytes.now ≤ MAX_READ_BYTES }
    // Which parts, each with what it is, and which fault.
    ensures exact { IfOk result (λ t. t ≡ client_telling wire bytes.now) }
    // They are the datagram's bits from bit 0 on.
    ensures bits { IfOk result (λ t. AreFirstOf (bits_of bytes.now) t.parts) }
    // Put together they are the packet that the decoder reads.
    ensures packet { (p : ClientPacket) → read_client wire bytes.now ≡ Ok p
        → IfOk result (λ t. spelled t.parts ≡ spell_client wire p) }
    // The fault is the decoder's, and none where it reads a packet.
    ensures fault { IfOk result (λ t. t.fault ≡ result_err (read_client wire bytes.now)) }
    // A faulty part begins after those before it.
    ensures place { IfOk result (λ t. IfSome t.fault (λ e. e.place ≡ length (spelled t.parts))) }
{
    let mut reader = PartReader::new(alloc, bytes);
    let read = reader.client(wire);
    reader.told(read)
}
