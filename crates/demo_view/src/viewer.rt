//! The viewer.
ghost use Rattle.std.specs.Prelude.{◌≡◌, ℕ, true, false, ◌≤◌, ◌<◌, ◌+◌, List, [], ◌∷◌, IfOk, OnOk, OnErr, None, length, slice_get};
ghost use Rattle.tn_types.specs.declared.limits.TheConstants.{MAX_LIFE};
ghost use Rattle.tn_types.specs.PacketKinds.{is_ping};
ghost use Rattle.wire_format.specs.declared.server.ServerPacket.TheVariants as down;
ghost use Rattle.wire_format.specs.Server.{IsServer, IsServerBody, read_server, server_meant};
ghost use Rattle.wire_format.specs.Reading.{IsWhole};
ghost use Rattle.wire_format.specs.declared.server.ServerPacket.{ServerPacket as OnePacket};
ghost use Rattle.ghost_client.specs.StandsFor.{StandsFor as CopiesStandFor};
ghost use Rattle.notify_window.specs.Log.{arrival_of};
ghost use Rattle.notify_window.specs.declared.Arrival.TheVariants.{Fresh};
ghost use Rattle.stream_manager.specs.Client.{kind_at};
ghost use Rattle.stream_manager.specs.Packets.{took, ghosts_seen};
ghost use Rattle.demo_view.specs.Calls.{Admits, Takes, made_whole, viewer_of};
ghost use Rattle.demo_view.specs.Stands.{AreFew, AreSeen};

use crate::checks::{check_blocks, check_control};
use crate::fault::ViewFault;
use crate::kept::{KeptViewer, creates_of};
use crate::numbers::{check_events, take_events};
use datablocks::BlockReceiver;
use event_manager::{EventReceiver, MAX_READY_EVENTS};
use ghost_client::Copies;
use quantised_fields::KindTable;
use std::alloc::Global;
use std::marker::Model;
use std::sync::ledger::Ledger;
use stream_manager::take_blocks;
use tn_types::{Class, MAX_READ_BYTES, NoMemory, PacketKind, Payload, Steps};
use wire_format::{BitsFault, Header, ServerBody, decode_server_into, server_head};

/// A client that sends nothing.
///
/// A clause sees `ViewerState`, and what it means by the list of the packets that the viewer took.
pub struct Viewer {
    client: u8,
    version: u8,
    // the greatest number that came
    horizon: u32,
    blocks: BlockReceiver,
    events: EventReceiver,
    copies: Copies,
    // where the next packet that comes is read
    body: Box<ServerBody>,
}

// Written out, so that a function above that lets a viewer go calls this, and doesn't prove again how its parts are let go.
impl Drop for Viewer {
    fn drop(self) {
        let Viewer {
            client: _client,
            version: _version,
            horizon: _horizon,
            blocks: _blocks,
            events: _events,
            copies: _copies,
            body: _body,
        } = self;
    }
}

impl Model for Viewer {
    ghost use Rattle.demo_view.specs.Stands.{ViewerState, AreFew, AreSeen};

    ghost Value = { ViewerState };

    ghost view = { λ v. record {
      client = v.client;
      version = v.version;
      horizon = v.horizon;
      blocks = v.blocks;
      events = v.events;
      copies = v.copies;
    } };

    ghost invariant = { λ v. record {
      few : AreFew v.horizon v.events;
      seen : AreSeen v.copies;
    } };
}

impl Viewer {
    ghost use Rattle.stream_manager.specs.End.{seen};
    ghost use Rattle.stream_manager.specs.Client.{ghosts_check, head_first};
    ghost use Rattle.stream_manager.specs.Faults.{without_packet};
    ghost use Rattle.demo_view.specs.Viewing.{as_client, config_of, head_view, packet_view, view_answer, whole_view, taken_by, taking, count_delivered};
    ghost use Rattle.demo_view.specs.Stands.{StandsFor, terms_of};
    ghost use Rattle.demo_view.specs.Calls.{Answers, Becomes, Does, Hands, popped, FitGhosts};
    ghost use Rattle.demo_view.specs.Keeping.{Keeps};

    /// A viewer of this client's datagrams, which are of this version, in a match of these kinds.
    pub fn new(
        alloc: Global,
        kinds: &KindTable,
        client: u8,
        version: u8,
    ) -> Result<Viewer, NoMemory>
        ensures stands { IfOk result (λ v. StandsFor v []) }
        ensures terms { IfOk result (λ v. terms_of v ≡ record { client = client; version = version; kinds = kinds.now }) }
        ensures empty { IfOk result (λ v. v.events.ready ≡ []) }
    {
        let blocks = BlockReceiver::new(alloc)?;
        let events = EventReceiver::new(alloc)?;
        let copies = Copies::new(alloc, kinds)?;
        Viewer::of_parts(alloc, client, version, 0, blocks, events, copies)
    }

    /// A viewer of these parts.
    pub(crate) fn of_parts(
        alloc: Global,
        client: u8,
        version: u8,
        horizon: u32,
        blocks: BlockReceiver,
        events: EventReceiver,
        copies: Copies,
    ) -> Result<Viewer, NoMemory>
        requires few { AreFew horizon events }
        requires seen { AreSeen copies }
        ensures { IfOk result (λ v. v ≡ viewer_of client version horizon blocks events copies) }
    {
        let Ok(body) = Box::new(alloc, ServerBody::new()) else {
            return Err(NoMemory);
        };
        Ok(Viewer {
            client,
            version,
            horizon,
            blocks,
            events,
            copies,
            body,
        })
    }

    /// An equal viewer, in memory of its own.
    pub fn try_clone(&self, alloc: Global) -> Result<Viewer, NoMemory>
        ensures { IfOk result (λ v. v ≡ self.now) }
    {
        let blocks = self.blocks.try_clone(alloc)?;
        let events = self.events.try_clone(alloc)?;
        let copies = self.copies.try_clone(alloc)?;
        Viewer::of_parts(
            alloc,
            self.client,
            self.version,
            self.horizon,
            blocks,
            events,
            copies,
        )
    }

    /// What is kept of the viewer, so that it can be made again; small where few copies are there.
    pub fn keep(&self, alloc: Global) -> Result<KeptViewer, NoMemory>
        ensures { IfOk result (Keeps self.now) }
    {
        let blocks = self.blocks.try_clone(alloc)?;
        let events = self.events.try_clone(alloc)?;
        let creates = creates_of(alloc, &self.copies)?;
        Ok(KeptViewer {
            client: self.client,
            version: self.version,
            horizon: self.horizon,
            blocks,
            events,
            creates,
        })
    }

    /// The copies of the objects that are shown.
    pub fn copies(&self) -> &Copies
        ensures { result.now ≡ self.now.copies }
    {
        &self.copies
    }

    /// How many guaranteed events were delivered, those that wait included.
    pub fn delivered(&self) -> u32
        ensures { Answers self.now count_delivered result }
    {
        self.events.delivered()
    }

    /// How many events wait to be handed out, at most 95.
    pub fn waiting(&self) -> u32
        ensures count { result ≡ length self.now.events.ready }
        ensures few { result ≤ MAX_READY_EVENTS }
    {
        self.events.waiting()
    }

    /// Hands out the oldest event that waits; `None` exactly where none does.
    pub fn pop_event(&mut self) -> Option<(Class, Payload)>
        ensures first { result ≡ slice_get self.old.events.ready 0 }
        ensures rest { self.new ≡ popped self.old }
        ensures stands { Becomes self.old (λ packets. packets) self.new }
    {
        self.events.pop()
    }

    /// Takes bytes that the server sent, at most 65,536, or refuses them by the first refusal that holds; nothing changes then.
    /// No event may wait.
    pub fn take(&mut self, bytes: &[u8]) -> Result<(), ViewFault>
        requires few { length bytes.now ≤ MAX_READ_BYTES }
        requires none_waits { self.old.events.ready ≡ [] }
        ensures answer { Answers self.old (view_answer (terms_of self.old) bytes.now) (as_client result) }
        ensures stands { Becomes self.old (taking (terms_of self.old) bytes.now) self.new }
        ensures handed { Hands self.old (taking (terms_of self.old) bytes.now) self.new }
        ensures unchanged { OnErr result (self.new ≡ self.old) }
        ensures terms { terms_of self.new ≡ terms_of self.old }
    {
        self.look_first(bytes)?;
        self.take_whole(bytes)
    }

    /// The same, as one step.
    pub fn take_counted<L: Ledger>(
        &mut self,
        bytes: &[u8],
        steps: &mut Steps<L>,
    ) -> Result<(), ViewFault>
        requires few { length bytes.now ≤ MAX_READ_BYTES }
        requires none_waits { self.old.events.ready ≡ [] }
        ensures answer { Answers self.old (view_answer (terms_of self.old) bytes.now) (as_client result) }
        ensures stands { Becomes self.old (taking (terms_of self.old) bytes.now) self.new }
        ensures handed { Hands self.old (taking (terms_of self.old) bytes.now) self.new }
        ensures unchanged { OnErr result (self.new ≡ self.old) }
        ensures terms { terms_of self.new ≡ terms_of self.old }
        ensures steps { steps.new ≡ steps.old + 1 }
    {
        steps.tick();
        self.take(bytes)
    }

    /// Takes bytes by the whole of them, or refuses them by the first refusal that holds; nothing changes then.
    fn take_whole(&mut self, bytes: &[u8]) -> Result<(), ViewFault>
        requires few { length bytes.now ≤ MAX_READ_BYTES }
        requires none_waits { self.old.events.ready ≡ [] }
        ensures answer { Answers self.old
            (λ packets. without_packet (whole_view (terms_of self.old) bytes.now packets)) (as_client result) }
        ensures stands { Becomes self.old
            (λ packets. taken_by packets (whole_view (terms_of self.old) bytes.now packets)) self.new }
        ensures handed { Hands self.old (λ packets. taken_by packets (whole_view (terms_of self.old) bytes.now packets)) self.new }
        ensures unchanged { OnErr result (self.new ≡ self.old) }
        ensures terms { terms_of self.new ≡ terms_of self.old }
    {
        match read(bytes, self.version, &self.copies, &mut *self.body) {
            Ok(PacketKind::Ping) => {
                let head = self.body.head;
                self.check_head(PacketKind::Ping, &head)?;
                self.take_ping(&head);
                Ok(())
            }
            Ok(PacketKind::Body) => {
                self.check(&*self.body)?;
                take_body(
                    self.version,
                    &mut self.horizon,
                    &mut self.blocks,
                    &mut self.events,
                    &mut self.copies,
                    &*self.body,
                );
                Ok(())
            }
            Err(fault) => Err(ViewFault::Bits(fault)),
        }
    }

    /// From version 2 on what the header of these bytes says of whether to read the rest; nothing changes.
    fn look_first(&self, bytes: &[u8]) -> Result<(), ViewFault>
        requires few { length bytes.now ≤ MAX_READ_BYTES }
        ensures answer { Answers self.now
            (λ packets. head_first (config_of (terms_of self.now)) (took packets) bytes.now) (as_client result) }
    {
        if self.version < 2 {
            return Ok(());
        }
        match server_head(bytes) {
            Ok((kind, head)) => self.check_head(kind, &head),
            Err(fault) => Err(ViewFault::Bits(fault)),
        }
    }

    /// The first refusal of a packet by its header; nothing changes.
    fn check_head(&self, kind: PacketKind, head: &Header) -> Result<(), ViewFault>
        ensures answer { Answers self.now
            (λ packets. head_view (terms_of self.now) packets (seen (is_ping kind) head.now [])) (as_client result) }
        ensures fresh { OnOk result (arrival_of (is_ping kind) head.now.seq self.now.horizon ≡ Fresh) }
    {
        if head.client != self.client {
            return Err(ViewFault::WrongClient {
                client: head.client,
            });
        }
        if kind == PacketKind::Body && head.seq <= self.horizon {
            return Err(ViewFault::Old {
                seq: head.seq,
                horizon: self.horizon,
            });
        }
        Ok(())
    }

    /// The first refusal of a data packet; nothing changes.
    fn check(&self, body: &ServerBody) -> Result<(), ViewFault>
        requires fits { IsServerBody self.now.version self.now.copies.kinds body.now }
        ensures answer { Answers self.now (λ packets.
            packet_view (terms_of self.now) packets (down.Body (made_whole self.now body.now))) (as_client result) }
        ensures admits { OnOk result (Admits self.now (made_whole self.now body.now)) }
    {
        self.check_head(PacketKind::Body, &body.head)?;
        check_blocks(&self.blocks, &body.blocks)?;
        check_events(&self.events, self.version, &body.events)?;
        self.check_ghosts(body)
    }

    /// The first fault of the ghosts of a packet, or of its control slot.
    fn check_ghosts(&self, body: &ServerBody) -> Result<(), ViewFault>
        requires fits { IsServerBody self.now.version self.now.copies.kinds body.now }
        ensures answer { Answers self.now (λ packets. ghosts_check (took packets) body.now) (as_client result) }
        ensures fit { OnOk result (FitGhosts self.now body.now) }
    {
        let held = self.blocks.held_after(&body.blocks);
        if let Err(fault) = self.copies.check(&body.ghosts, held) {
            return Err(ViewFault::Ghost(fault));
        }
        check_control(&self.copies, body.control)
    }

    /// Takes a ping that nothing refuses.
    fn take_ping(&mut self, head: &Header)
        requires small { head.now.seq ≤ MAX_LIFE }
        requires none_waits { self.old.events.ready ≡ [] }
        ensures stands { Does self.old (down.Ping head.now) self.new }
        ensures handed { Hands self.old (λ packets. down.Ping head.now ∷ packets) self.new }
        ensures terms { terms_of self.new ≡ terms_of self.old }
    {
        self.horizon = self.horizon.max(head.seq);
    }
}

/// Reads a packet of the server into a body, as `decode_server_into` does, by what the copies are.
fn read(
    bytes: &[u8],
    version: u8,
    copies: &Copies,
    body: &mut ServerBody,
) -> Result<PacketKind, BitsFault>
    requires few { length bytes.now ≤ MAX_READ_BYTES }
    ensures found { IfOk result (λ kind. IsServer version copies.now.kinds (server_meant kind body.new)) }
    ensures exact { (packets : List OnePacket) → CopiesStandFor copies.now (ghosts_seen packets)
        → IsWhole server_meant result body.new (read_server version copies.now.kinds (kind_at (took packets)) bytes.now) }
{
    decode_server_into(bytes, version, copies.table(), copies.kinds(), body)
}

/// Takes a data packet that nothing refuses into these parts of a viewer.
fn take_body(
    version: u8,
    horizon: &mut u32,
    blocks: &mut BlockReceiver,
    events: &mut EventReceiver,
    copies: &mut Copies,
    body: &ServerBody,
)
    requires fits { IsServerBody version copies.old.kinds body.now }
    requires admits { let old = viewer_of 0 version horizon.old blocks.old events.old copies.old in
        Admits old (made_whole old body.now) }
    requires few { AreFew horizon.old events.old }
    requires seen { AreSeen copies.old }
    requires none_waits { events.old.ready ≡ [] }
    ensures took { (client : ℕ) → let old = viewer_of client version horizon.old blocks.old events.old copies.old in
        Takes old (made_whole old body.now) (viewer_of client version horizon.new blocks.new events.new copies.new) }
    ensures few { AreFew horizon.new events.new }
    ensures seen { AreSeen copies.new }
{
    take_events(events, version, &body.events);
    *horizon = (*horizon).max(body.head.seq);
    take_blocks(blocks, &body.blocks);
    copies.take_checked(&body.ghosts, blocks.held());
}
