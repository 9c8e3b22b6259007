//! Both ends and the network.
ghost use Rattle.std.specs.Prelude.{◌≡◌, true, false, ◌≤◌, [], IfOk, IfSome, OnOk, OnErr, IsTrue, ◌↔◌, length, slice_get};
ghost use Rattle.std.specs.Option.{option_copied};

use crate::datagrams::{Datagrams, FIRST_BYTES, FIRST_DATAGRAMS};
use crate::step::{Answer, PairStep};
use conn_packing::Packer;
use conn_packing::stream_manager::{Client, Config, Conn};
use event_manager::MAX_READY_EVENTS;
use quantised_fields::KindTable;
use std::alloc::Global;
use std::marker::Model;
use tn_types::{BlockBytes, Class, End, MAX_BLOCKS, MAX_DATAGRAM_BYTES, NoMemory, Payload};

/// The server's end, the client's end, and the datagrams that each sent.
///
/// A clause sees `PairState`, and what it means by the list of steps.
pub struct Pair {
    pub(crate) conn: Conn,
    pub(crate) client: Client,
    pub(crate) down: Datagrams,
    pub(crate) up: Datagrams,
    pub(crate) packer: Packer,
    // whether each datagram of the server is kept, or the newest alone
    pub(crate) keeps_all: bool,
    // how many the server sent
    pub(crate) sent: u32,
}

// Written out, so that a function above that lets a pair go calls this, and doesn't prove again how its parts are let go.
impl Drop for Pair {
    fn drop(self) {
        let Pair {
            conn: _conn,
            client: _client,
            down: _down,
            up: _up,
            packer: _packer,
            keeps_all: _keeps_all,
            sent: _sent,
        } = self;
    }
}

impl Model for Pair {
    ghost use Rattle.std.specs.Prelude.{◌&&◌};
    ghost use Rattle.pair_core.specs.Stands.{PairState};

    ghost Value = { PairState };

    ghost view = { λ p. record {
      conn = p.conn;
      client = p.client;
      down = p.down.list;
      up = p.up.list;
      prepared = p.down.has_room && p.up.has_room;
      keeps_all = p.keeps_all;
      sent = p.sent;
    } };
}

impl Pair {
    ghost use Rattle.conn_packing.specs.stream_manager.Limits.{IsConfig};
    ghost use Rattle.conn_packing.specs.stream_manager.EndCalls.{popped};
    ghost use Rattle.pair_core.specs.Keeping.{newest};
    ghost use Rattle.pair_core.specs.Stands.{StandsFor, sent_by};
    ghost use Rattle.pair_core.specs.Answers.{answer};
    ghost use Rattle.pair_core.specs.Calls.{step_of, Meets, IsReady, Does, Answers, Stays, Hands, Accepts, Keeps, Unchanged};

    /// A new connection, in a match of these kinds and blocks, at most 64. Each datagram is kept, so that the network can bring it
    /// whenever it likes.
    pub fn new(
        alloc: Global,
        config: Config,
        kinds: &KindTable,
        blocks: &[BlockBytes],
    ) -> Result<Pair, NoMemory>
        requires config { IsConfig config }
        requires few { length blocks.now ≤ MAX_BLOCKS }
        ensures stands { IfOk result (λ p. StandsFor p (record { config = config; kinds = kinds.now; blocks = blocks.now }) []) }
        ensures conn_empty { IfOk result (λ p. p.conn.common.receiver.ready ≡ []) }
        ensures client_empty { IfOk result (λ p. p.client.common.receiver.ready ≡ []) }
        ensures none_taken { IfOk result (λ p. p.conn.taken ≡ []) }
        ensures keeps_all { IfOk result (λ p. p.keeps_all ≡ true) }
    {
        let conn = Conn::new(alloc, config, kinds, blocks)?;
        let client = Client::new(alloc, config, kinds)?;
        let packer = Packer::new(alloc)?;
        let down = Datagrams::with_room(alloc, FIRST_DATAGRAMS, FIRST_BYTES)?;
        let up = Datagrams::with_room(alloc, FIRST_DATAGRAMS, FIRST_BYTES)?;
        Ok(Pair {
            conn,
            client,
            down,
            up,
            packer,
            keeps_all: true,
            sent: 0,
        })
    }

    /// A new connection whose server hands each datagram on: the newest alone is kept, until the next one is made, in room that is
    /// made here. No step brings the client what the server sent.
    pub fn passing(
        alloc: Global,
        config: Config,
        kinds: &KindTable,
        blocks: &[BlockBytes],
    ) -> Result<Pair, NoMemory>
        requires config { IsConfig config }
        requires few { length blocks.now ≤ MAX_BLOCKS }
        ensures stands { IfOk result (λ p. StandsFor p (record { config = config; kinds = kinds.now; blocks = blocks.now }) []) }
        ensures conn_empty { IfOk result (λ p. p.conn.common.receiver.ready ≡ []) }
        ensures client_empty { IfOk result (λ p. p.client.common.receiver.ready ≡ []) }
        ensures none_taken { IfOk result (λ p. p.conn.taken ≡ []) }
        ensures passes { IfOk result (λ p. p.keeps_all ≡ false) }
    {
        let conn = Conn::new(alloc, config, kinds, blocks)?;
        let client = Client::new(alloc, config, kinds)?;
        let packer = Packer::new(alloc)?;
        // the newest, and the next one after it
        let down = Datagrams::with_room(alloc, 2, 2 * MAX_DATAGRAM_BYTES)?;
        let up = Datagrams::with_room(alloc, FIRST_DATAGRAMS, FIRST_BYTES)?;
        Ok(Pair {
            conn,
            client,
            down,
            up,
            packer,
            keeps_all: false,
            sent: 0,
        })
    }

    /// Whether each datagram of the server is kept, so that a step can bring it; or else the newest alone.
    pub fn keeps_all(&self) -> bool
        ensures { result ≡ self.now.keeps_all }
    {
        self.keeps_all
    }

    /// Makes room for the datagram of one more step, whatever its size. Where memory is wanting, nothing changed.
    pub fn prepare(&mut self, alloc: Global) -> Result<(), NoMemory>
        ensures prepared { OnOk result (self.new ≡ record self.old { prepared = true }) }
        ensures unchanged { OnErr result (self.new ≡ self.old) }
        ensures stands { Stays self.old self.new }
    {
        let _alloc = alloc;
        if self.is_prepared() {
            return Ok(());
        }
        self.down.prepare()?;
        self.up.prepare()
    }

    /// Whether there is room for the datagram of one more step.
    pub fn is_prepared(&self) -> bool
        ensures { result ≡ self.now.prepared }
    {
        self.down.has_room() && self.up.has_room()
    }

    /// Makes one step, and gives its answer. It takes no memory. A step has the condition of the call of an end that it names;
    /// a delivery wants that no event waits at its end, one to the client that all datagrams are kept, and a client's pack that there
    /// is room for its datagram. A refusal leaves the pair as it was.
    pub fn step(&mut self, step: &PairStep) -> Answer
        requires meets { Meets self.old (step_of step.now) }
        requires ready { IsReady self.old step.now }
        ensures answer { Answers self.old (λ t steps. answer t steps (step_of step.now)) result }
        ensures stands { Does self.old (step_of step.now) self.new }
        ensures handed { Hands self.old (step_of step.now) self.new }
        ensures moves { Accepts self.old (step_of step.now) result self.new }
        ensures keeps { Keeps self.old (step_of step.now) self.new }
        ensures unchanged { Unchanged self.old result self.new }
        ensures keeping { self.new.keeps_all ≡ self.old.keeps_all }
    {
        match step {
            PairStep::Show {
                kind,
                block,
                level,
                control,
            } => self.show(*kind, *block, *level, *control),
            PairStep::Hide { n } => self.hide(*n),
            PairStep::Near { n, level } => self.near(*n, *level),
            PairStep::Post { class, payload } => self.post(*class, payload.copy()),
            PairStep::ClientPost { class, payload } => self.client_post(*class, payload.copy()),
            PairStep::Sample { m } => self.sample(*m),
            PairStep::Pack => unreachable!(),
            PairStep::ClientPack => self.client_pack(),
            PairStep::Down { k } => self.bring_down(*k),
            PairStep::Up { k, room } => self.bring_up(*k, *room),
            PairStep::Raw { bytes, room } => self.bring_raw(bytes.as_slice(), *room),
        }
    }

    /// The server's end.
    pub fn conn(&self) -> &Conn
        ensures { result.now ≡ self.now.conn }
    {
        &self.conn
    }

    /// The client's end.
    pub fn client(&self) -> &Client
        ensures { result.now ≡ self.now.client }
    {
        &self.client
    }

    /// The datagram of this place, counted from 0, of those that an end sent and that are kept; `None` exactly where there is none.
    pub fn datagram(&self, by: End, k: u32) -> Option<&[u8]>
        ensures value { option_copied result ≡ slice_get (sent_by by self.now) k }
        ensures fits { IfSome result (λ bytes. length bytes.now ≤ MAX_DATAGRAM_BYTES) }
    {
        match by {
            End::Server => self.down.get(k),
            End::Client => self.up.get(k),
        }
    }

    /// How many datagrams the server sent.
    pub fn sent(&self) -> u32
        ensures { result ≡ self.now.sent }
    {
        self.sent
    }

    /// The newest datagram that an end sent; `None` exactly where it sent none.
    pub fn newest(&self, by: End) -> Option<&[u8]>
        ensures value { option_copied result ≡ newest (sent_by by self.now) }
        ensures fits { IfSome result (λ bytes. length bytes.now ≤ MAX_DATAGRAM_BYTES) }
    {
        match by {
            End::Server => self.down.newest(),
            End::Client => self.up.newest(),
        }
    }

    /// Hands out the oldest event that waits at the client; `None` exactly where none does.
    pub fn pop_client_event(&mut self) -> Option<(Class, Payload)>
        ensures first { result ≡ slice_get self.old.client.common.receiver.ready 0 }
        ensures rest { self.new ≡ record self.old { client = record self.old.client { common = popped self.old.client.common } } }
        ensures stands { Stays self.old self.new }
    {
        self.client.pop_event()
    }

    /// Hands out the oldest event that waits at the server; `None` exactly where none does.
    pub fn pop_server_event(&mut self) -> Option<(Class, Payload)>
        ensures first { result ≡ slice_get self.old.conn.common.receiver.ready 0 }
        ensures rest { self.new ≡ record self.old { conn = record self.old.conn { common = popped self.old.conn.common } } }
        ensures stands { Stays self.old self.new }
    {
        self.conn.pop_event()
    }

    /// How many events wait at the client, at most 95.
    pub fn client_waiting(&self) -> u32
        ensures count { result ≡ length self.now.client.common.receiver.ready }
        ensures few { result ≤ MAX_READY_EVENTS }
    {
        self.client.waiting()
    }

    /// How many events wait at the server, at most 95.
    pub fn server_waiting(&self) -> u32
        ensures count { result ≡ length self.now.conn.common.receiver.ready }
        ensures few { result ≤ MAX_READY_EVENTS }
    {
        self.conn.waiting()
    }
}
