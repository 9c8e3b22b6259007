//! What a server holds, and what it does with what it meets.
ghost use Rattle.std.specs.Prelude.{◌≡◌, ◌<◌, ◌≤◌, ◌∷◌, List, [], ℕ, length, Some, Err, IfOk, IfErr, OnOk, OnErr};
ghost use Rattle.std.specs.Option.{option_copied};

use crate::fault::fault_of;
use crate::watch::Watch;
use match_engine::Served;
use match_report::Told;
use match_script::{BodyLine, MAX_COUNTED_LINES, Script, put_line};
use net_rules::{Hello, NetFault, Peers, WELCOME_BYTES, hello_of, is_arrival, welcome};
use std::alloc::Global;
use std::marker::Model;
use tn_outside::{Link, Peer, RunFault, Sink, write_all};
use tn_types::{MAX_CLIENTS, NoMemory, are_bytes};

/// A match that is served, and who has a client.
pub struct Server<'a> {
    script: &'a Script,
    game: Served<'a>,
    peers: Peers,
    // a place for the text of a line
    text: String,
}

impl Drop for Server<'_> {
    fn drop(self) {
        let Server {
            script: _script,
            game: _game,
            peers: _peers,
            text: _text,
        } = self;
    }
}

impl<'a> Model for Server<'a> {
    ghost use Rattle.net_serve.specs.Stages.{ServerState};

    ghost Value = { ServerState };

    ghost view = { λ s. record {
      script = s.script.now;
      game = s.game;
      peers = s.peers;
    } };
}

impl<'a> Server<'a> {
    ghost use Rattle.tn_outside.specs.Causes.{HandsOn};
    ghost use Rattle.tn_outside.specs.Links.{Datagram};
    ghost use Rattle.tn_outside.specs.Totals.{Adds, AddsFront};
    ghost use Rattle.match_script.specs.declared.types.BodyLine.{BodyLine as OneLine};
    ghost use Rattle.match_script.specs.declared.types.BodyLine.TheVariants as script;
    ghost use Rattle.match_script.specs.Ranges.{HeadFits, LineFits};
    ghost use Rattle.match_engine.specs.Stands.{IsDown};
    ghost use Rattle.net_rules.specs.declared.hello.Hello.{Hello as OneHello};
    ghost use Rattle.net_rules.specs.Turns.{Event, Heard, Turned};
    ghost use Rattle.net_rules.specs.Hellos.{joined, client_of, hello_in, hello_at};
    ghost use Rattle.net_serve.specs.Lines.{script_line, arrival_lines, after_clients};
    ghost use Rattle.net_serve.specs.Outgoing.{welcome_of, welcome_to, datagrams, packs, pack_of, packed_for};
    ghost use Rattle.net_rules.specs.Faults.{counts, HandsOnEach};
    ghost use Rattle.net_rules.specs.Runs.{Begun};
    ghost use Rattle.net_serve.specs.Stages.{Plays, Serves, PlaysOn, Writes, WritesFront, SendsMore, SendsFront, Same, IsAt, IsFront};

    /// A server of this script's header, of which nothing was done.
    pub(crate) fn new(alloc: Global, script: &'a Script) -> Result<Server<'a>, NoMemory>
        requires { HeadFits script.now.head }
        ensures serves { IfOk result (λ s. Serves s []) }
        ensures script { IfOk result (λ s. s.script ≡ script.now) }
    {
        let game = Served::new(alloc, script)?;
        Ok(Server {
            script,
            game,
            peers: Peers::new(alloc),
            text: String::new(alloc),
        })
    }

    // Writes the text of a line.
    fn put<K: Sink>(&mut self, alloc: Global, line: &BodyLine, sink: &mut K) -> Result<(), RunFault>
        ensures written { OnOk result (Adds (K.written sink.old) (K.written sink.new) (script_line line.now)) }
        ensures front { OnErr result (AddsFront (K.written sink.old) (K.written sink.new) (script_line line.now)) }
        ensures unchanged { self.new ≡ self.old }
        ensures cause { HandsOn (K.faults sink.old) (K.faults sink.new) (result ≡ Err RunFault.WriteFault) }
    {
        self.text.clear();
        let Ok(()) = put_line(alloc, &mut self.text, line) else {
            return Err(RunFault::NoMemory);
        };
        match write_all(sink, self.text.as_bytes()) {
            Ok(()) => Ok(()),
            Err(_) => Err(RunFault::WriteFault),
        }
    }

    // Does a line.
    fn play(&mut self, alloc: Global, line: &BodyLine) -> Result<(), NoMemory>
        requires stands { (past : List OneLine) × Plays self.old past }
        requires fits { LineFits self.old.script.head.clients line.now }
        requires no_down { IsDown line.now → ⊥ }
        requires few { self.old.game.game.done < MAX_COUNTED_LINES }
        ensures plays { OnOk result (PlaysOn self.old (λ past. line.now ∷ past) self.new) }
        ensures same { Same self.old self.new }
    {
        self.game.feed(alloc, line)
    }

    // Writes a line and does it.
    pub(crate) fn line<K: Sink>(
        &mut self,
        alloc: Global,
        line: &BodyLine,
        sink: &mut K,
    ) -> Result<(), RunFault>
        requires stands { (past : List OneLine) × Plays self.old past }
        requires fits { LineFits self.old.script.head.clients line.now }
        requires no_down { IsDown line.now → ⊥ }
        ensures plays { OnOk result (PlaysOn self.old (λ past. line.now ∷ past) self.new) }
        ensures written { OnOk result (Writes self.old (λ past. line.now ∷ past) (K.written sink.old) (K.written sink.new)) }
        ensures front { OnErr result (WritesFront self.old (λ past. line.now ∷ past) (K.written sink.old) (K.written sink.new)) }
        ensures same { Same self.old self.new }
        ensures cause { HandsOn (K.faults sink.old) (K.faults sink.new) (result ≡ Err RunFault.WriteFault) }
    {
        if self.game.is_full() {
            return Err(RunFault::NoMemory);
        }
        self.put(alloc, line, sink)?;
        match self.play(alloc, line) {
            Ok(()) => Ok(()),
            Err(_) => Err(RunFault::NoMemory),
        }
    }

    // The same, as a step of a turn.
    fn step<K: Sink>(
        &mut self,
        alloc: Global,
        line: &BodyLine,
        sink: &mut K,
    ) -> Result<(), NetFault>
        requires stands { (past : List OneLine) × Plays self.old past }
        requires fits { LineFits self.old.script.head.clients line.now }
        requires no_down { IsDown line.now → ⊥ }
        ensures plays { OnOk result (PlaysOn self.old (λ past. line.now ∷ past) self.new) }
        ensures written { OnOk result (Writes self.old (λ past. line.now ∷ past) (K.written sink.old) (K.written sink.new)) }
        ensures front { OnErr result (WritesFront self.old (λ past. line.now ∷ past) (K.written sink.old) (K.written sink.new)) }
        ensures same { Same self.old self.new }
        ensures cause { HandsOnEach (counts 0 0 (K.faults sink.old)) (counts 0 0 (K.faults sink.new)) result }
    {
        match self.line(alloc, line, sink) {
            Ok(()) => Ok(()),
            Err(fault) => Err(fault_of(fault)),
        }
    }

    // What the last line told, if a line was done.
    pub(crate) fn told(&self) -> Option<&Told>
        ensures { option_copied result ≡ self.now.game.told }
    {
        self.game.told()
    }

    // How many have a client.
    fn joined(&self) -> u8
        requires { length self.now.peers ≤ MAX_CLIENTS }
        ensures { result ≡ length self.now.peers }
    {
        self.peers.len() as u8
    }

    // The client of a peer, if it has one.
    fn client_of(&self, peer: Peer) -> Option<u8>
        requires { length self.now.peers ≤ MAX_CLIENTS }
        ensures { result ≡ client_of self.now.peers peer }
    {
        match self.peers.client_of(peer) {
            Some(client) => Some(client as u8),
            None => None,
        }
    }

    // The hello by which a client was given.
    fn hello(&self, client: u8) -> Hello
        requires { client < length self.now.peers }
        ensures { result ≡ hello_at self.now.peers client }
    {
        self.peers.hello(client as usize)
    }

    // A hello was said: one who has no client gets the next one.
    fn join(&mut self, hello: Hello) -> Result<(), NoMemory>
        ensures joined { OnOk result ((e : Event) (past : List Event) → hello_in e ≡ Some hello
            → self.old.peers ≡ joined self.old.script.head.clients past → self.new.peers ≡ joined self.old.script.head.clients (e ∷ past)) }
        ensures few { length self.old.peers ≤ self.old.script.head.clients → length self.new.peers ≤ self.old.script.head.clients }
        ensures script { self.new.script ≡ self.old.script }
        ensures game { self.new.game ≡ self.old.game }
    {
        self.peers.join(hello, self.script.head.clients as usize)
    }

    // The welcome of a client.
    fn welcome(&self, client: u8) -> [u8; WELCOME_BYTES]
        requires fits { HeadFits self.now.script.head }
        requires client { client < length self.now.peers }
        ensures { result ≡ (welcome_of self.now.script.head client (hello_at self.now.peers client)).bytes }
    {
        let head = &self.script.head;
        welcome(
            self.peers.hello(client as usize).nonce,
            client,
            head.life,
            head.size,
            head.version,
        )
    }

    // A hello is answered, where its peer has a client or can have one.
    fn greet<L: Link>(&mut self, hello: Hello, link: &mut L) -> Result<(), NetFault>
        requires fits { HeadFits self.old.script.head }
        requires few { length self.old.peers ≤ self.old.script.head.clients }
        ensures joined { OnOk result ((e : Event) (past : List Event) → hello_in e ≡ Some hello
            → self.old.peers ≡ joined self.old.script.head.clients past → self.new.peers ≡ joined self.old.script.head.clients (e ∷ past)) }
        ensures sent { OnOk result (Adds (L.sent link.old) (L.sent link.new)
            (datagrams (welcome_to self.old.script.head self.new.peers (client_of self.new.peers hello.peer)))) }
        ensures unsent { OnErr result (L.sent link.new ≡ L.sent link.old) }
        ensures ahead { L.ahead link.new ≡ L.ahead link.old }
        ensures game { self.new.game ≡ self.old.game }
        ensures script { self.new.script ≡ self.old.script }
        ensures cause { HandsOnEach (counts (L.faults link.old) 0 0) (counts (L.faults link.new) 0 0) result }
    {
        let Ok(()) = self.join(hello) else {
            return Err(NetFault::NoMemory);
        };
        let Some(client) = self.client_of(hello.peer) else {
            return Ok(());
        };
        let to = self.hello(client).peer;
        match link.send(to, &self.welcome(client)) {
            Ok(()) => Ok(()),
            Err(_) => Err(NetFault::LinkFault),
        }
    }

    /// Does what a datagram of a peer asks for.
    pub(crate) fn hear<L: Link, K: Sink, W: Watch>(
        &mut self,
        alloc: Global,
        peer: Peer,
        bytes: &[u8],
        link: &mut L,
        sink: &mut K,
        watch: &mut W,
    ) -> Result<(), NetFault>
        requires stands { (past : List Event) × Serves self.old past }
        ensures serves { OnOk result ((past : List Event) → Serves self.old past
            → Serves self.new (Heard (record { peer = peer; bytes = bytes.now }) ∷ past)) }
        ensures done { OnOk result ((o : Begun) (past : List Event) → IsAt o self.old (K.written sink.old) (L.sent link.old) past
            → IsAt o self.new (K.written sink.new) (L.sent link.new) (Heard (record { peer = peer; bytes = bytes.now }) ∷ past)) }
        ensures front { OnErr result ((o : Begun) (past : List Event) → IsAt o self.old (K.written sink.old) (L.sent link.old) past
            → IsFront o self.old.script.head (K.written sink.new) (L.sent link.new)
            (Heard (record { peer = peer; bytes = bytes.now }) ∷ past)) }
        ensures ahead { L.ahead link.new ≡ L.ahead link.old }
        ensures script { self.new.script ≡ self.old.script }
        ensures cause { HandsOnEach (counts (L.faults link.old) 0 (K.faults sink.old))
            (counts (L.faults link.new) 0 (K.faults sink.new)) result }
    {
        if let Some(hello) = hello_of(peer, bytes) {
            return self.greet(hello, link);
        }
        if !is_arrival(bytes) {
            return Ok(());
        }
        let Some(client) = self.client_of(peer) else {
            return Ok(());
        };
        are_bytes(bytes);
        let count = self.joined();
        match self.arrive(alloc, client, bytes, count, sink, watch) {
            Ok(()) => Ok(()),
            Err(fault) => Err(fault_of(fault)),
        }
    }

    // The line of a tick.
    fn tick<K: Sink>(&mut self, alloc: Global, sink: &mut K) -> Result<(), NetFault>
        requires stands { (past : List OneLine) × Plays self.old past }
        ensures plays { OnOk result (PlaysOn self.old (λ past. script.Tick ∷ past) self.new) }
        ensures written { OnOk result (Writes self.old (λ past. script.Tick ∷ past) (K.written sink.old) (K.written sink.new)) }
        ensures front { OnErr result (WritesFront self.old (λ past. script.Tick ∷ past) (K.written sink.old) (K.written sink.new)) }
        ensures same { Same self.old self.new }
        ensures cause { HandsOnEach (counts 0 0 (K.faults sink.old)) (counts 0 0 (K.faults sink.new)) result }
    {
        let line = BodyLine::Tick;
        self.step(alloc, &line, sink)
    }

    // The line of a client's scan.
    fn scan<K: Sink>(&mut self, alloc: Global, client: u8, sink: &mut K) -> Result<(), NetFault>
        requires stands { (past : List OneLine) × Plays self.old past }
        requires client { client < self.old.script.head.clients }
        ensures plays { OnOk result (PlaysOn self.old (λ past. script.Scan client ∷ past) self.new) }
        ensures written { OnOk result (Writes self.old (λ past. script.Scan client ∷ past) (K.written sink.old) (K.written sink.new)) }
        ensures front { OnErr result (WritesFront self.old (λ past. script.Scan client ∷ past) (K.written sink.old) (K.written sink.new)) }
        ensures same { Same self.old self.new }
        ensures cause { HandsOnEach (counts 0 0 (K.faults sink.old)) (counts 0 0 (K.faults sink.new)) result }
    {
        let line = BodyLine::Scan { client };
        self.step(alloc, &line, sink)
    }

    // The line of a client's pack.
    fn pack<K: Sink>(&mut self, alloc: Global, client: u8, sink: &mut K) -> Result<(), NetFault>
        requires stands { (past : List OneLine) × Plays self.old past }
        requires client { client < self.old.script.head.clients }
        ensures plays { OnOk result (PlaysOn self.old (λ past. script.Pack client ∷ past) self.new) }
        ensures written { OnOk result (Writes self.old (λ past. script.Pack client ∷ past) (K.written sink.old) (K.written sink.new)) }
        ensures front { OnErr result (WritesFront self.old (λ past. script.Pack client ∷ past) (K.written sink.old) (K.written sink.new)) }
        ensures same { Same self.old self.new }
        ensures cause { HandsOnEach (counts 0 0 (K.faults sink.old)) (counts 0 0 (K.faults sink.new)) result }
    {
        let line = BodyLine::Pack { client };
        self.step(alloc, &line, sink)
    }

    // Sends the datagram that the last line made, if it made one.
    fn send_made<L: Link>(&self, peer: Peer, link: &mut L) -> Result<(), NetFault>
        ensures sent { OnOk result (Adds (L.sent link.old) (L.sent link.new) (packed_for peer self.now.game.told)) }
        ensures unsent { OnErr result (L.sent link.new ≡ L.sent link.old) }
        ensures ahead { L.ahead link.new ≡ L.ahead link.old }
        ensures cause { HandsOnEach (counts (L.faults link.old) 0 0) (counts (L.faults link.new) 0 0) result }
    {
        if let Some(
            Told::Packed {
                by: _,
                client: _,
                place: _,
                kind: _,
                bytes,
            },
        ) = self.game.told()
        {
            return match link.send(peer, bytes.as_slice()) {
                Ok(()) => Ok(()),
                Err(_) => Err(NetFault::LinkFault),
            };
        }
        Ok(())
    }

    // A client is scanned, and gets the datagram that is made for it, after its lines: where it stops at a line, nothing was sent.
    fn serve_client<L: Link, K: Sink>(
        &mut self,
        alloc: Global,
        client: u8,
        link: &mut L,
        sink: &mut K,
    ) -> Result<(), NetFault>
        requires stands { (past : List OneLine) × Plays self.old past }
        requires client { client < self.old.script.head.clients }
        requires known { client < length self.old.peers }
        ensures plays { OnOk result (PlaysOn self.old (λ past. script.Pack client ∷ (script.Scan client ∷ past)) self.new) }
        ensures written { OnOk result (Writes self.old (λ past. script.Pack client ∷ (script.Scan client ∷ past))
            (K.written sink.old) (K.written sink.new)) }
        ensures sent { OnOk result
            (SendsMore self.old (λ past. pack_of self.old.script.head self.old.peers client (script.Scan client ∷ past))
            (L.sent link.old) (L.sent link.new)) }
        ensures written_front { OnErr result (WritesFront self.old (λ past. script.Pack client ∷ (script.Scan client ∷ past))
            (K.written sink.old) (K.written sink.new)) }
        ensures sent_front { OnErr result
            (SendsFront self.old (λ past. pack_of self.old.script.head self.old.peers client (script.Scan client ∷ past))
            (L.sent link.old) (L.sent link.new)) }
        ensures unsent { OnErr result (L.sent link.new ≡ L.sent link.old) }
        ensures ahead { L.ahead link.new ≡ L.ahead link.old }
        ensures same { Same self.old self.new }
        ensures cause { HandsOnEach (counts (L.faults link.old) 0 (K.faults sink.old))
            (counts (L.faults link.new) 0 (K.faults sink.new)) result }
    {
        self.scan(alloc, client, sink)?;
        self.pack(alloc, client, sink)?;
        let to = self.hello(client).peer;
        self.send_made(to, link)
    }

    // Each of the first clients is served so.
    fn serve_clients<L: Link, K: Sink>(
        &mut self,
        alloc: Global,
        count: u8,
        link: &mut L,
        sink: &mut K,
    ) -> Result<(), NetFault>
        requires stands { (past : List OneLine) × Plays self.old past }
        requires clients { count ≤ self.old.script.head.clients }
        requires known { count ≤ length self.old.peers }
        ensures plays { OnOk result (PlaysOn self.old (after_clients count) self.new) }
        ensures written { OnOk result (Writes self.old (after_clients count) (K.written sink.old) (K.written sink.new)) }
        ensures sent { OnOk result
            (SendsMore self.old (packs self.old.script.head self.old.peers count) (L.sent link.old) (L.sent link.new)) }
        ensures written_front { OnErr result (WritesFront self.old (after_clients count) (K.written sink.old) (K.written sink.new)) }
        ensures sent_front { OnErr result
            (SendsFront self.old (packs self.old.script.head self.old.peers count) (L.sent link.old) (L.sent link.new)) }
        ensures ahead { L.ahead link.new ≡ L.ahead link.old }
        ensures same { Same self.old self.new }
        ensures cause { HandsOnEach (counts (L.faults link.old) 0 (K.faults sink.old))
            (counts (L.faults link.new) 0 (K.faults sink.new)) result }
    {
        'clients: for client in 0..count {
            self.serve_client(alloc, client, link, sink)?;
        }
        Ok(())
    }

    /// Does what the end of a turn's listening asks for.
    pub(crate) fn end_turn<L: Link, K: Sink>(
        &mut self,
        alloc: Global,
        link: &mut L,
        sink: &mut K,
    ) -> Result<(), NetFault>
        requires stands { (past : List Event) × Serves self.old past }
        ensures serves { OnOk result ((past : List Event) → Serves self.old past → Serves self.new (Turned ∷ past)) }
        ensures done { OnOk result ((o : Begun) (past : List Event) → IsAt o self.old (K.written sink.old) (L.sent link.old) past
            → IsAt o self.new (K.written sink.new) (L.sent link.new) (Turned ∷ past)) }
        ensures front { OnErr result ((o : Begun) (past : List Event) → IsAt o self.old (K.written sink.old) (L.sent link.old) past
            → IsFront o self.old.script.head (K.written sink.new) (L.sent link.new) (Turned ∷ past)) }
        ensures ahead { L.ahead link.new ≡ L.ahead link.old }
        ensures script { self.new.script ≡ self.old.script }
        ensures cause { HandsOnEach (counts (L.faults link.old) 0 (K.faults sink.old))
            (counts (L.faults link.new) 0 (K.faults sink.new)) result }
    {
        self.tick(alloc, sink)?;
        let count = self.joined();
        self.serve_clients(alloc, count, link, sink)
    }
}
