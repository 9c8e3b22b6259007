//! What a server does of an arrival: its line, and the events that it delivers posted to the others.
ghost use Rattle.std.specs.Prelude.{◌≡◌, ◌<◌, ◌≤◌, ◌∷◌, ℕ, reverse, Some, Err, IfOk, OnOk, OnErr, List};

use crate::server::Server;
use crate::telling::delivered;
use crate::watch::Watch;
use match_script::{BodyLine, LineDatagram, LinePayload};
use std::alloc::Global;
use tn_outside::{RunFault, Sink};
use tn_types::{Class, MAX_DATAGRAM_BYTES, NoMemory, Payload};

impl Server<'_> {
    ghost use Rattle.tn_outside.specs.Causes.{HandsOn};
    ghost use Rattle.match_script.specs.declared.types.BodyLine.{BodyLine as OneLine};
    ghost use Rattle.match_script.specs.declared.types.BodyLine.TheVariants as script;
    ghost use Rattle.match_script.specs.Ranges.{BytesFit};
    ghost use Rattle.net_serve.specs.Lines.{delivered_of, post_to, post_all, posts, arrival_lines};
    ghost use Rattle.net_serve.specs.Stages.{Plays, PlaysOn, Writes, WritesFront, Same};

    // Posts a guaranteed event to a client.
    fn post<K: Sink>(
        &mut self,
        alloc: Global,
        client: u8,
        payload: &Payload,
        sink: &mut K,
    ) -> Result<(), RunFault>
        requires stands { (past : List OneLine) × Plays self.old past }
        requires client { client < self.old.script.head.clients }
        ensures plays { OnOk result (PlaysOn self.old (λ past. script.Post client Class.Guaranteed payload.now ∷ past) self.new) }
        ensures written { OnOk result (Writes self.old (λ past. script.Post client Class.Guaranteed payload.now ∷ past)
            (K.written sink.old) (K.written sink.new)) }
        ensures front { OnErr result (WritesFront self.old (λ past. script.Post client Class.Guaranteed payload.now ∷ past)
            (K.written sink.old) (K.written sink.new)) }
        ensures same { Same self.old self.new }
        ensures cause { HandsOn (K.faults sink.old) (K.faults sink.new) (result ≡ Err RunFault.WriteFault) }
    {
        // its bytes are in their range
        let _bytes = payload.as_slice();
        let Ok(payload) = LinePayload::new(alloc, payload.copy()) else {
            return Err(RunFault::NoMemory);
        };
        let line = BodyLine::Post {
            client,
            class: Class::Guaranteed,
            payload,
        };
        self.line(alloc, &line, sink)
    }

    // Posts an event of a client to another one; to itself it posts nothing.
    fn post_other<K: Sink>(
        &mut self,
        alloc: Global,
        from: u8,
        client: u8,
        payload: &Payload,
        sink: &mut K,
    ) -> Result<(), RunFault>
        requires stands { (past : List OneLine) × Plays self.old past }
        requires client { client < self.old.script.head.clients }
        ensures plays { OnOk result (PlaysOn self.old (post_to from payload.now client) self.new) }
        ensures written { OnOk result (Writes self.old (post_to from payload.now client) (K.written sink.old) (K.written sink.new)) }
        ensures front { OnErr result (WritesFront self.old (post_to from payload.now client) (K.written sink.old) (K.written sink.new)) }
        ensures same { Same self.old self.new }
        ensures cause { HandsOn (K.faults sink.old) (K.faults sink.new) (result ≡ Err RunFault.WriteFault) }
    {
        if client == from {
            return Ok(());
        }
        self.post(alloc, client, payload, sink)
    }

    // Posts an event of a client to each other one that was joined.
    fn post_all<K: Sink>(
        &mut self,
        alloc: Global,
        from: u8,
        payload: &Payload,
        count: u8,
        sink: &mut K,
    ) -> Result<(), RunFault>
        requires stands { (past : List OneLine) × Plays self.old past }
        requires count { count ≤ self.old.script.head.clients }
        ensures plays { OnOk result (PlaysOn self.old (post_all from payload.now count) self.new) }
        ensures written { OnOk result (Writes self.old (post_all from payload.now count) (K.written sink.old) (K.written sink.new)) }
        ensures front { OnErr result (WritesFront self.old (post_all from payload.now count) (K.written sink.old) (K.written sink.new)) }
        ensures same { Same self.old self.new }
        ensures cause { HandsOn (K.faults sink.old) (K.faults sink.new) (result ≡ Err RunFault.WriteFault) }
    {
        'clients: for client in 0..count {
            self.post_other(alloc, from, client, payload, sink)?;
        }
        Ok(())
    }

    // Posts events of a client to each other one that was joined.
    fn post_each<K: Sink>(
        &mut self,
        alloc: Global,
        from: u8,
        payloads: &[Payload],
        count: u8,
        sink: &mut K,
    ) -> Result<(), RunFault>
        requires stands { (past : List OneLine) × Plays self.old past }
        requires count { count ≤ self.old.script.head.clients }
        ensures plays { OnOk result (PlaysOn self.old (posts count from (reverse payloads.now)) self.new) }
        ensures written { OnOk result
            (Writes self.old (posts count from (reverse payloads.now)) (K.written sink.old) (K.written sink.new)) }
        ensures front { OnErr result
            (WritesFront self.old (posts count from (reverse payloads.now)) (K.written sink.old) (K.written sink.new)) }
        ensures same { Same self.old self.new }
        ensures cause { HandsOn (K.faults sink.old) (K.faults sink.new) (result ≡ Err RunFault.WriteFault) }
    {
        'events: for payload in payloads {
            self.post_all(alloc, from, payload, count, sink)?;
        }
        Ok(())
    }

    // The line of a client's arrival.
    fn raw<K: Sink>(
        &mut self,
        alloc: Global,
        client: u8,
        bytes: &[u8],
        sink: &mut K,
    ) -> Result<(), RunFault>
        requires stands { (past : List OneLine) × Plays self.old past }
        requires client { client < self.old.script.head.clients }
        requires fits { BytesFit MAX_DATAGRAM_BYTES bytes.now }
        ensures plays { OnOk result (PlaysOn self.old (λ past. script.Raw client bytes.now ∷ past) self.new) }
        ensures written { OnOk result
            (Writes self.old (λ past. script.Raw client bytes.now ∷ past) (K.written sink.old) (K.written sink.new)) }
        ensures front { OnErr result
            (WritesFront self.old (λ past. script.Raw client bytes.now ∷ past) (K.written sink.old) (K.written sink.new)) }
        ensures same { Same self.old self.new }
        ensures cause { HandsOn (K.faults sink.old) (K.faults sink.new) (result ≡ Err RunFault.WriteFault) }
    {
        let Ok(bytes) = LineDatagram::from_slice(alloc, bytes) else {
            return Err(RunFault::NoMemory);
        };
        self.line(alloc, &BodyLine::Raw { client, bytes }, sink)
    }

    // What the last line delivered.
    fn delivered(&self, alloc: Global) -> Result<Vec<Payload>, NoMemory>
        ensures { IfOk result (λ v. v.items ≡ delivered_of self.now.game.told) }
    {
        match self.told() {
            Some(told) => match delivered(alloc, told) {
                Ok(payloads) => Ok(payloads),
                Err(_) => Err(NoMemory),
            },
            None => Ok(Vec::new(alloc)),
        }
    }

    // Who looks on is told of the arrival that the last line was.
    fn show_arrival<W: Watch>(&self, client: u8, watch: &mut W) {
        if let Some(told) = self.told() {
            watch.arrived(client, told);
        }
    }

    // A client's arrival is done, and what it delivers is posted on.
    pub(crate) fn arrive<K: Sink, W: Watch>(
        &mut self,
        alloc: Global,
        client: u8,
        bytes: &[u8],
        count: u8,
        sink: &mut K,
        watch: &mut W,
    ) -> Result<(), RunFault>
        requires stands { (past : List OneLine) × Plays self.old past }
        requires client { client < self.old.script.head.clients }
        requires fits { BytesFit MAX_DATAGRAM_BYTES bytes.now }
        requires count { count ≤ self.old.script.head.clients }
        ensures plays { OnOk result
            (PlaysOn self.old (arrival_lines self.old.script.head count (Some client) bytes.now) self.new) }
        ensures written { OnOk result (Writes self.old (arrival_lines self.old.script.head count (Some client) bytes.now)
            (K.written sink.old) (K.written sink.new)) }
        ensures front { OnErr result (WritesFront self.old (arrival_lines self.old.script.head count (Some client) bytes.now)
            (K.written sink.old) (K.written sink.new)) }
        ensures same { Same self.old self.new }
        ensures cause { HandsOn (K.faults sink.old) (K.faults sink.new) (result ≡ Err RunFault.WriteFault) }
    {
        self.raw(alloc, client, bytes, sink)?;
        self.show_arrival(client, watch);
        let Ok(payloads) = self.delivered(alloc) else {
            return Err(RunFault::NoMemory);
        };
        self.post_each(alloc, client, &payloads, count, sink)
    }
}
