//! What the simulation has of one client.
ghost use Rattle.std.specs.Prelude.{◌≡◌, ◌<◌, ◌≤◌, ◌+◌, ◌^◌, List, [], ◌∷◌, IfOk, OnOk};
ghost use Rattle.rtrb.specs.Ring.{sent, received};
ghost use Rattle.world_scope.specs.declared.viewer.Seen.{Seen};
ghost use Rattle.world_scope.specs.Scope.{visible_list};
ghost use Rattle.client_scope.specs.StandsFor.{StandsFor};
ghost use Rattle.race_messages.specs.declared.message.Message.TheVariants as message;
ghost use Rattle.race_course.specs.Messages.{scan_messages};
ghost use Rattle.race_sim.specs.Ports.{with_more, IsNewPort, TakesOne, HasPassedOn};

use crate::outgoing::{Outgoing, Waiting};
use client_scope::Scope;
use race_course::scan_messages;
use race_messages::Message;
use rtrb::{Consumer, Producer};
use std::alloc::Global;
use std::marker::Model;
use tn_types::{Class, MAX_OBJECTS, MoveBits, NoMemory, Payload};
use world_sim::World;

/// The scope of a client, the way to its connection, and its accepted moves that come back.
///
/// A clause sees `PortState`.
#[derive(Drop)]
pub struct Port {
    scope: Scope,
    outgoing: Outgoing,
    incoming: Consumer<MoveBits>,
}

impl Model for Port {
    ghost use Rattle.rtrb.specs.Ring.{received, known_items};
    ghost use Rattle.race_sim.specs.Ports.{PortState, IsScope};

    ghost Value = { PortState };

    ghost view = { λ p. record {
      scope = p.scope;
      outgoing = p.outgoing;
      taken = received p.incoming;
      known = known_items p.incoming;
    } };

    ghost invariant = { λ p. IsScope p.scope };
}

impl Port {
    /// The way to a connection that was told nothing yet.
    pub fn new(
        alloc: Global,
        outbox: Producer<Message>,
        incoming: Consumer<MoveBits>,
    ) -> Result<Port, NoMemory>
        requires none_sent { sent outbox ≡ [] }
        requires none_received { received incoming ≡ [] }
        ensures { IfOk result IsNewPort }
    {
        let scope = Scope::new(alloc)?;
        Ok(Port {
            scope,
            outgoing: Outgoing::new(alloc, outbox),
            incoming,
        })
    }

    /// Takes the oldest accepted move that has come, if one has.
    pub(crate) fn take_move(&mut self) -> Option<MoveBits>
        ensures { TakesOne result self.old self.new }
    {
        self.incoming.pop().ok()
    }

    /// A scan of the client, which has this number: what it changes is given to the connection.
    pub(crate) fn scan(&mut self, alloc: Global, world: &World, client: u8) -> Result<(), NoMemory>
        requires few { self.old.scope.count + MAX_OBJECTS < 2 ^ 32 }
        ensures scope { OnOk result ((scans : List (List Seen)) → StandsFor self.old.scope scans
            → StandsFor self.new.scope (visible_list world.now client ∷ scans)) }
        ensures given { OnOk result ((scans : List (List Seen)) → StandsFor self.old.scope scans
            → self.new.outgoing ≡ with_more self.old.outgoing (scan_messages world.now client (visible_list world.now client ∷ scans))) }
        ensures count { self.new.scope.count ≤ self.old.scope.count + MAX_OBJECTS }
        ensures taken { self.new.taken ≡ self.old.taken }
    {
        let mut messages = Vec::new(alloc);
        scan_messages(alloc, world, client, &mut self.scope, &mut messages)?;
        self.outgoing.give(messages)
    }

    /// An event that the server posts to the client is given to the connection.
    pub(crate) fn post(
        &mut self,
        alloc: Global,
        class: Class,
        payload: Payload,
    ) -> Result<(), NoMemory>
        ensures given { OnOk result (self.new.outgoing ≡ with_more self.old.outgoing (message.Post class payload ∷ [])) }
        ensures scope { self.new.scope ≡ self.old.scope }
        ensures taken { self.new.taken ≡ self.old.taken }
    {
        let mut messages = Vec::new(alloc);
        if messages.push(Message::Post { class, payload }).is_err() {
            return Err(NoMemory);
        }
        self.outgoing.give(messages)
    }

    /// Passes on what waits, as far as the ring to the connection has places.
    pub(crate) fn pass_on(&mut self)
        ensures { HasPassedOn self.old self.new }
    {
        self.outgoing.pass_on();
    }

    /// What still waits, once the simulation has ended.
    pub(crate) fn into_waiting(self) -> Waiting
        ensures { result ≡ self.outgoing.waiting }
    {
        let Port {
            scope: _,
            outgoing,
            incoming: _,
        } = self;
        outgoing.into_waiting()
    }
}
