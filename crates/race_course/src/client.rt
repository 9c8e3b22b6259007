//! What a client's lines give, as they are followed.
ghost use Rattle.std.specs.Prelude.{◌≡◌, ℕ, ◌<◌, ◌≤◌, ◌+◌, ◌^◌, List, [], ◌∷◌, ◌++◌, IfOk, OnOk};
ghost use Rattle.world_scope.specs.declared.viewer.Seen.{Seen};
ghost use Rattle.world_scope.specs.Scope.{visible_list};
ghost use Rattle.world_sim.specs.Worlds.{Worlds};
ghost use Rattle.client_scope.specs.StandsFor.{StandsFor};
ghost use Rattle.race_messages.specs.declared.message.Message.TheVariants as message;
ghost use Rattle.race_course.specs.Messages.{Ticks, scan_messages};
ghost use Rattle.race_course.specs.Course.{IsClientAt};

use crate::scan::scan_messages;
use client_scope::Scope;
use race_messages::Message;
use std::alloc::{AllocError, Global};
use std::marker::Model;
use tn_types::{Class, MAX_OBJECTS, NoMemory, Payload};
use world_sim::World;

/// A client's scope and all messages so far.
#[derive(Drop)]
pub(crate) struct ClientCourse {
    scope: Scope,
    messages: Vec<Message>,
}

impl Model for ClientCourse {
    ghost use Rattle.race_course.specs.Course.{ClientState};

    ghost Value = { ClientState };

    ghost view = { λ k. record {
      scope = k.scope;
      messages = k.messages.items;
    } };
}

impl ClientCourse {
    // Behind no line.
    pub(crate) fn new(alloc: Global) -> Result<ClientCourse, NoMemory>
        ensures { IfOk result (λ k. (first : Worlds) (ticks : Ticks) (c : ℕ) → IsClientAt k first ticks c []) }
    {
        let scope = Scope::new(alloc)?;
        Ok(ClientCourse {
            scope,
            messages: Vec::new(alloc),
        })
    }

    // A scan of the client, which has this number.
    pub(crate) fn scan(&mut self, alloc: Global, world: &World, client: u8) -> Result<(), NoMemory>
        requires stands { (scans : List (List Seen)) × StandsFor self.old.scope scans }
        requires few { self.old.scope.count + MAX_OBJECTS < 2 ^ 32 }
        ensures scope { OnOk result ((scans : List (List Seen)) → StandsFor self.old.scope scans
            → StandsFor self.new.scope (visible_list world.now client ∷ scans)) }
        ensures messages { OnOk result ((scans : List (List Seen)) → StandsFor self.old.scope scans
            → self.new.messages ≡ self.old.messages ++ scan_messages world.now client (visible_list world.now client ∷ scans)) }
        ensures count { self.new.scope.count ≤ self.old.scope.count + MAX_OBJECTS }
    {
        scan_messages(alloc, world, client, &mut self.scope, &mut self.messages)
    }

    // A post to the client.
    pub(crate) fn post(&mut self, class: Class, payload: Payload) -> Result<(), AllocError>
        ensures messages { OnOk result (self.new.messages ≡ self.old.messages ++ message.Post class payload ∷ []) }
        ensures scope { OnOk result (self.new.scope ≡ self.old.scope) }
    {
        self.messages.push(Message::Post { class, payload })?;
        Ok(())
    }

    // All messages, lent.
    pub(crate) fn messages(&self) -> &[Message]
        ensures { result.now ≡ self.now.messages }
    {
        self.messages.as_slice()
    }
}
