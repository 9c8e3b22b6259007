//! A client's end that joined.
ghost use Rattle.std.specs.Prelude.{◌≡◌, ◌≤◌, ◌++◌, List, [], ℕ, suc, length, map, IfOk, OnOk, OnErr, Some};
ghost use Rattle.tn_types.specs.declared.limits.TheConstants.{MAX_DATAGRAM_BYTES};
ghost use Rattle.tn_outside.specs.Causes.{HasCause};
ghost use Rattle.stream_manager.specs.Limits.{IsConfig};
ghost use Rattle.stream_manager.specs.ClientCalls.{Becomes, Keeps, KeepsTerms};
ghost use Rattle.net_join.specs.Joining.{packs};
ghost use Rattle.net_join.specs.Playing.{SendsOn};

use crate::welcomes::SERVER;
use quantised_fields::KindTable;
use rand_pcg::Lcg64Xsh32;
use script_maker::{draw_move, generator};
use std::alloc::Global;
use std::marker::Model;
use stream_manager::{Client, ClientOut, Config};
use tn_outside::{Failed, Link};
use tn_types::NoMemory;

/// The client's end of a connection, and the chances by which it moves.
pub(crate) struct Player {
    end: Client,
    moves: Lcg64Xsh32,
}

impl Drop for Player {
    fn drop(self) {
        let Player {
            end: _end,
            moves: _moves,
        } = self;
    }
}

impl Model for Player {
    ghost use Rattle.std.specs.Prelude.{◌≡◌, []};
    ghost use Rattle.net_join.specs.Playing.{PlayerState};

    ghost Value = { PlayerState };

    ghost view = { λ p. record { end = p.end; moves = p.moves } };

    ghost invariant = { λ p. p.end.common.receiver.ready ≡ [] };
}

// Hands out the events that wait, which nobody looks at.
fn drop_events(end: &mut Client)
    ensures none { end.new.common.receiver.ready ≡ [] }
    ensures stands { Becomes end.old (λ log. log) end.new }
    ensures terms { KeepsTerms end.old end.new }
{
    // for its clauses
    let _waiting = end.waiting();
    'events: while let Some(_) = end.pop_event() {}
}

impl Player {
    ghost use Rattle.stream_manager.specs.declared.config.Config.{Config as Terms};
    ghost use Rattle.stream_manager.specs.Client.{ClientEvent, arriving};
    ghost use Rattle.world_rules.specs.Kinds.{match_kinds};
    ghost use Rattle.net_join.specs.Playing.{Plays};

    /// The end of a new connection.
    pub(crate) fn new(alloc: Global, config: Config, kinds: &KindTable) -> Result<Player, NoMemory>
        requires config { IsConfig config }
        requires kinds { kinds.now ≡ match_kinds }
        ensures { IfOk result (λ p. Plays p config [] 0) }
    {
        let end = Client::new(alloc, config, kinds)?;
        Ok(Player {
            end,
            moves: generator(u32::from(config.client), 1),
        })
    }

    /// The client's end.
    pub(crate) fn end(&self) -> &Client
        ensures { result.now ≡ self.now.end }
    {
        &self.end
    }

    /// A datagram arrives; where it is refused, nothing changes.
    pub(crate) fn hear(&mut self, bytes: &[u8])
        requires { length bytes.now ≤ MAX_DATAGRAM_BYTES }
        ensures { (c : Terms) (log : List ClientEvent) (drawn : ℕ) → Plays self.old c log drawn
            → Plays self.new c (arriving c match_kinds bytes.now log) drawn }
    {
        let _ = self.end.arrive(bytes);
        drop_events(&mut self.end);
    }
}

// Makes the next datagram of the client, if there is one, and sends it to the server.
fn send_packed<L: Link>(end: &mut Client, link: &mut L) -> Result<(), Failed>
    ensures packs { Becomes end.old (packs end.old.common.config) end.new }
    ensures keeps { Keeps end.old end.new }
    ensures sent { OnOk result (SendsOn end.old (packs end.old.common.config) (L.sent link.old) (L.sent link.new)) }
    ensures unsent { OnErr result (L.sent link.new ≡ L.sent link.old) }
    ensures ahead { L.ahead link.new ≡ L.ahead link.old }
    ensures cause { HasCause (L.faults link.old) (L.faults link.new) result }
{
    match end.pack() {
        ClientOut::Body(bytes) => link.send(SERVER, bytes),
        ClientOut::Ping(bytes) => link.send(SERVER, bytes),
        ClientOut::Worn { life: _ } => Ok(()),
    }
}

impl Player {
    ghost use Rattle.net_join.specs.Playing.{PlaysOn, SendsDatagrams};

    /// Plays a turn: a move by chance is sampled, which may be refused, and the next datagram is sent.
    pub(crate) fn play<L: Link>(&mut self, link: &mut L) -> Result<(), Failed>
        ensures plays { OnOk result (PlaysOn self.old self.new) }
        ensures sent { OnOk result (SendsDatagrams self.old (L.sent link.old) (L.sent link.new)) }
        ensures unsent { OnErr result (L.sent link.new ≡ L.sent link.old) }
        ensures ahead { L.ahead link.new ≡ L.ahead link.old }
        ensures cause { HasCause (L.faults link.old) (L.faults link.new) result }
    {
        let m = draw_move(&mut self.moves);
        let _ = self.end.sample(m);
        send_packed(&mut self.end, link)
    }
}
