//! One who joins: hellos, and then a player.
ghost use Rattle.std.specs.Prelude.{◌≡◌, ◌≤◌, ◌++◌, ◌∷◌, List, [], ℕ, Option, Some, IfOk, IfErr, OnOk, OnErr};

use crate::player::Player;
use crate::welcomes::{SERVER, is_of_server, welcomed};
use copies_told::copies_told;
use match_report::put_shown;
use net_rules::{NetFault, hello_with, is_arrival};
use std::alloc::Global;
use std::fmt::Write;
use std::marker::Model;
use std::mem;
use tn_outside::{Failed, Link, Peer};
use tn_types::NoMemory;
use world_rules::match_kinds;

/// The nonce of one's hellos, and the client's end from the first welcome on.
pub(crate) struct Joiner {
    nonce: u32,
    player: Option<Player>,
}

impl Drop for Joiner {
    fn drop(self) {
        let Joiner {
            nonce: _nonce,
            player: _player,
        } = self;
    }
}

impl Model for Joiner {
    ghost use Rattle.net_join.specs.Playing.{JoinerState};

    ghost Value = { JoinerState };

    ghost view = { λ j. record { nonce = j.nonce; player = j.player } };
}

// From now on this one is there.
fn put(place: &mut Option<Player>, player: Player)
    ensures { place.new ≡ Some player }
{
    let _before = mem::replace(place, Some(player));
}

impl Joiner {
    ghost use Rattle.tn_outside.specs.Causes.{HasCause};
    ghost use Rattle.tn_outside.specs.Links.{Datagram};
    ghost use Rattle.tn_outside.specs.Totals.{Adds};
    ghost use Rattle.net_rules.specs.Faults.{counts, HandsOnEach};
    ghost use Rattle.net_rules.specs.Turns.{Event, Heard, Turned};
    ghost use Rattle.net_join.specs.Joining.{sends, ending};
    ghost use Rattle.net_join.specs.Playing.{Joins};

    /// One who heard nothing yet.
    pub(crate) fn new(nonce: u32) -> Joiner
        ensures joins { Joins result [] }
        ensures nonce { result.nonce ≡ nonce }
    {
        Joiner {
            nonce,
            player: None,
        }
    }

    /// A datagram is heard: the first welcome makes the client's end, and what comes from the server after it arrives there.
    pub(crate) fn hear(&mut self, alloc: Global, peer: Peer, bytes: &[u8]) -> Result<(), NoMemory>
        ensures joins { OnOk result ((past : List Event) → Joins self.old past
            → Joins self.new (Heard (record { peer = peer; bytes = bytes.now }) ∷ past)) }
        ensures nonce { self.new.nonce ≡ self.old.nonce }
    {
        if let Some(player) = self.player.as_mut() {
            if is_of_server(peer) && is_arrival(bytes) {
                player.hear(bytes);
            }
            return Ok(());
        }
        if let Some(config) = welcomed(self.nonce, peer, bytes) {
            let player = Player::new(alloc, config, &match_kinds())?;
            put(&mut self.player, player);
        }
        Ok(())
    }

    // What the end of a turn sends.
    fn send<L: Link>(&mut self, link: &mut L) -> Result<(), Failed>
        ensures joins { OnOk result ((past : List Event) → Joins self.old past → Joins self.new (Turned ∷ past)) }
        ensures sent { OnOk result ((first : Option (List Datagram)) (past : List Event) → Joins self.old past
            → Adds first (L.sent link.old) (sends self.old.nonce past)
            → Adds first (L.sent link.new) (sends self.old.nonce (Turned ∷ past))) }
        ensures unsent { OnErr result (L.sent link.new ≡ L.sent link.old) }
        ensures nonce { self.new.nonce ≡ self.old.nonce }
        ensures ahead { L.ahead link.new ≡ L.ahead link.old }
        ensures cause { HasCause (L.faults link.old) (L.faults link.new) result }
    {
        match self.player.as_mut() {
            Some(player) => player.play(link),
            None => link.send(SERVER, &hello_with(self.nonce)),
        }
    }

    /// The end of a turn's listening: a hello where no welcome came, and else a move and the client's next datagram.
    pub(crate) fn end_turn<L: Link>(&mut self, link: &mut L) -> Result<(), NetFault>
        ensures joins { OnOk result ((past : List Event) → Joins self.old past → Joins self.new (Turned ∷ past)) }
        ensures sent { OnOk result ((first : Option (List Datagram)) (past : List Event) → Joins self.old past
            → Adds first (L.sent link.old) (sends self.old.nonce past)
            → Adds first (L.sent link.new) (sends self.old.nonce (Turned ∷ past))) }
        ensures unsent { OnErr result (L.sent link.new ≡ L.sent link.old) }
        ensures nonce { self.new.nonce ≡ self.old.nonce }
        ensures ahead { L.ahead link.new ≡ L.ahead link.old }
        ensures cause { HandsOnEach (counts (L.faults link.old) 0 0) (counts (L.faults link.new) 0 0) result }
    {
        match self.send(link) {
            Ok(()) => Ok(()),
            Err(_) => Err(NetFault::LinkFault),
        }
    }

    /// What is written at the end: the client's copies, or that there was no welcome.
    pub(crate) fn ending(&self, alloc: Global) -> Result<Vec<u8>, NoMemory>
        ensures { IfOk result (λ text. (past : List Event) → Joins self.now past → text.items ≡ ending self.now.nonce past) }
    {
        let mut text = Vec::new(alloc);
        let Some(player) = self.player.as_ref() else {
            return match text.extend_from_slice(b"join none\n") {
                Ok(()) => Ok(text),
                Err(_) => Err(NoMemory),
            };
        };
        let end = player.end();
        let copies = copies_told(alloc, end.copies())?;
        let mut word = String::new(alloc);
        if write!(word, "join {}", end.config().client).is_err() {
            return Err(NoMemory);
        }
        put_shown(
            alloc,
            word.as_str(),
            end.delivered(),
            copies.as_slice(),
            &mut text,
        )?;
        Ok(text)
    }
}
