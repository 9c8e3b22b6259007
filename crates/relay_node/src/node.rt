//! A relay: its match, and its spectators.
ghost use Rattle.std.specs.Prelude.{◌≡◌, ◌<◌, ◌≤◌, [], IfOk, OnOk, length};
ghost use Rattle.std.specs.Option.{option_copied};
ghost use Rattle.match_script.specs.Ranges.{HeadFits};
ghost use Rattle.relay_script.specs.Ranges.{HasRelayRanges};
ghost use Rattle.relay_spectator.specs.Spectators.{Follows};
ghost use Rattle.relay_report.specs.Met.{spectator_terms};
ghost use Rattle.relay_report.specs.Report.{named};
ghost use Rattle.relay_node.specs.Node.{came_with, events_taken, MayTakeAll, TakeAll, AreNew, plain_of};

use match_report::{EventTold, Told};
use match_script::{BodyLine, Head};
use relay_report::match_engine::Match;
use relay_script::{RelayLine, RelayScript};
use relay_spectator::Spectator;
use relay_spectator::alone_server::AloneHeader;
use relay_spectator::relay_board::{Board, none_beyond};
use std::alloc::Global;
use std::marker::Model;
use tn_types::NoMemory;

/// The match of a relay, what its client's copies were, and its spectators. After an error it has ended: no other line may be done.
///
/// A clause sees `NodeState`, and what it means by the lines that were done.
pub(crate) struct Node<'a> {
    // the client that is the relay
    relay: u8,
    game: Match<'a>,
    board: Board,
    spectators: Vec<Spectator>,
}

// Written out, so that a function that lets a node go calls this, and doesn't prove again how its parts are let go.
impl Drop for Node<'_> {
    fn drop(self) {
        let Node {
            relay: _relay,
            game: _game,
            board: _board,
            spectators: _spectators,
        } = self;
    }
}

impl<'a> Model for Node<'a> {
    ghost use Rattle.relay_node.specs.Node.{NodeState};

    ghost Value = { NodeState };

    ghost view = { λ n. record { relay = n.relay; game = n.game; board = n.board; spectators = n.spectators.items } };
}

// A spectator by the header of the match.
#[tactic(auto, using(own_lists::proofs::Configs::config_fits))]
fn new_spectator(alloc: Global, head: &Head, number: u8) -> Result<Spectator, NoMemory>
    requires fits { HeadFits head.now }
    requires number { number < 16 }
    ensures { IfOk result (λ s. Follows s (spectator_terms head.now number) []) }
{
    let header = AloneHeader {
        client: number,
        life: head.life,
        size: head.size,
        version: head.version,
        blocks: head.blocks.copy(alloc)?,
    };
    Spectator::new(alloc, &header)
}

// So many spectators.
fn new_spectators(alloc: Global, head: &Head, count: u8) -> Result<Vec<Spectator>, NoMemory>
    requires fits { HeadFits head.now }
    requires few { count ≤ 16 }
    ensures { IfOk result (λ spectators. AreNew spectators.items head.now count) }
{
    let mut spectators = Vec::new(alloc);
    for number in 0..count {
        let spectator = new_spectator(alloc, head, number)?;
        let Ok(()) = spectators.push(spectator) else {
            return Err(NoMemory);
        };
    }
    Ok(spectators)
}

// The events that a line hands out, if it brings a datagram that is taken.
fn came_with(told: &Told) -> Option<&[EventTold]>
    ensures { option_copied result ≡ came_with told.now }
{
    match told {
        Told::Came {
            way: _,
            client: _,
            k: _,
            moves: _,
            events,
        } => Some(events.as_slice()),
        _ => None,
    }
}

// The events that the client of a relay was delivered by a line, if the line brought it a datagram that it took.
fn events_taken<'t>(relay: u8, line: &BodyLine, told: &'t Told) -> Option<&'t [EventTold]>
    ensures { option_copied result ≡ events_taken relay line.now told.now }
{
    match line {
        BodyLine::Down { client, k: _ } => {
            if *client == relay {
                came_with(told)
            } else {
                None
            }
        }
        _ => None,
    }
}

// Tells each spectator what the client's packet changed.
fn take_all(
    alloc: Global,
    spectators: &mut Vec<Spectator>,
    board: &Board,
    events: &[EventTold],
) -> Result<(), NoMemory>
    requires { MayTakeAll spectators.old.items board.now.killed board.now.changed events.now }
    ensures count { length spectators.new.items ≡ length spectators.old.items }
    ensures takes { OnOk result
        (TakeAll spectators.old.items board.now.killed board.now.changed events.now spectators.new.items) }
{
    for i in 0..spectators.len() {
        spectators[i].take(alloc, board.killed(), board.changed(), events)?;
    }
    Ok(())
}

// The plain form of a line that a spectator's connection does by itself.
fn plain_line(line: &RelayLine) -> Option<BodyLine>
    ensures { result ≡ plain_of line.now }
{
    match line {
        RelayLine::Pack { spectator } => Some(BodyLine::Pack { client: *spectator }),
        RelayLine::ClientPack { spectator } => Some(BodyLine::ClientPack { client: *spectator }),
        RelayLine::Down { spectator, packet } => Some(BodyLine::Down {
            client: *spectator,
            k: *packet,
        }),
        RelayLine::Up { spectator, packet } => Some(BodyLine::Up {
            client: *spectator,
            k: *packet,
        }),
        RelayLine::Scan { spectator: _ } | RelayLine::Show { spectator: _ } => None,
    }
}

// The spectator that a line names.
fn spectator_named(line: &RelayLine) -> u8
    ensures { result ≡ named line.now }
{
    match line {
        RelayLine::Scan { spectator } => *spectator,
        RelayLine::Pack { spectator } => *spectator,
        RelayLine::ClientPack { spectator } => *spectator,
        RelayLine::Down {
            spectator,
            packet: _,
        } => *spectator,
        RelayLine::Up {
            spectator,
            packet: _,
        } => *spectator,
        RelayLine::Show { spectator } => *spectator,
    }
}

impl<'a> Node<'a> {
    ghost use Rattle.relay_node.specs.Node.{Stands, MayPlay, Plays, MayRelay, Relays, TellsRelayed, Stays, Keeps};

    /// A relay of which no line was done.
    pub(crate) fn new(alloc: Global, script: &'a RelayScript) -> Result<Node<'a>, NoMemory>
        requires { HasRelayRanges script.now }
        ensures stands { IfOk result (λ n. Stands n []) }
        ensures relay { IfOk result (λ n. n.relay ≡ script.now.client) }
        ensures script { IfOk result (λ n. n.game.script ≡ script.now.script) }
        ensures count { IfOk result (λ n. length n.spectators ≡ script.now.spectators) }
    {
        let game = Match::new(alloc, &script.script)?;
        let board = Board::new(alloc)?;
        let spectators = new_spectators(alloc, &script.script.head, script.spectators)?;
        Ok(Node {
            relay: script.client,
            game,
            board,
            spectators,
        })
    }

    /// Does a line of the match.
    pub(crate) fn play(&mut self, alloc: Global, line: &BodyLine) -> Result<(), NoMemory>
        requires { MayPlay self.old line.now }
        ensures plays { OnOk result (Plays self.old line.now self.new) }
        ensures keeps { Keeps self.old self.new }
    {
        self.game.feed(alloc, line)?;
        let Some(told) = self.game.told() else {
            unreachable!()
        };
        let Some(events) = events_taken(self.relay, line, told) else {
            return Ok(());
        };
        let copies = self.game.pair(self.relay).client().copies();
        none_beyond(copies);
        self.board.follow(copies)?;
        take_all(alloc, &mut self.spectators, &self.board, events)
    }

    /// Does a line of the relay, and tells what it did.
    pub(crate) fn relay(&mut self, alloc: Global, line: &RelayLine) -> Result<Told, NoMemory>
        requires { MayRelay self.old line.now }
        ensures relays { OnOk result (Relays self.old line.now self.new) }
        ensures told { IfOk result (TellsRelayed self.old line.now) }
        ensures keeps { Keeps self.old self.new }
    {
        let at = spectator_named(line) as usize;
        match plain_line(line) {
            Some(line) => self.spectators[at].line(alloc, line),
            None => match line {
                RelayLine::Scan { spectator: _ } => {
                    let copies = self.game.pair(self.relay).client().copies();
                    none_beyond(copies);
                    self.spectators[at].scan(alloc, copies)
                }
                _ => self.spectators[at].show(alloc),
            },
        }
    }

    /// Gives back the bytes of a datagram that is told no more, so that the next one needs no memory.
    pub(crate) fn let_go(&mut self, told: Told)
        ensures stays { Stays self.old self.new }
        ensures keeps { Keeps self.old self.new }
    {
        if let Told::Packed {
            by: _,
            client,
            place: _,
            kind: _,
            bytes,
        } = told
        {
            if (client as usize) < self.spectators.len() {
                self.spectators[client as usize].give_back(bytes);
            }
        }
    }
}
