//! One spectator of a relay: what serves it, and what it is told.
ghost use Rattle.std.specs.Prelude.{◌≡◌, OnOk, map};
ghost use Rattle.alone_server.specs.own_items.Items.{write_of};
ghost use Rattle.relay_spectator.specs.Spectators.{is_refused, is_guaranteed};
ghost use Rattle.relay_spectator.specs.Feeding.{MayEndSome, Ends};

use crate::watch::Watch;
use alone_server::own_items::{Hides, Nears, OwnItem, OwnWrites, Shows};
use alone_server::{AloneHeader, AloneServer};
use ghost_client::Copies;
use match_report::{EventTold, Told};
use match_script::{BodyLine, LinePayload};
use relay_board::Change;
use std::alloc::Global;
use tn_types::{Class, NoMemory, Payload, RawBytes};

/// A spectator of a relay. Its server serves it alone, and knows nothing but what the relay tells it: which copies the relay's client
/// has, which of their fields have other levels, and which events it was delivered.
pub struct Spectator {
    pub(crate) number: u8,
    pub(crate) server: AloneServer,
    pub(crate) watch: Watch,
    // a post was refused: no other one is made
    pub(crate) stopped: bool,
}

// Written out, so that a function that lets a spectator go calls this, and doesn't prove again how its parts are let go.
impl Drop for Spectator {
    fn drop(self) {
        let Spectator {
            number: _number,
            server: _server,
            watch: _watch,
            stopped: _stopped,
        } = self;
    }
}

// Whether a post was refused.
fn is_refused(told: &Option<Told>) -> bool
    ensures { result ≡ is_refused told.now }
{
    match told {
        Some(
            Told::Post {
                by: _,
                client: _,
                number,
            },
        ) => number.is_err(),
        _ => false,
    }
}

fn is_guaranteed(class: Class) -> bool
    ensures { result ≡ is_guaranteed class }
{
    match class {
        Class::Guaranteed => true,
        Class::Loose => false,
    }
}

// Feeds a server what ends, and then what is written.
fn feed_both(
    alloc: Global,
    server: &mut AloneServer,
    hides: Hides,
    writes: OwnWrites,
) -> Result<(), NoMemory>
    requires { MayEndSome server.old hides (map write_of writes) }
    ensures { OnOk result (Ends server.old hides (map write_of writes) server.new) }
{
    let ends = OwnItem::Scan {
        hides,
        nears: Nears::from_vec(Vec::new(alloc)),
        shows: Shows::from_vec(Vec::new(alloc)),
    };
    let _told = server.feed(alloc, &ends)?;
    let _told = server.feed(alloc, &OwnItem::Tick { writes, taken: 0 })?;
    Ok(())
}

impl Spectator {
    ghost use Rattle.std.specs.Prelude.{[], ◌∷◌, Some, IfOk, filter_map};
    ghost use Rattle.match_script.specs.Named.{client_named};
    ghost use Rattle.alone_server.specs.Stands.{terms_of, HeaderFits};
    ghost use Rattle.relay_spectator.specs.Spectators.{Follows, Takes, MayTake, MayScan, ScansOf, TellsScan, IsAsked, MayDo, Does, TellsLine, MayShow, TellsShow, Stays, payloads_of};
    ghost use Rattle.relay_spectator.specs.Watches.{period_at, write_at};
    ghost use Rattle.relay_spectator.specs.Feeding.{MayChange, Changes, MayPost, Posts};

    /// A spectator that was told nothing.
    pub fn new(alloc: Global, header: &AloneHeader) -> Result<Spectator, NoMemory>
        requires { HeaderFits header.now }
        ensures { IfOk result (λ s. Follows s (terms_of header.now) []) }
    {
        let server = AloneServer::new(alloc, header)?;
        let watch = Watch::new(alloc)?;
        Ok(Spectator {
            number: header.client,
            server,
            watch,
            stopped: false,
        })
    }

    // What a packet of the relay's client ends and writes of this spectator's periods.
    fn changes(
        &self,
        alloc: Global,
        killed: &[u8],
        changed: &[Change],
    ) -> Result<(Hides, OwnWrites), NoMemory>
        ensures hides { IfOk result (λ r. r.0 ≡ filter_map (period_at self.now.watch.periods) killed.now) }
        ensures writes { IfOk result (λ r. map write_of r.1 ≡ filter_map (write_at self.now.watch.periods) changed.now) }
    {
        let Ok(hides) = self.watch.hides(alloc, killed) else {
            return Err(NoMemory);
        };
        let Ok(writes) = self.watch.writes(alloc, changed) else {
            return Err(NoMemory);
        };
        Ok((hides, writes))
    }

    // Of a packet that the relay's client took: what it killed, and what it gave other levels.
    fn change(&mut self, alloc: Global, killed: &[u8], changed: &[Change]) -> Result<(), NoMemory>
        requires { MayChange self.old killed.now changed.now }
        ensures { OnOk result (Changes self.old killed.now changed.now self.new) }
    {
        let (hides, writes) = self.changes(alloc, killed, changed)?;
        self.watch.leave(killed);
        feed_both(alloc, &mut self.server, hides, writes)
    }

    // Posts an event, unless one before it was refused.
    fn post(&mut self, alloc: Global, payload: &Payload) -> Result<(), NoMemory>
        requires { MayPost self.old }
        ensures { OnOk result (Posts self.old (payload.now ∷ []) self.new) }
    {
        if self.stopped {
            return Ok(());
        }
        let payload = LinePayload::new(alloc, payload.copy())?;
        let line = BodyLine::Post {
            client: self.number,
            class: Class::Guaranteed,
            payload,
        };
        let told = self.server.feed(alloc, &OwnItem::Line { line })?;
        self.stopped = is_refused(&told);
        Ok(())
    }

    // Posts the guaranteed ones of these events, until one is refused.
    fn post_all(&mut self, alloc: Global, events: &[EventTold]) -> Result<(), NoMemory>
        requires { MayPost self.old }
        ensures { OnOk result (Posts self.old (payloads_of events.now) self.new) }
    {
        for event in events {
            if is_guaranteed(event.class) {
                self.post(alloc, &event.payload)?;
            }
        }
        Ok(())
    }

    /// The relay's client took a packet, which changed this of its copies and delivered these events. After an error the spectator may
    /// be told nothing more, here and below.
    pub fn take(
        &mut self,
        alloc: Global,
        killed: &[u8],
        changed: &[Change],
        events: &[EventTold],
    ) -> Result<(), NoMemory>
        requires { MayTake self.old killed.now changed.now events.now }
        ensures { OnOk result (Takes self.old killed.now changed.now events.now self.new) }
    {
        self.change(alloc, killed, changed)?;
        self.post_all(alloc, events)
    }

    /// The copies of the relay's client that aren't shown yet are shown.
    pub fn scan(&mut self, alloc: Global, copies: &Copies) -> Result<Told, NoMemory>
        requires { MayScan self.old copies.now }
        ensures scans { OnOk result (ScansOf self.old copies.now self.new) }
        ensures told { IfOk result (TellsScan self.old copies.now) }
    {
        let Ok(shows) = self.watch.begin(alloc, copies) else {
            return Err(NoMemory);
        };
        let item = OwnItem::Scan {
            hides: Hides::from_vec(Vec::new(alloc)),
            nears: Nears::from_vec(Vec::new(alloc)),
            shows,
        };
        match self.server.feed(alloc, &item)? {
            Some(told) => Ok(told),
            None => unreachable!(),
        }
    }

    /// Does another line of the spectator, which isn't `show`.
    pub fn line(&mut self, alloc: Global, line: BodyLine) -> Result<Told, NoMemory>
        requires may { MayDo self.old line }
        requires asked { IsAsked line }
        requires named { client_named line ≡ Some self.old.number }
        ensures does { OnOk result (Does self.old line self.new) }
        ensures told { IfOk result (TellsLine self.old line) }
    {
        match self.server.feed(alloc, &OwnItem::Line { line })? {
            Some(told) => Ok(told),
            None => unreachable!(),
        }
    }

    /// What the spectator has.
    pub fn show(&self, alloc: Global) -> Result<Told, NoMemory>
        requires { MayShow self.now }
        ensures { IfOk result (TellsShow self.now) }
    {
        self.server.show(alloc)
    }

    /// Gives back the bytes of a datagram of this spectator that is told no more, so that the next one needs no memory.
    pub fn give_back(&mut self, bytes: RawBytes)
        ensures { Stays self.old self.new }
    {
        self.server.give_back(bytes)
    }
}
