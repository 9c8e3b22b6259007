//! The server of one client that is fed the client's own list.
ghost use Rattle.std.specs.Prelude.{◌≡◌, List, [], IfOk, OnOk, map, if◌then◌else◌};
ghost use Rattle.own_lists.specs.Own as own;
ghost use Rattle.own_lists.specs.declared.showing.Showing.{Showing as How};
ghost use Rattle.own_items.specs.Items.{show_of, write_of, item_of};

use crate::periods::{OwnPeriod, drain_all, hide_all, marks_of, show_all, write_each};
use crate::values::AloneValues;
use client_scope::Near;
use match_report::Told;
use match_script::{Blocks, BodyLine};
use own_items::client_seat::Seat;
use own_items::match_engine::line_on;
use own_items::{OwnItem, OwnShow, OwnWrite};
use own_lists::Showing;
use std::alloc::{AllocError, Global};
use stream_manager::Config;
use tn_types::{Drain, NoMemory, RawBytes, WORLD_MOVE_BITS};
use world_rules::match_kinds;

/// What the header of a match says of one client's connection.
#[derive(Drop)]
pub struct AloneHeader {
    /// The client's number, 0 to 15.
    pub client: u8,
    /// What ends each counter of the connection: 1 to 16,777,215.
    pub life: u32,
    /// Bytes of a datagram at the most: 128 to 1,200.
    pub size: u32,
    /// The version of the datagrams: 1 or 2.
    pub version: u8,
    /// What the client is to hold: at most 64 blocks.
    pub blocks: Blocks,
}

/// A server that serves one client alone. It knows nothing of the match but what it is fed: the items of the client's own list
/// (docs/proofs/match.md, "Own lists").
pub struct AloneServer {
    pub(crate) client: u8,
    pub(crate) seat: Seat,
    // the shown periods, by rising number, and how many were shown so far
    pub(crate) periods: Vec<OwnPeriod>,
    pub(crate) shows: u32,
    // scans and packs so far
    pub(crate) counted: u32,
    // room for what a scan begins and a pack drains
    begins: Vec<Showing>,
    drains: Vec<Drain>,
}

// Written out, so that a function that lets a server go calls this, and doesn't prove again how its parts are let go.
impl Drop for AloneServer {
    fn drop(self) {
        let AloneServer {
            client: _client,
            seat: _seat,
            periods: _periods,
            shows: _shows,
            counted: _counted,
            begins: _begins,
            drains: _drains,
        } = self;
    }
}

/// How these periods begin.
fn showings(shows: &[OwnShow], out: &mut Vec<Showing>) -> Result<(), AllocError>
    ensures { OnOk result (out.new.items ≡ map (λ s. (show_of s).how) shows.now) }
{
    out.clear();
    for show in shows {
        out.push(Showing {
            kind: show.kind,
            block: show.block,
            level: show.level,
            control: show.control,
        })?;
    }
    Ok(())
}

impl AloneServer {
    ghost use Rattle.std.specs.Prelude.{Some};
    ghost use Rattle.stream_manager.specs.Limits.{Terms};
    ghost use Rattle.match_script.specs.declared.types.BodyLine.TheVariants as script;
    ghost use Rattle.alone_server.specs.Stands.{terms_of, HeaderFits, is_counted, StandsFor, MayFeed, MayServe, MayShow, Feeds, Goes, Tells, Shows};
    ghost use Rattle.own_items.specs.match_engine.Stands.{IsDirect};

    /// A server that was fed nothing.
    pub fn new(alloc: Global, header: &AloneHeader) -> Result<AloneServer, NoMemory>
        requires { HeaderFits header.now }
        ensures { IfOk result (λ a. StandsFor a (terms_of header.now) []) }
    {
        let config = Config {
            client: header.client,
            life: header.life,
            size: header.size,
            version: header.version,
            move_bits: WORLD_MOVE_BITS as u8,
        };
        let seat = Seat::new(alloc, config, &match_kinds(), header.blocks.as_slice())?;
        Ok(AloneServer {
            client: header.client,
            seat,
            periods: Vec::new(alloc),
            shows: 0,
            counted: 0,
            begins: Vec::new(alloc),
            drains: Vec::new(alloc),
        })
    }

    // 1 for an item of those that are counted.
    fn count_of(item: &OwnItem) -> u32
        ensures { result ≡ (if is_counted (item_of item.now) then 1 else 0) }
    {
        match item {
            OwnItem::Line { line } => match line {
                BodyLine::Pack { client: _ } | BodyLine::ClientPack { client: _ } => 1,
                _ => 0,
            },
            OwnItem::Scan {
                hides: _,
                nears: _,
                shows: _,
            } => 1,
            OwnItem::Tick {
                writes: _,
                taken: _,
            } => 0,
        }
    }

    /// Takes the next item of the client's own list, and tells what the report tells of it: nothing of a tick, nor of a line that
    /// only shows the client. After an error the server may not be fed again.
    pub fn feed(&mut self, alloc: Global, item: &OwnItem) -> Result<Option<Told>, NoMemory>
        requires { MayFeed self.old (item_of item.now) }
        ensures stands { OnOk result (Feeds self.old (item_of item.now) self.new) }
        ensures told { IfOk result (Tells self.old (item_of item.now)) }
    {
        self.counted += AloneServer::count_of(item);
        self.feed_uncounted(alloc, item)
    }

    // The same without the count.
    fn feed_uncounted(&mut self, alloc: Global, item: &OwnItem) -> Result<Option<Told>, NoMemory>
        requires { MayServe self.old (item_of item.now) }
        ensures goes { OnOk result (Goes self.old (item_of item.now) self.new) }
        ensures counted { self.new.counted ≡ self.old.counted }
        ensures told { IfOk result (Tells self.old (item_of item.now)) }
    {
        match item {
            OwnItem::Line { line } => match line {
                BodyLine::Pack { client } => Ok(Some(self.pack(alloc, *client)?)),
                BodyLine::Show { client: _ } => Ok(None),
                _ => Ok(Some(self.direct(alloc, line)?)),
            },
            OwnItem::Scan {
                hides,
                nears,
                shows,
            } => Ok(Some(self.scan(hides.as_slice(), nears.as_slice(), shows.as_slice())?)),
            OwnItem::Tick { writes, taken } => {
                self.tick(writes.as_slice(), *taken);
                Ok(None)
            }
        }
    }

    // Does a line on the client's connection alone.
    fn direct(&mut self, alloc: Global, line: &BodyLine) -> Result<Told, NoMemory>
        requires direct { IsDirect line.now }
        requires may { MayServe self.old (own.Line line.now) }
        ensures goes { OnOk result (Goes self.old (own.Line line.now) self.new) }
        ensures counted { self.new.counted ≡ self.old.counted }
        ensures told { IfOk result (λ told. Tells self.old (own.Line line.now) (Some told)) }
    {
        line_on(alloc, &mut self.seat, line)
    }

    // The client's scope is brought up to date.
    fn scan(&mut self, hides: &[u32], nears: &[Near], shows: &[OwnShow]) -> Result<Told, NoMemory>
        requires { MayServe self.old (own.Scan hides.now nears.now (map show_of shows.now)) }
        ensures goes { OnOk result (Goes self.old (own.Scan hides.now nears.now (map show_of shows.now)) self.new) }
        ensures counted { self.new.counted ≡ self.old.counted }
        ensures told { IfOk result (λ told. Tells self.old (own.Scan hides.now nears.now (map show_of shows.now)) (Some told)) }
    {
        hide_all(&mut self.periods, hides);
        let Ok(count) = show_all(&mut self.periods, self.shows, shows) else {
            return Err(NoMemory);
        };
        let Ok(()) = showings(shows, &mut self.begins) else {
            return Err(NoMemory);
        };
        self.shows = count;
        self.seat.scan(hides, nears, &self.begins);
        Ok(Told::Scan {
            client: self.client,
            hides: hides.len(),
            nears: nears.len(),
            shows: shows.len(),
        })
    }

    // Objects in shown periods have other values, and a move may be taken.
    fn tick(&mut self, writes: &[OwnWrite], taken: u32)
        requires { MayServe self.old (own.Tick (map write_of writes.now) taken) }
        ensures goes { Goes self.old (own.Tick (map write_of writes.now) taken) self.new }
        ensures counted { self.new.counted ≡ self.old.counted }
    {
        write_each(&mut self.periods, writes);
        if taken != 0 {
            let _move = self.seat.take_move();
        }
    }

    // The server makes its next datagram.
    fn pack(&mut self, alloc: Global, client: u8) -> Result<Told, NoMemory>
        requires { MayServe self.old (own.Line (script.Pack client)) }
        ensures told { IfOk result (λ told. Tells self.old (own.Line (script.Pack client)) (Some told)) }
        ensures goes { OnOk result (Goes self.old (own.Line (script.Pack client)) self.new) }
        ensures counted { self.new.counted ≡ self.old.counted }
    {
        let Ok(()) = drain_all(self.seat.pack_state(), &mut self.periods, &mut self.drains) else {
            return Err(NoMemory);
        };
        let mut values = AloneValues {
            periods: &self.periods,
        };
        self.seat
            .pack(alloc, self.client, &self.drains, &mut values)
    }

    /// What the client has: what the report tells of a line that shows it.
    pub fn show(&self, alloc: Global) -> Result<Told, NoMemory>
        requires { MayShow self.now }
        ensures { IfOk result (Shows self.now) }
    {
        let mut written = Vec::new(alloc);
        let Ok(()) = marks_of(&self.periods, &mut written) else {
            return Err(NoMemory);
        };
        self.seat.show(alloc, self.client, &written)
    }

    /// Gives back the bytes of a datagram of this connection that is told no more, so that the next one needs no memory.
    pub fn give_back(&mut self, bytes: RawBytes)
        ensures { (t : Terms) (items : List own.OwnItem) → StandsFor self.old t items → StandsFor self.new t items }
    {
        self.seat.give_back(bytes)
    }
}
