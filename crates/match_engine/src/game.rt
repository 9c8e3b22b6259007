//! What a match holds: its world, and the connection and the scope of each client.
ghost use Rattle.std.specs.Prelude.{◌≡◌, true, ℕ, ◌<◌, ◌≤◌, List, [], ◌∷◌, IfOk, OnOk, Some, None, length, nat_le};
ghost use Rattle.std.specs.Prelude.{slice_index_or};
ghost use Rattle.match_script.specs.Ranges.{HeadFits};
ghost use Rattle.stream_manager.specs.Limits.{IsConfig};
ghost use Rattle.client_scope.specs.StandsFor.{Table, StandsFor as ScopeStandsFor};
ghost use Rattle.match_laws.specs.own_lists.Counted.{counted};
ghost use Rattle.match_script.specs.Named.{client_named};
ghost use Rattle.match_laws.specs.own_lists.Course.{beginning};
ghost use Rattle.match_laws.specs.own_lists.Past.{client_terms};
ghost use Rattle.match_laws.specs.client_seat.Stands.{SeatState, StandsFor as SeatStandsFor};
ghost use Rattle.match_engine.specs.Stands.{keeps_all};

use crate::lanes::raise_all;
use crate::lines::line_on;
use crate::serving::{Room, pack_for, scan_for, show_for};
use crate::ticking::{living_of, take_moves};
use client_scope::Scope;
use dirty_lanes::PlainLanes;
use ghost_scope::PlaceNotes;
use match_laws::client_seat::Seat;
use match_laws::pair_core::Pair;
use match_report::Told;
use match_script::{BodyLine, Head, MAX_COUNTED_LINES};
use quantised_fields::KindTable;
use std::alloc::Global;
use std::marker::Model;
use stream_manager::Config;
use tn_types::{
    BlockBytes, MAX_BLOCKS, MAX_CLIENTS, MAX_OBJECTS, MoveBits, NoMemory, RawBytes, WORLD_MOVE_BITS,
};
use world_rules::match_kinds;
use world_sim::World;

/// The world of a match, and for each of its clients, at most 16, a connection and a scope.
///
/// A clause sees `GameState`, and what it means by the lines that were done.
#[derive(Drop)]
pub(crate) struct Game<'a> {
    head: &'a Head,
    seats: Vec<Seat>,
    scopes: Vec<Scope>,
    world: World,
    lanes: PlainLanes,
    // room for the moves of a tick, and for what a line works in
    moves: Vec<Option<MoveBits>>,
    room: Room,
    // so many lines were done of those that are counted
    done: u32,
}

impl<'a> Model for Game<'a> {
    ghost use Rattle.std.specs.Prelude.{List};
    ghost use Rattle.match_engine.specs.Stands.{GameState};

    ghost Value = { GameState };

    ghost view = { λ m. record {
      head = m.head.now;
      seats = m.seats.items;
      scopes = m.scopes.items;
      world = m.world;
      lanes = m.lanes;
      done = m.done;
    } };
}

/// Which datagrams of its server a connection keeps.
#[derive(Clone, Copy, Debug, PartialEq, Eq)]
pub(crate) enum Keeps {
    /// All, for lines `down`.
    All,
    /// The newest alone: the others were handed on.
    Newest,
}

// 1 for a line of those that are counted.
fn counted(line: &BodyLine) -> u32
    ensures value { result ≡ counted line.now }
    ensures one { result ≤ 1 }
{
    match line {
        BodyLine::Tick => 1,
        BodyLine::Scan { client: _ } => 1,
        BodyLine::Pack { client: _ } => 1,
        BodyLine::ClientPack { client: _ } => 1,
        _ => 0,
    }
}

// A connection, which keeps these datagrams.
fn seat_of(
    alloc: Global,
    config: Config,
    kinds: &KindTable,
    blocks: &[BlockBytes],
    keeps: Keeps,
) -> Result<Seat, NoMemory>
    requires config { IsConfig config }
    requires few { length blocks.now ≤ MAX_BLOCKS }
    ensures stands { IfOk result
        (λ s. SeatStandsFor s (record { config = config; kinds = kinds.now; blocks = blocks.now }) beginning) }
    ensures keeps { IfOk result (λ s. s.pair.keeps_all ≡ keeps_all keeps) }
{
    match keeps {
        Keeps::All => Seat::new(alloc, config, kinds, blocks),
        Keeps::Newest => Seat::passing(alloc, config, kinds, blocks),
    }
}

// The connection of each client.
fn seats_of(alloc: Global, head: &Head, keeps: Keeps) -> Result<Vec<Seat>, NoMemory>
    requires { HeadFits head.now }
    ensures stands { IfOk result (λ seats. (length seats.items ≡ head.now.clients) × ((c : ℕ) (d : SeatState) → c < head.now.clients
        → SeatStandsFor (slice_index_or seats.items c d) (client_terms head.now c) beginning)) }
    ensures keeps { IfOk result (λ seats. (c : ℕ) (d : SeatState) → c < head.now.clients
        → (slice_index_or seats.items c d).pair.keeps_all ≡ keeps_all keeps) }
{
    let kinds = match_kinds();
    let mut seats = Vec::new(alloc);
    'seats: for client in 0..head.clients {
        let config = Config {
            client,
            life: head.life,
            size: head.size,
            version: head.version,
            move_bits: WORLD_MOVE_BITS as u8,
        };
        let seat = seat_of(alloc, config, &kinds, head.blocks.as_slice(), keeps)?;
        if seats.push(seat).is_err() {
            return Err(NoMemory);
        }
    }
    Ok(seats)
}

// The scope of each client.
fn scopes_of(alloc: Global, clients: u8) -> Result<Vec<Scope>, NoMemory>
    ensures { IfOk result (λ scopes. (length scopes.items ≡ clients) × ((c : ℕ) (e : Table) → c < clients
        → ScopeStandsFor (slice_index_or scopes.items c e) [])) }
{
    let mut scopes = Vec::new(alloc);
    'scopes: for _client in 0..clients {
        let scope = Scope::new(alloc)?;
        if scopes.push(scope).is_err() {
            return Err(NoMemory);
        }
    }
    Ok(scopes)
}

impl<'a> Game<'a> {
    ghost use Rattle.match_script.specs.declared.types.BodyLine.{BodyLine as OneLine};
    ghost use Rattle.match_script.specs.declared.types.BodyLine.TheVariants as script;
    ghost use Rattle.match_script.specs.Ranges.{LineFits};
    ghost use Rattle.match_laws.specs.Report.{told_after};
    ghost use Rattle.match_engine.specs.Stands.{StandsFor, Does, Answers, IsDirect, IsDown, KeepAll};

    /// A match of this header, of which no line was done. Its connections keep these datagrams of those that their servers send.
    pub(crate) fn new(alloc: Global, head: &'a Head, keeps: Keeps) -> Result<Game<'a>, NoMemory>
        requires { HeadFits head.now }
        ensures stands { IfOk result (λ m. StandsFor m []) }
        ensures head { IfOk result (λ m. m.head ≡ head.now) }
        ensures keeps { IfOk result (λ m. keeps_all keeps ≡ true → KeepAll m.seats) }
    {
        let seats = seats_of(alloc, head, keeps)?;
        let scopes = scopes_of(alloc, head.clients)?;
        let lanes = PlainLanes::new(alloc, MAX_OBJECTS as u32, u32::from(MAX_CLIENTS))?;
        let world = World::new(alloc, head.seed, &head.setup)?;
        Ok(Game {
            head,
            seats,
            scopes,
            world,
            lanes,
            moves: Vec::new(alloc),
            room: Room {
                seen: Vec::new(alloc),
                shows: Vec::new(alloc),
                drains: Vec::new(alloc),
                places: PlaceNotes::new(),
            },
            done: 0,
        })
    }

    /// As many lines were done of those that are counted as may be.
    pub(crate) fn is_full(&self) -> bool
        ensures { result ≡ nat_le MAX_COUNTED_LINES self.now.done }
    {
        self.done >= MAX_COUNTED_LINES
    }

    /// The connection of a client, after what its own list leaves of its course.
    pub(crate) fn pair(&self, client: u8) -> &Pair
        requires { client < length self.now.seats }
        ensures { (d : SeatState) → result.now ≡ (slice_index_or self.now.seats client d).pair }
    {
        self.seats[client as usize].pair()
    }

    /// Gives back the bytes of a client's datagram that is told no more, so that the next one needs no memory.
    pub(crate) fn give_back(&mut self, client: u8, bytes: RawBytes)
        ensures { self.new ≡ self.old }
    {
        if let Some(seat) = self.seats.get_mut(client as usize) {
            seat.give_back(bytes);
        }
    }

    /// How many accepted moves of a client wait for a tick, at most 32.
    pub(crate) fn waiting(&self, client: u8) -> u32
        requires { client < length self.now.seats }
        ensures { (d : SeatState) → result ≡ length (slice_index_or self.now.seats client d).waiting }
    {
        self.seats[client as usize].waiting()
    }

    /// The scope of a client.
    pub(crate) fn scope(&self, client: u8) -> &Scope
        requires { client < length self.now.scopes }
        ensures { (e : Table) → result.now ≡ slice_index_or self.now.scopes client e }
    {
        &self.scopes[client as usize]
    }

    /// The world as it is.
    pub(crate) fn world(&self) -> &World
        ensures { result.now ≡ self.now.world }
    {
        &self.world
    }

    /// Does one line, and gives what the report tells of it. A line `down` wants that each datagram is kept.
    pub(crate) fn feed(&mut self, alloc: Global, line: &BodyLine) -> Result<Told, NoMemory>
        requires stands { (past : List OneLine) × StandsFor self.old past }
        requires fits { LineFits self.old.head.clients line.now }
        requires few { self.old.done < MAX_COUNTED_LINES }
        requires kept { IsDown line.now → KeepAll self.old.seats }
        ensures told { IfOk result (Answers self.old (λ past. told_after self.old.head past line.now)) }
        ensures stands { OnOk result (Does self.old line.now self.new) }
        ensures head { self.new.head ≡ self.old.head }
        ensures keeps { OnOk result (KeepAll self.old.seats → KeepAll self.new.seats) }
    {
        match line.client() {
            Some(client) => self.of_client(alloc, client, line),
            None => self.of_world(alloc, line),
        }
    }

    // Does a line that names this client.
    fn of_client(&mut self, alloc: Global, client: u8, line: &BodyLine) -> Result<Told, NoMemory>
        requires named { client_named line.now ≡ Some client }
        requires stands { (past : List OneLine) × StandsFor self.old past }
        requires fits { LineFits self.old.head.clients line.now }
        requires few { self.old.done < MAX_COUNTED_LINES }
        requires kept { IsDown line.now → KeepAll self.old.seats }
        ensures told { IfOk result (Answers self.old (λ past. told_after self.old.head past line.now)) }
        ensures stands { OnOk result (Does self.old line.now self.new) }
        ensures head { self.new.head ≡ self.old.head }
        ensures keeps { OnOk result (KeepAll self.old.seats → KeepAll self.new.seats) }
    {
        match line {
            BodyLine::Scan { client: _ } => self.scan(alloc, client),
            BodyLine::Pack { client: _ } => self.pack(alloc, client),
            BodyLine::Show { client: _ } => self.show(alloc, client),
            _ => self.direct(alloc, client, line),
        }
    }

    // Does a line on its client's connection alone.
    fn direct(&mut self, alloc: Global, client: u8, line: &BodyLine) -> Result<Told, NoMemory>
        requires named { client_named line.now ≡ Some client }
        requires direct { IsDirect line.now }
        requires stands { (past : List OneLine) × StandsFor self.old past }
        requires fits { LineFits self.old.head.clients line.now }
        requires few { self.old.done < MAX_COUNTED_LINES }
        requires kept { IsDown line.now → KeepAll self.old.seats }
        ensures told { IfOk result (Answers self.old (λ past. told_after self.old.head past line.now)) }
        ensures stands { OnOk result (Does self.old line.now self.new) }
        ensures head { self.new.head ≡ self.old.head }
        ensures keeps { OnOk result (KeepAll self.old.seats → KeepAll self.new.seats) }
    {
        self.done += counted(line);
        line_on(alloc, &mut self.seats[client as usize], line)
    }

    // The scope of a client is brought up to date.
    fn scan(&mut self, alloc: Global, client: u8) -> Result<Told, NoMemory>
        requires client { client < self.old.head.clients }
        requires stands { (past : List OneLine) × StandsFor self.old past }
        requires few { self.old.done < MAX_COUNTED_LINES }
        ensures told { IfOk result (Answers self.old (λ past. told_after self.old.head past (script.Scan client))) }
        ensures stands { OnOk result (Does self.old (script.Scan client) self.new) }
        ensures head { self.new.head ≡ self.old.head }
        ensures keeps { OnOk result (KeepAll self.old.seats → KeepAll self.new.seats) }
    {
        self.done += 1;
        let place = client as usize;
        scan_for(
            alloc,
            &mut self.seats[place],
            &mut self.scopes[place],
            &self.world,
            &mut self.lanes,
            client,
            &mut self.room,
        )
    }

    // The server packs for a client.
    fn pack(&mut self, alloc: Global, client: u8) -> Result<Told, NoMemory>
        requires client { client < self.old.head.clients }
        requires stands { (past : List OneLine) × StandsFor self.old past }
        requires few { self.old.done < MAX_COUNTED_LINES }
        ensures told { IfOk result (Answers self.old (λ past. told_after self.old.head past (script.Pack client))) }
        ensures stands { OnOk result (Does self.old (script.Pack client) self.new) }
        ensures head { self.new.head ≡ self.old.head }
        ensures keeps { OnOk result (KeepAll self.old.seats → KeepAll self.new.seats) }
    {
        self.done += 1;
        let place = client as usize;
        pack_for(
            alloc,
            &mut self.seats[place],
            &self.scopes[place],
            &self.world,
            &mut self.lanes,
            client,
            &mut self.room,
        )
    }

    // What a client has is told.
    fn show(&mut self, alloc: Global, client: u8) -> Result<Told, NoMemory>
        requires client { client < self.old.head.clients }
        requires stands { (past : List OneLine) × StandsFor self.old past }
        requires few { self.old.done < MAX_COUNTED_LINES }
        ensures told { IfOk result (Answers self.old (λ past. told_after self.old.head past (script.Show client))) }
        ensures stands { OnOk result (Does self.old (script.Show client) self.new) }
        ensures head { self.new.head ≡ self.old.head }
        ensures keeps { OnOk result (KeepAll self.old.seats → KeepAll self.new.seats) }
    {
        let place = client as usize;
        show_for(
            alloc,
            &self.seats[place],
            &self.scopes[place],
            &self.lanes,
            client,
            &mut self.room.drains,
        )
    }

    // Does a line that names no client.
    fn of_world(&mut self, alloc: Global, line: &BodyLine) -> Result<Told, NoMemory>
        requires named { client_named line.now ≡ None }
        requires stands { (past : List OneLine) × StandsFor self.old past }
        requires few { self.old.done < MAX_COUNTED_LINES }
        ensures told { IfOk result (Answers self.old (λ past. told_after self.old.head past line.now)) }
        ensures stands { OnOk result (Does self.old line.now self.new) }
        ensures head { self.new.head ≡ self.old.head }
        ensures keeps { OnOk result (KeepAll self.old.seats → KeepAll self.new.seats) }
    {
        match line {
            BodyLine::Tick => self.tick(alloc),
            BodyLine::World => self.tell_world(alloc),
            _ => unreachable!(),
        }
    }

    // The world makes a tick, which takes each client's oldest waiting move.
    fn tick(&mut self, alloc: Global) -> Result<Told, NoMemory>
        requires stands { (past : List OneLine) × StandsFor self.old past }
        requires few { self.old.done < MAX_COUNTED_LINES }
        ensures told { IfOk result (Answers self.old (λ past. told_after self.old.head past script.Tick)) }
        ensures stands { OnOk result (Does self.old script.Tick self.new) }
        ensures head { self.new.head ≡ self.old.head }
        ensures keeps { OnOk result (KeepAll self.old.seats → KeepAll self.new.seats) }
    {
        let Ok(()) = take_moves(&mut self.seats, &mut self.moves) else {
            return Err(NoMemory);
        };
        self.world.tick(alloc, self.moves.as_slice())?;
        raise_all(&mut self.lanes, self.world.writes());
        self.done += 1;
        Ok(Told::Tick {
            ticks: self.world.ticks(),
            writes: self.world.writes().len(),
        })
    }

    // The world is told.
    fn tell_world(&mut self, alloc: Global) -> Result<Told, NoMemory>
        requires few { self.old.done < MAX_COUNTED_LINES }
        ensures told { IfOk result (Answers self.old (λ past. told_after self.old.head past script.World)) }
        ensures stands { OnOk result (Does self.old script.World self.new) }
        ensures head { self.new.head ≡ self.old.head }
        ensures keeps { OnOk result (KeepAll self.old.seats → KeepAll self.new.seats) }
    {
        let objects = living_of(alloc, &self.world)?;
        Ok(Told::World {
            ticks: self.world.ticks(),
            objects,
        })
    }
}
