//! The world and its ticks.
ghost use Rattle.std.specs.Prelude.{◌≡◌, ℕ, ◌<◌, ◌≤◌, ◌+◌, ◌-◌, ◌*◌, ◌^◌, length, map, OnOk, OnErr, IfOk, IfSome, Some};
ghost use Rattle.std.specs.List.{AllByRecursion};
ghost use Rattle.world_rules.specs.Spawning.{first_objects, SetupFits};
ghost use Rattle.world_rules.specs.Ranges.{ObjectFits};
ghost use Rattle.world_rules.specs.Identity.{IsPeopled};
ghost use Rattle.world_sim.specs.Worlds.{WasCounted, next, first_world, alive_at, kind_at, block_at, values_at, version_at, identity_at, player_of, place_at};
ghost use Rattle.world_cells.specs.Grid.{numbers, lasts, lies_at, lies_between};
ghost use Rattle.world_cells.specs.Lines.{AreBits};
ghost use Rattle.world_sim.specs.Facts.{IsWriteOf, ValuesFit};
ghost use Rattle.world_places.specs.Places.{ArePlaced};
ghost use Rattle.world_sim.specs.Glances.{glance_of};

use crate::advance::{MAX_WRITES, Work, advance, workroom};
use crate::found::place_of_player;
use crate::glance::Glance;
use crate::rows::Write;
use crate::start::{first_glances, first_places, first_rows, lasting, start_objects};
use crate::table::{Beside, Table};
use std::alloc::{AllocError, Global};
use std::marker::Model;
use std::mem;
use std::sync::ledger::Ledger;
use tn_types::{MAX_OBJECTS, MoveBits, NoMemory, Steps};
use world_cells::{CELLS_ACROSS, Cells, NumberSet, has_place};
use world_places::Places;
use world_rules::{Object, Setup};

/// The objects of a match, tick by tick. A tick first finds what its rules read and makes all room that it needs, and then
/// changes each object in place, so every rule reads the world before it, and want of memory leaves it unchanged.
pub struct World {
    seed: u32,
    clients: u8,
    // How far players see, in centimetres.
    radius: u32,
    ticks: u32,
    table: Table,
    // What the last tick wrote.
    writes: Vec<Write>,
    // The numbers of what every client sees. No tick makes or ends one.
    always: Vec<u32>,
    work: Work,
}

// Written out, so that a function above that lets a world go calls this, and doesn't prove again how each of its parts is let go.
impl Drop for World {
    fn drop(self) {
        let World {
            seed: _seed,
            clients: _clients,
            radius: _radius,
            ticks: _ticks,
            table: _table,
            writes: _writes,
            always: _always,
            work: _work,
        } = self;
    }
}

impl Model for World {
    ghost use Rattle.std.specs.Prelude.{map};
    ghost use Rattle.world_sim.specs.RowsNext.{row_counts};
    ghost use Rattle.world_sim.specs.Worlds.{Worlds, IsKept};

    ghost Value = { Worlds };

    ghost view = { λ w. record {
      seed = w.seed;
      clients = w.clients;
      radius = w.radius;
      ticks = w.ticks;
      objects = w.table.objects.items;
      versions = map row_counts w.table.rows.items;
      writes = w.writes.items;
    } };

    ghost invariant = { λ w. IsKept (record {
      seed = w.seed;
      clients = w.clients;
      radius = w.radius;
      ticks = w.ticks;
      objects = w.table.objects.items;
      versions = map row_counts w.table.rows.items;
      writes = w.writes.items;
    }) w.table.rows.items w.table.glances.items w.table.beside.cells w.table.beside.places w.always.items
        w.table.going };
}

impl World {
    /// The world before its first tick: the players and objects of a setup at their homes.
    #[tactic(auto, using(world_rules::proofs::Ranging::first_objects_fit, world_rules::proofs::Peopled::peopled_first))]
    pub fn new(alloc: Global, seed: u32, setup: &Setup) -> Result<World, NoMemory>
        requires { SetupFits setup.now }
        ensures { IfOk result (λ w. w ≡ first_world seed setup.now) }
    {
        match World::start(alloc, seed, setup) {
            Ok(world) => Ok(world),
            Err(_) => Err(NoMemory),
        }
    }

    fn start(alloc: Global, seed: u32, setup: &Setup) -> Result<World, AllocError>
        requires few { length setup.now.spawns ≤ MAX_OBJECTS }
        requires fits { AllByRecursion ObjectFits (first_objects 0 setup.now.spawns) }
        requires peopled { IsPeopled setup.now.clients (first_objects 0 setup.now.spawns) }
        ensures { IfOk result (λ w. w ≡ first_world seed setup.now) }
    {
        let objects = start_objects(alloc, setup.spawns.as_slice())?;
        let rows = first_rows(alloc, &objects)?;
        let glances = first_glances(alloc, &objects)?;
        let writes = Vec::with_capacity(alloc, MAX_WRITES)?;
        let next_writes = Vec::with_capacity(alloc, MAX_WRITES)?;
        let always = lasting(alloc, &objects)?;
        let going = NumberSet::all(alloc)?;
        let places = first_places(alloc, &objects)?;
        let mut cells = Cells::new(alloc)?;
        let work = workroom(alloc)?;
        cells.settle_from(0, &objects);
        Ok(World {
            seed,
            clients: setup.clients,
            radius: setup.radius,
            ticks: 0,
            table: Table {
                objects,
                rows,
                glances,
                beside: Beside {
                    cells,
                    places,
                    writes: next_writes,
                },
                going,
            },
            writes,
            always,
            work,
        })
    }

    /// The world makes one tick with a move or none of each client (docs/world.md). Nothing changes for want of
    /// memory. An object keeps its number, kind, owner, datablock, team and home for good.
    #[tactic(auto, using(crate::proofs::ForGood::identity_stays, crate::proofs::ForGood::player_stays))]
    pub fn tick(&mut self, _alloc: Global, moves: &[Option<MoveBits>]) -> Result<(), NoMemory>
        requires { self.old.ticks < 2 ^ 32 - 1 }
        ensures ok { OnOk result (self.new ≡ next self.old moves.now) }
        ensures err { OnErr result (self.new ≡ self.old) }
        ensures more { OnOk result (length self.old.objects ≤ length self.new.objects) }
        ensures same { OnOk result ((object : ℕ) → object < length self.old.objects
            → identity_at self.new object ≡ identity_at self.old object) }
        ensures players { OnOk result ((client : ℕ) → player_of self.new client ≡ player_of self.old client) }
        ensures writes { OnOk result (AllByRecursion (IsWriteOf self.old) self.new.writes) }
    {
        match self.step(moves) {
            Ok(()) => Ok(()),
            Err(_) => Err(NoMemory),
        }
    }

    #[tactic(auto, using(crate::proofs::WorldLaws::sound_rows, crate::proofs::Kept::as_many, crate::proofs::Kept::counts_kept), unfolding(crate::specs::Worlds::next))]
    fn step(&mut self, moves: &[Option<MoveBits>]) -> Result<(), AllocError>
        requires { self.old.ticks < 2 ^ 32 - 1 }
        ensures ok { OnOk result (self.new ≡ next self.old moves.now) }
        ensures err { OnErr result (self.new ≡ self.old) }
        ensures more { OnOk result (length self.old.objects ≤ length self.new.objects) }
        ensures writes { OnOk result (AllByRecursion (IsWriteOf self.old) self.new.writes) }
    {
        let tick = self.ticks + 1;
        advance(&mut self.table, moves, self.seed, tick, &mut self.work)?;
        mem::swap(&mut self.writes, &mut self.table.beside.writes);
        self.ticks = tick;
        Ok(())
    }

    /// The writes of the last tick, by object and field.
    pub fn writes(&self) -> &[Write]
        ensures { result.now ≡ self.now.writes }
    {
        self.writes.as_slice()
    }

    /// Ticks so far.
    pub fn ticks(&self) -> u32
        ensures { result ≡ self.now.ticks }
    {
        self.ticks
    }

    /// Objects made so far, dead ones too.
    pub fn objects(&self) -> u32
        ensures value { result ≡ length self.now.objects }
        ensures few { result ≤ MAX_OBJECTS }
    {
        self.table.objects.len() as u32
    }

    /// The clients of the match.
    pub fn clients(&self) -> u8
        ensures { result ≡ self.now.clients }
    {
        self.clients
    }

    /// The number of the client's player, for good; `None` exactly where it has none.
    pub fn player(&self, client: u8) -> Option<u32>
        ensures { result ≡ player_of self.now client }
    {
        match place_of_player(client, &self.table.objects) {
            Some(place) => Some(place as u32),
            None => None,
        }
    }

    /// How far players see, in centimetres.
    pub fn radius(&self) -> u32
        ensures { result ≡ self.now.radius }
    {
        self.radius
    }

    /// The objects made so far, dead ones too, each at the place of its number. Players come first, by rising client;
    /// they, flags and clocks are alive; a drone draws its chances by its number, and who holds a flag has a player.
    pub fn all_objects(&self) -> &[Object]
        ensures value { result.now ≡ self.now.objects }
        ensures few { length result.now ≤ MAX_OBJECTS }
        ensures peopled { IsPeopled self.now.clients result.now }
        ensures fits { AllByRecursion ObjectFits result.now }
    {
        self.table.objects.as_slice()
    }

    /// The numbers of the living objects in a cell of the field, rising: those with `x / 4096` equal to `cx` and
    /// `y / 4096` equal to `cy` (docs/world.md, "Cells"). Clocks lie in no cell.
    #[tactic(auto, using(world_cells::proofs::Columns::cell_tells))]
    pub fn cell(&self, cx: u8, cy: u8) -> &[u32]
        requires column { cx < CELLS_ACROSS }
        requires row { cy < CELLS_ACROSS }
        ensures { result.now ≡ numbers (lies_at cx cy) 0 self.now.objects }
    {
        self.table.beside.cells.cell(cy * CELLS_ACROSS as u8 + cx)
    }

    /// Which of the 64 objects from number `64 * word` on are alive and lie in the cells between two columns and two rows,
    /// the last left out, as bits, the lowest for the first. Clocks lie in no cell.
    #[tactic(auto, using(world_cells::proofs::Between::between_tells))]
    pub fn between(&self, columns: (u8, u8), rows: (u8, u8), word: usize) -> u64
        requires word { word < 16 }
        requires column_first { columns.0 ≤ CELLS_ACROSS }
        requires column_last { columns.1 ≤ CELLS_ACROSS }
        requires row_first { rows.0 ≤ CELLS_ACROSS }
        requires row_last { rows.1 ≤ CELLS_ACROSS }
        ensures { AreBits result (64 * word) 64 (lies_between columns.0 columns.1 rows.0 rows.1) self.now.objects }
    {
        self.table.beside.cells.columns_between(columns, word)
            & self.table.beside.cells.rows_between(rows, word)
    }

    /// The numbers of the living objects that every client sees, rising: flags and clocks.
    pub fn always(&self) -> &[u32]
        ensures { result.now ≡ numbers lasts 0 self.now.objects }
    {
        self.always.as_slice()
    }

    /// A glance at each object, dead ones too, at the place of its number.
    pub fn glances(&self) -> &[Glance]
        ensures value { result.now ≡ map glance_of self.now.objects }
        ensures few { length result.now ≤ MAX_OBJECTS }
    {
        self.table.glances.as_slice()
    }

    /// Where each object is, dead ones too, as lists that are lent 64 objects at a time.
    pub fn places(&self) -> &Places
        ensures placed { ArePlaced result.now self.now.objects }
    {
        &self.table.beside.places
    }

    /// A look at an object, which takes one step: its place in centimetres, `None` exactly for a clock.
    pub fn look<L: Ledger>(&self, object: u32, steps: &mut Steps<L>) -> Option<(i64, i64)>
        requires { object < length self.now.objects }
        ensures place { Some result ≡ place_at self.now object }
        ensures steps { steps.new ≡ steps.old + 1 }
    {
        steps.tick();
        let o = &self.table.objects[object as usize];
        if has_place(o) {
            Some((i64::from(o.place.x), i64::from(o.place.y)))
        } else {
            None
        }
    }

    /// Whether an object is alive.
    pub fn alive(&self, object: u32) -> bool
        requires { object < length self.now.objects }
        ensures { Some result ≡ alive_at self.now object }
    {
        self.table.objects[object as usize].alive
    }

    /// The number of an object's kind.
    pub fn kind(&self, object: u32) -> u8
        requires { object < length self.now.objects }
        ensures { Some result ≡ kind_at self.now object }
    {
        self.table.objects[object as usize].kind()
    }

    /// The block that an object refers to.
    pub fn block(&self, object: u32) -> u8
        requires { object < length self.now.objects }
        ensures { Some result ≡ block_at self.now object }
    {
        self.table.objects[object as usize].block
    }

    /// The values of an object's fields, in order.
    #[tactic(auto, using(crate::proofs::ForGood::row_tells))]
    pub fn values(&self, object: u32) -> &[i64]
        requires { object < length self.now.objects }
        ensures value { Some result.now ≡ values_at self.now object }
        ensures fits { ValuesFit (kind_at self.now object) result.now }
    {
        self.table.rows[object as usize].values.as_slice()
    }

    /// How often a field was written, which is at most once in each tick; `None` exactly where the object has no such field.
    pub fn version(&self, object: u32, field: u8) -> Option<u32>
        requires { object < length self.now.objects }
        ensures value { result ≡ version_at self.now object field }
        ensures most { IfSome result (λ version. version ≤ self.now.ticks) }
    {
        self.version_in_row(object, field)
    }

    fn version_in_row(&self, object: u32, field: u8) -> Option<u32>
        requires { object < length self.now.objects }
        ensures value { result ≡ version_at self.now object field }
        ensures counted { AllByRecursion (WasCounted self.now.ticks) self.now.versions }
    {
        self.table.rows[object as usize]
            .versions
            .get(field as usize)
            .copied()
    }
}
