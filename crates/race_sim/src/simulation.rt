//! The simulation, line by line.
ghost use Rattle.std.specs.Prelude.{◌≡◌, ◌<◌, ◌≤◌, ◌+◌, ◌-◌, ◌^◌, ◌++◌, ◌∷◌, ℕ, List, [], Option, IfOk, OnOk, OnErr, length};
ghost use Rattle.std.specs.List.{All};
ghost use Rattle.match_script.specs.declared.types.BodyLine.TheVariants as script;
ghost use Rattle.match_script.specs.Ranges.{HeadFits};
ghost use Rattle.tn_types.specs.declared.moves.MoveBits.{MoveBits as OneMove};
ghost use Rattle.world_rules.specs.declared.setup.Setup.{Setup};
ghost use Rattle.world_sim.specs.Worlds.{Worlds, first_world, next};
ghost use Rattle.world_lanes.specs.Ticked.{IsTicked};
ghost use Rattle.race_history.specs.History.{HasVersions, world_after, IsHistoryOf};
ghost use Rattle.race_sim.specs.Ports.{IsNewPort, HaveAllPassedOn, TakesEach};
ghost use Rattle.race_sim.specs.Simulating.{HasDone, MayDo, Does};
ghost use Rattle.race_sim.specs.Telling.{IsTold, LanesAfter};

use crate::gate::{Actor, Gate, Place};
use crate::port::Port;
use dirty_lanes::{LaneName, Lanes, SimSeat};
use match_script::{BodyLine, Head};
use quantised_fields::KindTable;
use race_history::{History, TickMoves};
use std::alloc::{AllocError, Global};
use std::marker::Model;
use tn_types::{Class, MAX_OBJECTS, MoveBits, NoMemory, Payload};
use world_lanes::{Changed, raise_all, store_world, store_writes};
use world_rules::match_kinds;
use world_sim::World;

/// The world of a match, the simulation's seat at the lanes, and what it has of each client; with the values by version and the moves
/// of each tick so far. After an `Err` of one of its calls it may not be called again.
#[derive(Drop)]
pub struct Simulation<N: LaneName> {
    world: World,
    seat: SimSeat<N>,
    ports: Vec<Port>,
    values: History,
    moves: TickMoves,
    kinds: KindTable,
    // room for the moves of a tick, and for what it changes
    taken: Vec<Option<MoveBits>>,
    changed: Vec<Changed>,
}

impl<N: LaneName> Model for Simulation<N> {
    ghost use Rattle.std.specs.Prelude.{◌≡◌};
    ghost use Rattle.world_rules.specs.Kinds.{match_kinds};
    ghost use Rattle.race_sim.specs.Simulating.{SimulationState};

    ghost Value = { SimulationState };

    ghost view = { λ s. record {
      world = s.world;
      seat = s.seat;
      ports = s.ports.items;
      values = s.values;
      moves = s.moves;
    } };

    ghost invariant = { λ s. s.kinds ≡ match_kinds };
}

// The oldest move of each client that has come.
fn take_moves(ports: &mut Vec<Port>, taken: &mut Vec<Option<MoveBits>>) -> Result<(), AllocError>
    ensures ports { length ports.new.items ≡ length ports.old.items }
    ensures each { OnOk result (TakesEach taken.new.items ports.old.items ports.new.items) }
{
    taken.clear();
    for i in 0..ports.len() {
        taken.push(ports[i].take_move())?;
    }
    Ok(())
}

// The world makes a tick with these moves, which is noted.
fn advance(
    alloc: Global,
    world: &mut World,
    values: &mut History,
    moves: &mut TickMoves,
    taken: &[Option<MoveBits>],
) -> Result<(), NoMemory>
    requires { world.old.ticks < 2 ^ 32 - 1 }
    ensures ticks { OnOk result (world.new.ticks ≡ world.old.ticks + 1) }
    ensures moves { OnOk result (moves.new ≡ moves.old ++ taken.now ∷ []) }
    ensures next { OnOk result (world.new ≡ next world.old taken.now) }
    ensures world { OnOk result ((first : Worlds) → world.old ≡ world_after first moves.old → world.new ≡ world_after first moves.new) }
    ensures values { OnOk result ((first : Worlds) → HasVersions world.old → world.old ≡ world_after first moves.old
        → IsHistoryOf first moves.old values.old → IsHistoryOf first moves.new values.new) }
{
    moves.push(alloc, taken)?;
    world.tick(alloc, taken)?;
    values.add_tick(alloc, world)?;
    Ok(())
}

// Passes on what waits for each client.
fn pass_on_all(ports: &mut Vec<Port>)
    ensures { HaveAllPassedOn ports.old.items ports.new.items }
{
    for i in 0..ports.len() {
        ports[i].pass_on();
    }
}

impl<N: LaneName> Simulation<N> {
    /// The simulation before its first line.
    pub fn new(
        alloc: Global,
        head: &Head,
        seat: SimSeat<N>,
        ports: Vec<Port>,
    ) -> Result<Simulation<N>, NoMemory>
        requires head { HeadFits head.now }
        requires fresh { All IsNewPort ports.items }
        ensures begun { IfOk result (HasDone (first_world head.now.seed head.now.setup) []) }
        ensures seat { IfOk result (λ s. s.seat ≡ seat) }
        ensures ports { IfOk result (λ s. s.ports ≡ ports.items) }
    {
        let world = World::new(alloc, head.seed, &head.setup)?;
        let mut values = History::new(alloc);
        values.add(alloc, &world)?;
        Ok(Simulation {
            world,
            seat,
            ports,
            values,
            moves: TickMoves::new(alloc),
            kinds: match_kinds(),
            taken: Vec::new(alloc),
            changed: Vec::new(alloc),
        })
    }

    /// Stores what a tick left of which the lanes lack the newest value, where there were so many objects before it, and then tells
    /// every client of that. For want of memory nothing was stored.
    fn tell<G: Gate>(
        &mut self,
        lanes: &Lanes<N>,
        gate: &G,
        place: u32,
        had: u32,
    ) -> Result<(), NoMemory>
        requires objects { lanes.now.objects ≡ MAX_OBJECTS }
        requires ticks { self.old.world.ticks < 2 ^ 32 - 1 }
        requires ticked { IsTicked self.old.world had self.old.seat.steps }
        ensures told { OnOk result (IsTold self.old.world lanes.now.clients self.old.seat.steps self.new.seat.steps) }
        ensures rest { self.new ≡ record self.old { seat = self.new.seat } }
    {
        // for its clauses
        let _few = self.world.objects();
        store_writes(
            &self.kinds,
            &self.world,
            lanes,
            &mut self.seat,
            had,
            &mut self.changed,
        )?;
        gate.pass(Actor::Sim, Place::Inside(place));
        raise_all(lanes, &mut self.seat, &self.changed);
        Ok(())
    }

    /// Stores the values with which the objects begin, and tells every client of them.
    pub(crate) fn begin(&mut self, lanes: &Lanes<N>) -> Result<(), NoMemory>
        requires objects { lanes.now.objects ≡ MAX_OBJECTS }
        requires ticks { self.old.world.ticks < 2 ^ 32 - 1 }
        requires first { (seed : ℕ) × ((setup : Setup) × (self.old.world ≡ first_world seed setup)) }
        ensures told { OnOk result (IsTold self.old.world lanes.now.clients self.old.seat.steps self.new.seat.steps) }
        ensures rest { self.new ≡ record self.old { seat = self.new.seat } }
    {
        // for its clauses
        let _few = self.world.objects();
        store_world(
            &self.kinds,
            &self.world,
            lanes,
            &mut self.seat,
            &mut self.changed,
        )?;
        raise_all(lanes, &mut self.seat, self.changed.as_slice());
        Ok(())
    }

    // The world makes a tick, which takes at most one accepted move of each client.
    fn step(&mut self, alloc: Global) -> Result<(), NoMemory>
        requires may { MayDo script.Tick self.old }
        ensures does { OnOk result (Does script.Tick self.old self.new) }
        ensures next { OnOk result ((row : List (Option OneMove)) × (self.new.world ≡ next self.old.world row)) }
        ensures seat { self.new.seat ≡ self.old.seat }
        ensures ports { length self.new.ports ≡ length self.old.ports }
    {
        let Ok(()) = take_moves(&mut self.ports, &mut self.taken) else {
            return Err(NoMemory);
        };
        advance(
            alloc,
            &mut self.world,
            &mut self.values,
            &mut self.moves,
            &self.taken,
        )
    }

    // A tick: each client is told of what it changed.
    fn tick<G: Gate>(
        &mut self,
        alloc: Global,
        lanes: &Lanes<N>,
        gate: &G,
        place: u32,
    ) -> Result<(), NoMemory>
        requires objects { lanes.now.objects ≡ MAX_OBJECTS }
        requires may { MayDo script.Tick self.old }
        ensures does { OnOk result (Does script.Tick self.old self.new) }
        ensures lanes { OnOk result (LanesAfter script.Tick lanes.now.clients self.old self.new) }
        ensures ports { length self.new.ports ≡ length self.old.ports }
    {
        let had = self.world.objects();
        self.step(alloc)?;
        self.tell(lanes, gate, place, had)
    }

    // A scan of a client.
    fn scan(&mut self, alloc: Global, client: u8) -> Result<(), NoMemory>
        requires may { MayDo (script.Scan client) self.old }
        ensures does { OnOk result (Does (script.Scan client) self.old self.new) }
        ensures seat { self.new.seat ≡ self.old.seat }
        ensures world { self.new.world ≡ self.old.world }
        ensures ports { length self.new.ports ≡ length self.old.ports }
    {
        self.ports[client as usize].scan(alloc, &self.world, client)
    }

    // A post to a client.
    fn post(
        &mut self,
        alloc: Global,
        client: u8,
        class: Class,
        payload: Payload,
    ) -> Result<(), NoMemory>
        requires may { MayDo (script.Post client class payload) self.old }
        ensures does { OnOk result (Does (script.Post client class payload) self.old self.new) }
        ensures seat { self.new.seat ≡ self.old.seat }
        ensures world { self.new.world ≡ self.old.world }
        ensures ports { length self.new.ports ≡ length self.old.ports }
    {
        self.ports[client as usize].post(alloc, class, payload)
    }

    /// Does the line of this place, if it is one of the simulation's.
    pub(crate) fn line<G: Gate>(
        &mut self,
        alloc: Global,
        lanes: &Lanes<N>,
        gate: &G,
        place: u32,
        line: &BodyLine,
    ) -> Result<(), NoMemory>
        requires objects { lanes.now.objects ≡ MAX_OBJECTS }
        requires may { MayDo line.now self.old }
        ensures does { OnOk result (Does line.now self.old self.new) }
        ensures lanes { OnOk result (LanesAfter line.now lanes.now.clients self.old self.new) }
        ensures ports { length self.new.ports ≡ length self.old.ports }
    {
        match line {
            BodyLine::Tick => self.tick(alloc, lanes, gate, place),
            BodyLine::Scan { client } => self.scan(alloc, *client),
            BodyLine::Post {
                client,
                class,
                payload,
            } => self.post(alloc, *client, *class, payload.payload()),
            _ => Ok(()),
        }
    }

    /// Passes on what waits for each client, as far as the rings have places.
    pub(crate) fn pass_on(&mut self)
        ensures ports { HaveAllPassedOn self.old.ports self.new.ports }
        ensures rest { self.new ≡ record self.old { ports = self.new.ports } }
    {
        pass_on_all(&mut self.ports);
    }

    /// The seat, what there was of each client, the values and the moves.
    pub(crate) fn into_parts(self) -> (SimSeat<N>, Vec<Port>, History, TickMoves)
        ensures seat { result.0 ≡ self.seat }
        ensures ports { result.1.items ≡ self.ports }
        ensures values { result.2 ≡ self.values }
        ensures moves { result.3 ≡ self.moves }
    {
        let Simulation {
            world: _,
            seat,
            ports,
            values,
            moves,
            kinds: _,
            taken: _,
            changed: _,
        } = self;
        (seat, ports, values, moves)
    }
}
