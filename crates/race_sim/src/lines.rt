//! The lines of the simulation, one after another.
ghost use Rattle.std.specs.Prelude.{◌≡◌, [], true, false, IfOk, length, map};
ghost use Rattle.match_script.specs.Ranges.{HasRanges};
ghost use Rattle.world_sim.specs.Worlds.{first_world};
ghost use Rattle.race_history.specs.History.{IsHistoryOf};
ghost use Rattle.race_history.specs.Moves.{MovesFit};
ghost use Rattle.race_course.specs.Messages.{ticks_in};
ghost use Rattle.race_sim.specs.Ports.{waiting_for};
ghost use Rattle.race_sim.specs.Simulating.{HasDone, MayDo, Does, AreRests, is_own};
ghost use Rattle.race_sim.specs.Telling.{LanesAfter};

use crate::gate::{Actor, Gate, Place};
use crate::outgoing::Waiting;
use crate::port::Port;
use crate::simulation::Simulation;
use dirty_lanes::{LaneName, Lanes, SimSeat};
use match_script::{BodyLine, Script};
use race_history::{History, TickMoves};
use std::alloc::{AllocError, Global};
use tn_types::{MAX_OBJECTS, NoMemory};

/// What a simulation leaves.
#[derive(Drop)]
pub struct Simulated<N: LaneName> {
    /// Its seat at the lanes.
    pub seat: SimSeat<N>,
    /// The values that each field of each object had.
    pub values: History,
    /// The moves that each tick took.
    pub moves: TickMoves,
    /// The messages that still wait, by client.
    pub waiting: Vec<Waiting>,
}

// Whether the simulation does such lines.
fn is_own(line: &BodyLine) -> bool
    ensures { result ≡ is_own line.now }
{
    matches!(
        line,
        BodyLine::Tick
            | BodyLine::Scan { client: _ }
            | BodyLine::Post {
                client: _,
                class: _,
                payload: _
            }
    )
}

// What still waits for each client.
fn waiting_of(alloc: Global, ports: Vec<Port>) -> Result<Vec<Waiting>, AllocError>
    ensures { IfOk result (λ waiting. waiting.items ≡ map waiting_for ports.items) }
{
    let mut waiting = Vec::new(alloc);
    for port in ports {
        waiting.push(port.into_waiting())?;
    }
    Ok(waiting)
}

// What a simulation leaves that has ended.
fn finish<N: LaneName>(alloc: Global, sim: Simulation<N>) -> Result<Simulated<N>, NoMemory>
    ensures seat { IfOk result (λ s. s.seat ≡ sim.seat) }
    ensures values { IfOk result (λ s. s.values ≡ sim.values) }
    ensures moves { IfOk result (λ s. s.moves ≡ sim.moves) }
    ensures waiting { IfOk result (λ s. s.waiting.items ≡ map waiting_for sim.ports) }
{
    let (seat, ports, values, moves) = sim.into_parts();
    match waiting_of(alloc, ports) {
        Ok(waiting) => Ok(Simulated {
            seat,
            values,
            moves,
            waiting,
        }),
        Err(_) => Err(NoMemory),
    }
}

// Does a line, unless memory was wanting before. Whether it was, or is now.
fn try_line<N: LaneName, G: Gate>(
    alloc: Global,
    lanes: &Lanes<N>,
    gate: &G,
    sim: &mut Simulation<N>,
    place: u32,
    line: &BodyLine,
    failed: bool,
) -> bool
    requires objects { lanes.now.objects ≡ MAX_OBJECTS }
    requires may { failed ≡ false → MayDo line.now sim.old }
    ensures still { failed ≡ true → result ≡ true }
    ensures does { result ≡ false → Does line.now sim.old sim.new }
    ensures lanes { result ≡ false → LanesAfter line.now lanes.now.clients sim.old sim.new }
    ensures ports { length sim.new.ports ≡ length sim.old.ports }
{
    if failed {
        return true;
    }
    sim.line(alloc, lanes, gate, place, line).is_err()
}

// Does a line between its places at the gate, if it is the simulation's, and then passes on what waits. Whether memory was wanting, in
// this line or before: then no more is done.
fn gated<N: LaneName, G: Gate>(
    alloc: Global,
    lanes: &Lanes<N>,
    gate: &G,
    sim: &mut Simulation<N>,
    place: u32,
    line: &BodyLine,
    failed: bool,
) -> bool
    requires objects { lanes.now.objects ≡ MAX_OBJECTS }
    requires may { failed ≡ false → MayDo line.now sim.old }
    ensures still { failed ≡ true → result ≡ true }
    ensures does { result ≡ false → Does line.now sim.old sim.new }
    ensures lanes { result ≡ false → LanesAfter line.now lanes.now.clients sim.old sim.new }
    ensures other { is_own line.now ≡ false → (result ≡ failed) × (sim.new ≡ sim.old) }
    ensures ports { length sim.new.ports ≡ length sim.old.ports }
{
    if !is_own(line) {
        return failed;
    }
    gate.pass(Actor::Sim, Place::Before(place));
    let failed = try_line(alloc, lanes, gate, sim, place, line, failed);
    sim.pass_on();
    gate.pass(Actor::Sim, Place::After(place));
    failed
}

/// Does all lines of the simulation in the order of the script, and gives what it leaves. Where memory is wanting, it does no
/// more, but comes by the places that are left.
pub fn simulate<N: LaneName, G: Gate>(
    alloc: Global,
    script: &Script,
    lanes: &Lanes<N>,
    gate: &G,
    sim: Simulation<N>,
) -> Result<Simulated<N>, NoMemory>
    requires ranges { HasRanges script.now }
    requires objects { lanes.now.objects ≡ MAX_OBJECTS }
    requires clients { length sim.ports ≡ script.now.head.clients }
    requires begun { HasDone (first_world script.now.head.seed script.now.head.setup) [] sim }
    ensures moves { IfOk result (λ s. MovesFit (ticks_in script.now.body) script.now.head.clients s.moves) }
    ensures values { IfOk result (λ s. IsHistoryOf (first_world script.now.head.seed script.now.head.setup) s.moves s.values) }
    ensures waiting { IfOk result (λ s. AreRests script.now s.moves s.waiting.items) }
{
    let mut sim = sim;
    let mut failed = sim.begin(lanes).is_err();
    sim.pass_on();
    for (i, line) in script.body.as_slice().iter().enumerate() {
        failed = gated(alloc, lanes, gate, &mut sim, i as u32, line, failed);
    }
    if failed {
        return Err(NoMemory);
    }
    finish(alloc, sim)
}
