//! A match in threads.
ghost use Rattle.std.specs.Prelude.{◌≡◌, ◌<◌, ◌*◌, ◌/◌, ◌%◌, ◌==◌, [], Ok, IfOk, length};
ghost use Rattle.match_script.specs.Ranges.{HasRanges};
ghost use Rattle.world_sim.specs.Worlds.{first_world};
ghost use Rattle.race_history.specs.History.{IsHistoryOf};
ghost use Rattle.race_history.specs.Moves.{MovesFit};
ghost use Rattle.race_sim.specs.race_course.Messages.{ticks_in};
ghost use Rattle.race_sim.specs.Simulating.{HasDone, AreRests};
ghost use Rattle.race_run.specs.Asking.{AreNumbered};

use crate::activity::Served;
use crate::start::{Ready, make_ready};
use connection_lock::{DoneLines, SharedPair};
use dirty_lanes::{FreshLanes, LaneName, Lanes};
use kept_pair::KeepFault;
use match_script::Script;
use race_ending::end;
use race_history::Race;
use race_sim::{Gate, Simulated, Simulation, simulate};
use std::alloc::{AllocError, Global};
use std::marker::Brand;
use std::sync::Wait;
use std::sync::ledger::{Blank, Ledger};
use std::thread::{Threads, join, map_indices};
use tn_types::{MAX_OBJECTS, NoMemory, Steps};

// Whom the activity of this place serves: the packer of client c has place 2c, and its net the next one.
fn client_of(i: usize) -> u8
    requires { i < 32 }
    ensures { result ≡ i / 2 }
{
    (i / 2) as u8
}

// Whether the activity of this place packs: those of even places do, and the others are nets.
fn packs(i: usize) -> bool
    ensures { result ≡ (i % 2 == 0) }
{
    i % 2 == 0
}

// The client whom the activity of this place serves, with that client's connection.
fn served<'a, N: LaneName, G: Gate>(
    alloc: Global,
    script: &'a Script,
    lanes: &'a Lanes<N>,
    gate: &'a G,
    pairs: &'a [SharedPair<N>],
    i: usize,
) -> Served<'a, N, G>
    requires place { i < 2 * length pairs.now }
    requires few { length pairs.now < 17 }
    requires numbered { AreNumbered pairs.now }
    ensures client { result.client ≡ i / 2 }
    ensures own { result.pair.now ≡ i / 2 }
    ensures script { result.script.now ≡ script.now }
{
    let client = client_of(i);
    Served {
        alloc,
        script,
        lanes,
        gate,
        pair: &pairs[client as usize],
        client,
    }
}

// All packs of a client, which its counter counts.
fn pack_all<N: LaneName, R: Wait, G: Gate, L: Ledger>(
    rt: &R,
    served: &Served<'_, N, G>,
    blank: Blank,
) -> Option<KeepFault>
    requires ranges { HasRanges served.now.script.now }
    requires name { blank.name ≡ L.name }
    requires parts { blank.parts ≡ L.parts }
    requires some { 0 < blank.parts }
{
    let mut packs: Steps<L> = Steps::new(blank);
    served.pack(rt, &mut packs)
}

// One activity of a client, by its place.
fn run_activity<N: LaneName, R: Wait, G: Gate>(
    rt: &R,
    alloc: Global,
    script: &Script,
    lanes: &Lanes<N>,
    gate: &G,
    pairs: &[SharedPair<N>],
    i: usize,
) -> Option<KeepFault>
    requires ranges { HasRanges script.now }
    requires place { i < 2 * length pairs.now }
    requires few { length pairs.now < 17 }
    requires numbered { AreNumbered pairs.now }
{
    let served = served(alloc, script, lanes, gate, pairs, i);
    if packs(i) {
        let blank = Blank::new(1);
        pack_all::<N, R, G, Brand>(rt, &served, blank)
    } else {
        let Ok(mut done) = DoneLines::new(alloc) else {
            return Some(KeepFault::NoMemory);
        };
        served.bring(rt, &mut done)
    }
}

// All activities of the clients beside one another.
fn serve_all<N: LaneName + Send + Sync, R: Threads + Wait + Sync, G: Gate + Sync>(
    rt: &R,
    alloc: Global,
    script: &Script,
    lanes: &Lanes<N>,
    gate: &G,
    pairs: &[SharedPair<N>],
) -> Result<Vec<Option<KeepFault>>, AllocError>
    requires ranges { HasRanges script.now }
    requires few { length pairs.now < 17 }
    requires numbered { AreNumbered pairs.now }
    ensures { IfOk result (λ stopped. length stopped.items ≡ 2 * length pairs.now) }
{
    map_indices(
        rt,
        alloc,
        2 * pairs.len(),
        &|i| { run_activity(rt, alloc, script, lanes, gate, pairs, i) },
    )
}

// What the simulation and the other activities leave, where memory was not wanting.
fn both<N: LaneName>(
    simulated: Result<Simulated<N>, NoMemory>,
    stopped: Result<Vec<Option<KeepFault>>, AllocError>,
) -> Result<(Simulated<N>, Vec<Option<KeepFault>>), NoMemory>
    ensures { IfOk result (λ r. (simulated ≡ Ok r.0) × (stopped ≡ Ok r.1)) }
{
    match (simulated, stopped) {
        (Ok(simulated), Ok(stopped)) => Ok((simulated, stopped)),
        _ => Err(NoMemory),
    }
}

// The simulation, beside all activities of the clients.
fn run_beside<N: LaneName + Send + Sync, R: Threads + Wait + Sync, G: Gate + Sync>(
    rt: &R,
    alloc: Global,
    script: &Script,
    lanes: &Lanes<N>,
    gate: &G,
    pairs: &[SharedPair<N>],
    sim: Simulation<N>,
) -> Result<(Simulated<N>, Vec<Option<KeepFault>>), NoMemory>
    requires ranges { HasRanges script.now }
    requires objects { lanes.now.objects ≡ MAX_OBJECTS }
    requires few { length pairs.now < 17 }
    requires numbered { AreNumbered pairs.now }
    requires ports { length sim.ports ≡ script.now.head.clients }
    requires begun { HasDone (first_world script.now.head.seed script.now.head.setup) [] sim }
    ensures values { IfOk result (λ r. IsHistoryOf (first_world script.now.head.seed script.now.head.setup) r.0.moves r.0.values) }
    ensures moves { IfOk result (λ r. MovesFit (ticks_in script.now.body) script.now.head.clients r.0.moves) }
    ensures waiting { IfOk result (λ r. AreRests script.now r.0.moves r.0.waiting.items) }
    ensures stopped { IfOk result (λ r. length r.1.items ≡ 2 * length pairs.now) }
{
    let (simulated, stopped) = join(
        rt,
        move || -> Result<Simulated<N>, NoMemory>
            requires { HasRanges script.now × (lanes.now.objects ≡ MAX_OBJECTS) × (length sim.ports ≡ script.now.head.clients)
                × HasDone (first_world script.now.head.seed script.now.head.setup) [] sim }
            ensures { IfOk result (λ s. IsHistoryOf (first_world script.entry.now.head.seed script.entry.now.head.setup) s.moves s.values)
                × IfOk result (λ s. MovesFit (ticks_in script.entry.now.body) script.entry.now.head.clients s.moves)
                × IfOk result (λ s. AreRests script.entry.now s.moves s.waiting.items) }
        { simulate(alloc, script, lanes, gate, sim) },
        move || -> Result<Vec<Option<KeepFault>>, AllocError>
            requires { HasRanges script.now × (length pairs.now < 17) × AreNumbered pairs.now }
            ensures { IfOk result (λ stopped. length stopped.items ≡ 2 * length pairs.entry.now) }
        { serve_all(rt, alloc, script, lanes, gate, pairs) },
    );
    both(simulated, stopped)
}

// A match in threads, on lanes of this name.
fn race_on<N: LaneName + Send + Sync, R: Threads + Wait + Sync, G: Gate + Sync>(
    rt: &R,
    alloc: Global,
    script: &Script,
    gate: &G,
    fresh: FreshLanes,
) -> Result<Race, NoMemory>
    requires ranges { HasRanges script.now }
    requires named { (fresh.table ≡ N.table) × (fresh.objects ≡ N.objects) }
    requires objects { fresh.objects ≡ MAX_OBJECTS }
    requires clients { fresh.clients ≡ script.now.head.clients }
    ensures values { IfOk result (λ race. IsHistoryOf (first_world script.now.head.seed script.now.head.setup) race.moves race.values) }
    ensures moves { IfOk result (λ race. MovesFit (ticks_in script.now.body) script.now.head.clients race.moves) }
    ensures clients { IfOk result (λ race. length race.clients ≡ script.now.head.clients) }
    ensures words { IfOk result (λ race. (race.words.objects ≡ MAX_OBJECTS) × (race.words.clients ≡ script.now.head.clients)) }
{
    let Ready { lanes, pairs, sim } = make_ready::<N>(alloc, script, fresh)?;
    let (simulated, stopped) = run_beside(rt, alloc, script, &lanes, gate, &pairs, sim)?;
    end(alloc, lanes, simulated, pairs, &stopped)
}

/// Makes a match in threads: the simulation, and for each client a packer and a net activity, all beside one another. What each of
/// them does of the script's lines stands in README.md. Nothing is promised of the order in which they come to their lines.
pub fn race<R: Threads + Wait + Sync, G: Gate + Sync>(
    rt: &R,
    alloc: Global,
    script: &Script,
    gate: &G,
) -> Result<Race, NoMemory>
    requires { HasRanges script.now }
    ensures values { IfOk result (λ race. IsHistoryOf (first_world script.now.head.seed script.now.head.setup) race.moves race.values) }
    ensures moves { IfOk result (λ race. MovesFit (ticks_in script.now.body) script.now.head.clients race.moves) }
    ensures clients { IfOk result (λ race. length race.clients ≡ script.now.head.clients) }
    ensures words { IfOk result (λ race. (race.words.objects ≡ MAX_OBJECTS) × (race.words.clients ≡ script.now.head.clients)) }
{
    let fresh = FreshLanes::new(alloc, MAX_OBJECTS as u32, u32::from(script.head.clients))?;
    race_on::<Brand, R, G>(rt, alloc, script, gate, fresh)
}
