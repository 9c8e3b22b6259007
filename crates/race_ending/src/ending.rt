//! The end of a match, when all activities have ended.
ghost use Rattle.std.specs.Prelude.{◌≡◌, ℕ, ◌+◌, ◌*◌, ◌<◌, ◌++◌, ◌∷◌, [], ◌||◌, true, IfOk, OnOk, None, Result, length, get_or};
ghost use Rattle.race_history.specs.kept_pair.declared.fault.KeepFault.{KeepFault as Fault};
ghost use Rattle.race_history.specs.declared.race.RaceClient.{RaceClient as Client};
ghost use Rattle.race_ending.specs.Ended.{met_no_room, fault_of, TakesLeft, IsEnded, AreEnded};
ghost use Rattle.dirty_lanes.specs.Named.{IsNumbered};

use crate::left::take_left;
use connection_lock::{Ended, Locked, SharedPair};
use dirty_lanes::{FinalWords, LaneName, Lanes, PackSeat, SimSeat, close};
use race_history::kept_pair::KeepFault;
use race_history::{Race, RaceClient, RaceClients};
use race_sim::{Simulated, Waiting};
use std::alloc::Global;
use tn_types::NoMemory;

// Whether an activity stopped because no more steps can be kept; it is an error that memory was wanting.
fn is_full(stopped: Option<KeepFault>) -> Result<bool, NoMemory>
    ensures { IfOk result (λ full. full ≡ met_no_room stopped) }
{
    match stopped {
        None => Ok(false),
        Some(KeepFault::NoRoom { kept: _ }) => Ok(true),
        Some(KeepFault::NoMemory) => Err(NoMemory),
    }
}

// Takes what is left of a connection, of which the packer and the net stopped so. Whether it is full.
fn finish_steps<N: LaneName>(
    alloc: Global,
    lanes: &Lanes<N>,
    locked: &mut Locked<N>,
    waiting: &mut Waiting,
    packer: Option<KeepFault>,
    net: Option<KeepFault>,
) -> Result<bool, NoMemory>
    ensures { IfOk result (λ full. (left : Result (Unit {0}) Fault) × TakesLeft N.objects locked.old waiting.old locked.new left
        × (full ≡ (met_no_room (fault_of left) || (met_no_room packer || met_no_room net)))) }
{
    let was_full = is_full(packer)? | is_full(net)?;
    let is_full = is_full(take_left(alloc, lanes, locked, waiting).err())?;
    Ok(is_full || was_full)
}

// Keeps what there is of a connection.
fn keep<N: LaneName>(
    alloc: Global,
    ended: Ended<N>,
    full: bool,
    clients: &mut RaceClients,
    seats: &mut Vec<PackSeat<N>>,
) -> Result<(), NoMemory>
    ensures clients { OnOk result ((c : Client) × (clients.new ≡ clients.old ++ c ∷ [])
        × (c.pair ≡ ended.pair) × (c.objects ≡ ended.objects) × (c.full ≡ full)) }
    ensures seats { OnOk result (length seats.new.items ≡ length seats.old.items + 1) }
{
    let Ended {
        pair,
        seat,
        inbox: _,
        outbox: _,
        objects,
    } = ended;
    if seats.push(seat).is_err() {
        return Err(NoMemory);
    }
    clients.push(
        alloc,
        RaceClient {
            pair,
            objects,
            full,
        },
    )?;
    Ok(())
}

// What is left of the next client.
fn end_next<N: LaneName>(
    alloc: Global,
    lanes: &Lanes<N>,
    pair: SharedPair<N>,
    waiting: &mut Vec<Waiting>,
    stopped: &[Option<KeepFault>],
    clients: &mut RaceClients,
    seats: &mut Vec<PackSeat<N>>,
) -> Result<(), NoMemory>
    requires waiting { length seats.old.items < length waiting.old.items }
    requires stopped { length stopped.now ≡ 2 * length waiting.old.items }
    ensures ended { OnOk result ((c : Client) × (clients.new ≡ clients.old ++ c ∷ []) × (let i = length seats.old.items in
        IsEnded N.objects (get_or waiting.old.items i []) (get_or stopped.now (2 * i) None) (get_or stopped.now (2 * i + 1) None) c)) }
    ensures seats { OnOk result (length seats.new.items ≡ length seats.old.items + 1) }
    ensures waiting { length waiting.new.items ≡ length waiting.old.items }
    ensures others { (k : ℕ) → length seats.old.items < k → get_or waiting.new.items k [] ≡ get_or waiting.old.items k [] }
{
    let i = seats.len();
    let mut locked = pair.open();
    let full = finish_steps(
        alloc,
        lanes,
        &mut locked,
        &mut waiting[i],
        stopped[2 * i],
        stopped[2 * i + 1],
    )?;
    keep(alloc, locked.finish(), full, clients, seats)?;
    Ok(())
}

// What is left of each client, and the seats of their packers.
fn end_all<N: LaneName>(
    alloc: Global,
    lanes: &Lanes<N>,
    pairs: Vec<SharedPair<N>>,
    waiting: &mut Vec<Waiting>,
    stopped: &[Option<KeepFault>],
    clients: &mut RaceClients,
    seats: &mut Vec<PackSeat<N>>,
) -> Result<(), NoMemory>
    requires none { (length clients.old ≡ 0) × (length seats.old.items ≡ 0) }
    requires waiting { length waiting.old.items ≡ length pairs.items }
    requires stopped { length stopped.now ≡ 2 * length pairs.items }
    ensures clients { OnOk result (length clients.new ≡ length pairs.items) }
    ensures ended { OnOk result (AreEnded N.objects waiting.old.items stopped.now clients.new) }
    ensures seats { OnOk result (length seats.new.items ≡ length pairs.items) }
{
    'pairs: for pair in pairs {
        end_next(alloc, lanes, pair, waiting, stopped, clients, seats)?;
    }
    Ok(())
}

// Whether each seat is that of the client of its place. What lies under a lock is known by its type alone, so this is looked at.
fn are_numbered<N: LaneName>(seats: &[PackSeat<N>]) -> bool
    ensures { result ≡ true → IsNumbered 0 seats.now }
{
    for (i, seat) in seats.iter().enumerate() {
        if seat.client() as usize != i {
            return false;
        }
    }
    true
}

// Closes the lanes.
fn close_lanes<N: LaneName>(
    alloc: Global,
    lanes: Lanes<N>,
    sim: SimSeat<N>,
    seats: Vec<PackSeat<N>>,
) -> Result<FinalWords, NoMemory>
    requires all { length seats.items ≡ lanes.clients }
    ensures objects { IfOk result (λ words. words.objects ≡ lanes.objects) }
    ensures clients { IfOk result (λ words. words.clients ≡ lanes.clients) }
{
    if !are_numbered(seats.as_slice()) {
        return Err(NoMemory);
    }
    match close(alloc, lanes, sim, seats) {
        Ok(words) => Ok(words),
        Err(_) => Err(NoMemory),
    }
}

// What is left of the clients, and the words of the lanes at the end.
fn end_clients<N: LaneName>(
    alloc: Global,
    lanes: Lanes<N>,
    sim: SimSeat<N>,
    pairs: Vec<SharedPair<N>>,
    waiting: &mut Vec<Waiting>,
    stopped: &[Option<KeepFault>],
    clients: &mut RaceClients,
) -> Result<FinalWords, NoMemory>
    requires none { length clients.old ≡ 0 }
    requires clients { lanes.clients ≡ length pairs.items }
    requires waiting { length waiting.old.items ≡ length pairs.items }
    requires stopped { length stopped.now ≡ 2 * length pairs.items }
    ensures clients { OnOk result (length clients.new ≡ length pairs.items) }
    ensures ended { OnOk result (AreEnded N.objects waiting.old.items stopped.now clients.new) }
    ensures words { IfOk result (λ words. (words.objects ≡ lanes.objects) × (words.clients ≡ lanes.clients)) }
{
    let mut seats = Vec::new(alloc);
    end_all(alloc, &lanes, pairs, waiting, stopped, clients, &mut seats)?;
    let words = close_lanes(alloc, lanes, sim, seats)?;
    Ok(words)
}

/// Ends a match: what is left in the rings, and then what still waits, becomes steps, and the lanes are closed. `stopped` has the
/// faults with which the packer and the net of each client stopped, by client.
pub fn end<N: LaneName>(
    alloc: Global,
    lanes: Lanes<N>,
    simulated: Simulated<N>,
    pairs: Vec<SharedPair<N>>,
    stopped: &[Option<KeepFault>],
) -> Result<Race, NoMemory>
    requires clients { lanes.clients ≡ length pairs.items }
    requires waiting { length simulated.waiting.items ≡ length pairs.items }
    requires stopped { length stopped.now ≡ 2 * length pairs.items }
    ensures values { IfOk result (λ race. race.values ≡ simulated.values) }
    ensures moves { IfOk result (λ race. race.moves ≡ simulated.moves) }
    ensures clients { IfOk result (λ race. length race.clients ≡ length pairs.items) }
    ensures ended { IfOk result (λ race. AreEnded N.objects simulated.waiting.items stopped.now race.clients) }
    ensures words { IfOk result (λ race. (race.words.objects ≡ lanes.objects) × (race.words.clients ≡ lanes.clients)) }
{
    let Simulated {
        seat,
        values,
        moves,
        mut waiting,
    } = simulated;
    let mut clients = RaceClients::new(alloc);
    let words = end_clients(
        alloc,
        lanes,
        seat,
        pairs,
        &mut waiting,
        stopped,
        &mut clients,
    )?;
    Ok(Race {
        values,
        moves,
        words,
        clients,
    })
}
