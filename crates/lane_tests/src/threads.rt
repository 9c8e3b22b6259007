//! Lanes that a simulation and a packer share, each on a thread of its own.
ghost use Rattle.std.specs.Prelude.{◌≡◌, ◌<◌, false, [], IfOk};
ghost use Rattle.dirty_lanes.specs.Views.{newest, pending};

use dirty_lanes::{FinalWords, FreshLanes, LaneName, Lanes, PackSeat, SimSeat, close};
use std::alloc::{AllocError, Global};
use std::marker::Brand;
use std::process::Abort;
use std::test::*;
use std::thread::{Threads, join};

const ROUNDS: u32 = 1_000;

// Writes one field a thousand times, and raises it each time.
fn simulate<N: LaneName>(lanes: &Lanes<N>, sim: SimSeat<N>) -> SimSeat<N>
    requires size { (0 < lanes.now.objects) × (0 < lanes.now.clients) }
    requires fresh { sim.steps ≡ [] }
    ensures written { newest result.steps 0 0 ≡ 1000 }
    ensures raised { pending result.steps 0 0 0 ≡ false }
{
    let mut sim = sim;
    for i in 0..ROUNDS {
        sim.write(lanes, 0, 0, i);
        sim.raise(lanes, 0, 0, 1);
    }
    sim
}

// Drains and reads beside the simulation. The versions never go down.
fn follow<N: LaneName, R: Abort>(rt: &R, lanes: &Lanes<N>, pack: PackSeat<N>) -> PackSeat<N>
    requires { 0 < lanes.now.objects }
    ensures { result.client ≡ pack.client }
{
    let mut pack = pack;
    let mut last = 0;
    for _ in 0..ROUNDS {
        pack.drain(lanes, 0);
        let (version, _) = pack.read(lanes, 0, 0);
        assert!(rt; last <= version);
        last = version;
    }
    pack
}

// Closes lanes of one client.
fn end<N: LaneName>(
    alloc: Global,
    lanes: Lanes<N>,
    sim: SimSeat<N>,
    pack: PackSeat<N>,
) -> Result<FinalWords, AllocError>
    requires { (pack.client ≡ 0) × (lanes.clients ≡ 1) }
    ensures { IfOk result (λ words. (words.objects ≡ lanes.objects) × (words.clients ≡ 1)) }
{
    let mut packs = Vec::with_capacity(alloc, 1)?;
    packs.push(pack)?;
    match close(alloc, lanes, sim, packs) {
        Ok(words) => Ok(words),
        Err(_) => Err(AllocError),
    }
}

fn race<N: LaneName + Send + Sync, R: Threads + Abort + Sync>(
    rt: &R,
    alloc: Global,
    fresh: FreshLanes,
) -> Result<(), AllocError>
    requires named { (fresh.table ≡ N.table) × (fresh.objects ≡ N.objects) }
    requires size { (fresh.objects ≡ 1) × (fresh.clients ≡ 1) }
{
    let (lanes, sim, mut seats) = fresh.named::<N>();
    let Some(pack) = seats.next_seat() else {
        return Err(AllocError);
    };
    let shared = &lanes;
    let (sim, mut pack) = join(
        rt,
        move || -> SimSeat<N>
            requires { (0 < shared.now.objects) × (0 < shared.now.clients) × (sim.steps ≡ []) }
            ensures { (newest result.steps 0 0 ≡ 1000) × (pending result.steps 0 0 0 ≡ false) }
        { simulate(shared, sim) },
        move || -> PackSeat<N>
            requires { 0 < shared.now.objects }
            ensures { result.client ≡ pack.client }
        { follow(rt, shared, pack) },
    );
    pack.drain(shared, 0);
    assert!(rt; pack.read(shared, 0, 0) == (ROUNDS, ROUNDS - 1));
    assert!(rt; sim.version(0, 0) == ROUNDS);
    let words = end(alloc, lanes, sim, pack)?;
    assert!(rt; words.field(0, 0) == (ROUNDS, ROUNDS - 1) && words.mask(0, 0) == 0);
    Ok(())
}

#[test]
fn packer_follows_simulation(rt: HostRuntime) -> Result<(), Fail> {
    let fresh = FreshLanes::new(rt.alloc(), 1, 1)?;
    race::<Brand, _>(&rt, rt.alloc(), fresh)?;
    Ok(())
}

fn alone<N: LaneName, R: Abort>(rt: &R, alloc: Global, fresh: FreshLanes) -> Result<(), AllocError>
    requires named { (fresh.table ≡ N.table) × (fresh.objects ≡ N.objects) }
    requires size { (fresh.objects ≡ 1) × (fresh.clients ≡ 1) }
{
    let (lanes, sim, mut seats) = fresh.named::<N>();
    let Some(pack) = seats.next_seat() else {
        return Err(AllocError);
    };
    assert!(rt; seats.next_seat().is_none());
    let sim = simulate(&lanes, sim);
    let words = end(alloc, lanes, sim, pack)?;
    assert!(rt; (words.objects(), words.clients()) == (1, 1));
    assert!(rt; words.field(0, 0) == (ROUNDS, ROUNDS - 1) && words.mask(0, 0) == 1);
    Ok(())
}

#[test]
fn writes_alone_and_close(rt: HostRuntime) -> Result<(), Fail> {
    let fresh = FreshLanes::new(rt.alloc(), 1, 1)?;
    alone::<Brand, _>(&rt, rt.alloc(), fresh)?;
    Ok(())
}

fn row<N: LaneName, R: Abort>(rt: &R, alloc: Global, fresh: FreshLanes) -> Result<(), AllocError>
    requires named { (fresh.table ≡ N.table) × (fresh.objects ≡ N.objects) }
    requires size { (fresh.objects ≡ 1) × (fresh.clients ≡ 1) }
{
    let (lanes, mut sim, mut seats) = fresh.named::<N>();
    let Some(mut pack) = seats.next_seat() else {
        return Err(AllocError);
    };
    assert!(rt; pack.read(&lanes, 0, 0) == (0, 0));
    sim.write(&lanes, 0, 0, 5);
    sim.raise(&lanes, 0, 0, 1);
    assert!(rt; pack.drain(&lanes, 0) == 1);
    assert!(rt; pack.read(&lanes, 0, 0) == (1, 5));
    assert!(rt; pack.drain(&lanes, 0) == 0);
    let words = end(alloc, lanes, sim, pack)?;
    assert!(rt;
        words.field(0, 0) == (1, 5) && words.field(0, 1) == (0, 0) && words.mask(0, 0) == 0
    );
    Ok(())
}

#[test]
fn lane_words(rt: HostRuntime) -> Result<(), Fail> {
    let fresh = FreshLanes::new(rt.alloc(), 1, 1)?;
    row::<Brand, _>(&rt, rt.alloc(), fresh)?;
    Ok(())
}
