//! The words of lanes in which nothing was written or raised.
ghost use Rattle.std.specs.Prelude.{◌≡◌, ◌≤◌, ◌+◌, ◌++◌, ◌∷◌, [], IfOk, OnOk, length};
ghost use Rattle.tn_types.specs.declared.limits.TheConstants.{MAX_CLIENTS};
ghost use Rattle.dirty_lanes.specs.Named.{IsNumbered};

use dirty_lanes::{FinalWords, FreshLanes, LaneName, PackSeat, PackSeats, close};
use std::alloc::Global;
use std::marker::Brand;
use tn_types::{MAX_OBJECTS, NoMemory};

// Adds a seat to these.
fn add<N: LaneName>(packs: &mut Vec<PackSeat<N>>, seat: PackSeat<N>) -> Result<(), NoMemory>
    ensures { OnOk result (packs.new.items ≡ packs.old.items ++ seat ∷ []) }
{
    match packs.push(seat) {
        Ok(()) => Ok(()),
        Err(_) => Err(NoMemory),
    }
}

// The seats of so many clients.
fn take_seats<N: LaneName>(
    alloc: Global,
    seats: &mut PackSeats<N>,
    clients: u32,
) -> Result<Vec<PackSeat<N>>, NoMemory>
    requires first { seats.old.next ≡ 0 }
    requires clients { seats.old.clients ≡ clients }
    ensures numbered { IfOk result (λ packs. IsNumbered 0 packs.items) }
    ensures all { IfOk result (λ packs. length packs.items ≡ clients) }
{
    let mut packs = Vec::new(alloc);
    for _client in 0..clients {
        let Some(seat) = seats.next_seat() else {
            unreachable!()
        };
        add(&mut packs, seat)?;
    }
    Ok(packs)
}

// The words of lanes of this name.
fn words_on<N: LaneName>(
    alloc: Global,
    fresh: FreshLanes,
    clients: u32,
) -> Result<FinalWords, NoMemory>
    requires named { (fresh.table ≡ N.table) × (fresh.objects ≡ N.objects) }
    requires clients { fresh.clients ≡ clients }
    ensures objects { IfOk result (λ words. words.objects ≡ fresh.objects) }
    ensures clients { IfOk result (λ words. words.clients ≡ clients) }
{
    let (lanes, sim, mut seats) = fresh.named::<N>();
    let packs = take_seats(alloc, &mut seats, clients)?;
    match close(alloc, lanes, sim, packs) {
        Ok(words) => Ok(words),
        Err(_) => Err(NoMemory),
    }
}

/// The words for all objects and so many clients, in which nothing was written or raised.
pub(crate) fn no_words(alloc: Global, clients: u8) -> Result<FinalWords, NoMemory>
    requires some { 1 ≤ clients }
    requires few { clients ≤ MAX_CLIENTS }
    ensures objects { IfOk result (λ words. words.objects ≡ MAX_OBJECTS) }
    ensures clients { IfOk result (λ words. words.clients ≡ clients) }
{
    let fresh = FreshLanes::new(alloc, MAX_OBJECTS as u32, u32::from(clients))?;
    words_on::<Brand>(alloc, fresh, u32::from(clients))
}
