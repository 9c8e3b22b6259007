//! Making the table and all seats.

ghost use Rattle.std.specs.Prelude.{◌≡◌, ◌+◌, ◌<◌, ◌≤◌, [], replicate, IfOk, IfSome, IfNone};
ghost use Rattle.dirty_lanes.specs.Named.{no_steps};

use crate::lanes::{LaneName, LaneSeat, LaneTable, Lanes};
use crate::limits::MAX_LANE_FIELDS;
use crate::rule::{LaneRule, LaneSize, NewPacker};
use crate::seats::{PackSeat, SimSeat};
use crate::words::WORDS;
use atomic_table::Table;
use std::alloc::{AllocError, Global};
use std::marker::{Model, PhantomData};
use tn_types::{MAX_CLIENTS, MAX_OBJECTS, NoMemory};

/// The words and all seats, with no name yet.
#[derive(Drop)]
pub struct FreshLanes {
    table: LaneTable,
    sim: LaneSeat,
    packs: Vec<LaneSeat>,
    versions: Vec<u32>,
    objects: u32,
    clients: u32,
}

impl Model for FreshLanes {
    ghost use Rattle.dirty_lanes.specs.Named.{FreshView, IsFresh};

    ghost Value = { FreshView };

    ghost view = { λ f. record { table = f.table.shared.table_id; objects = f.objects; clients = f.clients } };

    ghost invariant = { λ f. IsFresh (record {
      table = f.table.shared.table_id;
      key = f.table.shared.key;
      sim = f.sim;
      packs = f.packs.items;
      versions = f.versions.items;
      objects = f.objects;
      clients = f.clients;
    }) };
}

fn no_versions(alloc: Global, n: usize) -> Result<Vec<u32>, AllocError>
    ensures { IfOk result (λ v. v.items ≡ replicate n 0) }
{
    Ok(vec![in alloc; 0u32; n]?)
}

pub(crate) fn zero_words(alloc: Global, n: usize) -> Result<Vec<u64>, AllocError>
    ensures { IfOk result (λ v. v.items ≡ replicate n 0) }
{
    Ok(vec![in alloc; 0u64; n]?)
}

impl FreshLanes {
    /// Lanes of so many objects and clients, in which nothing was written or raised, and a seat for the simulation
    /// and for the packer of each client.
    pub fn new(alloc: Global, objects: u32, clients: u32) -> Result<FreshLanes, NoMemory>
        requires some_objects { 1 ≤ objects }
        requires few_objects { objects ≤ MAX_OBJECTS }
        requires some_clients { 1 ≤ clients }
        requires few_clients { clients ≤ MAX_CLIENTS }
        ensures objects { IfOk result (λ fresh. fresh.objects ≡ objects) }
        ensures clients { IfOk result (λ fresh. fresh.clients ≡ clients) }
    {
        match FreshLanes::make(alloc, objects, clients) {
            Ok(fresh) => Ok(fresh),
            Err(_) => Err(NoMemory),
        }
    }

    fn make(alloc: Global, objects: u32, clients: u32) -> Result<FreshLanes, AllocError>
        requires some_objects { 1 ≤ objects }
        requires few_objects { objects ≤ MAX_OBJECTS }
        requires some_clients { 1 ≤ clients }
        requires few_clients { clients ≤ MAX_CLIENTS }
        ensures { IfOk result (λ fresh. (fresh.objects ≡ objects) × (fresh.clients ≡ clients)) }
    {
        let versions = no_versions(alloc, MAX_LANE_FIELDS * objects as usize)?;
        let zeros = zero_words(alloc, WORDS * objects as usize + 1)?;
        let size = LaneSize { objects, clients };
        let (table, mut sim): (LaneTable, LaneSeat) = Table::of_words(
            alloc,
            zeros.as_slice(),
            &size,
        )?;
        let mut packs = Vec::new(alloc);
        for _ in 0..clients {
            packs.push(table.shared.split_seat::<NewPacker>(&mut sim))?;
        }
        Ok(FreshLanes {
            table,
            sim,
            packs,
            versions,
            objects,
            clients,
        })
    }

    /// The lanes, the simulation's seat and the packers' seats, under the name of their table.
    pub fn named<N: LaneName>(self) -> (Lanes<N>, SimSeat<N>, PackSeats<N>)
        requires table { self.table ≡ N.table }
        requires objects { self.objects ≡ N.objects }
        ensures lanes { (result.0.objects ≡ self.objects) × (result.0.clients ≡ self.clients) }
        ensures sim { result.1 ≡ no_steps }
        ensures packs { (result.2.next ≡ 0) × (result.2.clients ≡ self.clients) }
    {
        let FreshLanes {
            table,
            sim,
            packs,
            versions,
            objects,
            clients,
        } = self;
        (
            Lanes {
                table,
                objects,
                clients,
                of: PhantomData,
            },
            SimSeat {
                seat: sim,
                versions,
                of: PhantomData,
            },
            PackSeats {
                packs,
                next: 0,
                clients,
                of: PhantomData,
            },
        )
    }
}

/// The packers' seats that no one was given yet.
#[derive(Drop)]
pub struct PackSeats<N: LaneName> {
    packs: Vec<LaneSeat>,
    next: u8,
    clients: u32,
    of: PhantomData<N>,
}

impl<N: LaneName> Model for PackSeats<N> {
    ghost use Rattle.dirty_lanes.specs.declared.view.GivenSeats.{GivenSeats};
    ghost use Rattle.dirty_lanes.specs.Named.{AreLeft};

    ghost Value = { GivenSeats };

    ghost view = { λ s. record { next = s.next; clients = s.clients } };

    ghost invariant = { λ s. AreLeft N.table s.clients s.next s.packs.items };
}

impl<N: LaneName> PackSeats<N> {
    /// The seat of the next client, and `None` exactly where all were given.
    pub fn next_seat(&mut self) -> Option<PackSeat<N>>
        ensures seat { IfSome result (λ seat. seat ≡ record { client = self.old.next; steps = [] }) }
        ensures left { IfSome result (λ _. self.old.next < self.old.clients) }
        ensures next { IfSome result (λ _. self.new.next ≡ self.old.next + 1) }
        ensures all_given { IfNone result (self.old.next ≡ self.old.clients) }
        ensures stays { IfNone result (self.new.next ≡ self.old.next) }
        ensures clients { self.new.clients ≡ self.old.clients }
    {
        let seat = self.packs.pop()?;
        let client = self.next;
        self.next += 1;
        Some(PackSeat {
            seat,
            client,
            of: PhantomData,
        })
    }
}
