//! The shared words, under the name of their table.

ghost use Rattle.std.specs.Prelude.{◌≡◌, ◌≤◌};

use crate::rule::{LaneRule, LaneSize};
use crate::view::View;
use atomic_table::{Seat, Table};
use std::alloc::Global;
use std::marker::{Brand, Model, PhantomData};
use tn_types::{MAX_CLIENTS, MAX_OBJECTS};

pub(crate) type LaneTable = Table<(), View, LaneSize, LaneRule, Global>;

pub(crate) type LaneSeat = Seat<(), View>;

/// Names one table and the number of its objects. Lanes and seats of one name belong together, wherever a seat lay.
pub trait LaneName {
    ghost use Rattle.atomic_table.specs.Seated.{TableId};
    ghost use Rattle.std.specs.Prelude.{ℕ};

    ghost table: { TableId };

    ghost objects: { ℕ };
}

impl LaneName for Brand {
    ghost use Rattle.dirty_lanes.specs.Named.{no_table};

    ghost table = { no_table };

    ghost objects = { 0 };
}

/// Words that the simulation and all packers share, with no lock. Contracts see the two numbers.
#[derive(Drop)]
pub struct Lanes<N: LaneName> {
    pub(crate) table: LaneTable,
    pub(crate) objects: u32,
    pub(crate) clients: u32,
    pub(crate) of: PhantomData<N>,
}

impl<N: LaneName> Model for Lanes<N> {
    ghost use Rattle.dirty_lanes.specs.declared.rule.LaneSize.{LaneSize};
    ghost use Rattle.dirty_lanes.specs.Named.{IsLanes};

    ghost Value = { LaneSize };

    ghost view = { λ l. record { objects = l.objects; clients = l.clients } };

    ghost invariant = { λ l. IsLanes N.table N.objects l.table.shared.table_id l.table.shared.key l.objects l.clients };
}

impl<N: LaneName> Lanes<N> {
    /// The number of objects.
    pub fn objects(&self) -> u32
        ensures value { result ≡ self.now.objects }
        ensures named { result ≡ N.objects }
        ensures some { 1 ≤ result }
        ensures few { result ≤ MAX_OBJECTS }
    {
        self.objects
    }

    /// The number of clients.
    pub fn clients(&self) -> u32
        ensures value { result ≡ self.now.clients }
        ensures some { 1 ≤ result }
        ensures few { result ≤ MAX_CLIENTS }
    {
        self.clients
    }
}
