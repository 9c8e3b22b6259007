//! The seats of the simulation and of the packers, and their four steps.

ghost use Rattle.std.specs.Prelude.{◌≡◌, ◌+◌, ◌<◌, ◌≤◌, ◌^◌, ◌∷◌, true, false};
ghost use Rattle.tn_types.specs.BitWords.{has_bit};
ghost use Rattle.dirty_lanes.specs.Views.{newest, pending, last_read, VersionsRise, a_write, a_raise, a_drain, a_read, sim_with, pack_with};

use crate::lanes::{LaneName, LaneSeat, Lanes};
use crate::laws::raise_tells;
use crate::limits::MAX_LANE_FIELDS;
use crate::rule::{Loads, Raises, Stores, Swaps};
use crate::words::{field_word, mask_word, packed, value_in, version_in};
use std::marker::{Model, PhantomData};
use tn_types::MAX_CLIENTS;

/// The simulation's seat. Contracts see what it did, the newest first.
#[derive(Drop)]
pub struct SimSeat<N: LaneName> {
    pub(crate) seat: LaneSeat,
    pub(crate) versions: Vec<u32>,
    pub(crate) of: PhantomData<N>,
}

impl<N: LaneName> Model for SimSeat<N> {
    ghost use Rattle.dirty_lanes.specs.declared.view.SimView.{SimView};
    ghost use Rattle.dirty_lanes.specs.Rule.{sim_of};
    ghost use Rattle.dirty_lanes.specs.Named.{IsSim};

    ghost Value = { SimView };

    ghost view = { λ s. sim_of s.seat.me.0 };

    ghost invariant = { λ s. IsSim N.table N.objects s.seat.table_id s.seat.me s.versions.items };
}

impl<N: LaneName> SimSeat<N> {
    /// How often a field was written.
    pub fn version(&self, object: u32, field: u8) -> u32
        requires object { object < N.objects }
        requires field { field < MAX_LANE_FIELDS }
        ensures { result ≡ newest self.now.steps object field }
    {
        self.versions[MAX_LANE_FIELDS * object as usize + field as usize]
    }

    /// Writes a field: it has one more version, and this value. It tells no client; `raise` does.
    pub fn write(&mut self, lanes: &Lanes<N>, object: u32, field: u8, value: u32)
        requires object { object < lanes.now.objects }
        requires field { field < MAX_LANE_FIELDS }
        requires not_worn { newest self.old.steps object field < u32.MAX }
        ensures { self.new ≡ sim_with self.old (a_write object field value) }
    {
        // for its clauses
        let _objects = lanes.objects;
        let at = MAX_LANE_FIELDS * object as usize + field as usize;
        let version = self.versions[at] + 1;
        let word = packed(version, value);
        lanes
            .table
            .shared
            .store::<Stores>(&mut self.seat, field_word(object, field), word);
        self.versions[at] = version;
    }

    /// Raises bits for a client, bit f for field f. Bits that are raised already stay.
    pub fn raise(&mut self, lanes: &Lanes<N>, client: u8, object: u32, bits: u32)
        requires client { client < lanes.now.clients }
        requires object { object < lanes.now.objects }
        requires bits { bits < 2 ^ MAX_LANE_FIELDS }
        ensures { self.new ≡ sim_with self.old (a_raise client object bits) }
    {
        // for its clauses
        let _clients = lanes.clients;
        lanes
            .table
            .shared
            .fetch_or::<Raises>(&mut self.seat, mask_word(client, object), bits as u64);
    }

    /// Writes a field and then raises bits for a client, the field's own among them: from here on the field isn't pending
    /// for this client.
    pub fn write_and_raise(
        &mut self,
        lanes: &Lanes<N>,
        object: u32,
        field: u8,
        value: u32,
        client: u8,
        bits: u32,
    )
        requires object { object < lanes.now.objects }
        requires field { field < MAX_LANE_FIELDS }
        requires not_worn { newest self.old.steps object field < u32.MAX }
        requires client { client < lanes.now.clients }
        requires bits { bits < 2 ^ MAX_LANE_FIELDS }
        requires own { has_bit bits field ≡ true }
        ensures steps { self.new ≡ sim_with (sim_with self.old (a_write object field value)) (a_raise client object bits) }
        ensures told { pending self.new.steps client object field ≡ false }
    {
        raise_tells();
        self.write(lanes, object, field, value);
        self.raise(lanes, client, object, bits)
    }
}

/// The seat of the packer of one client. Contracts see what it did, the newest first.
#[derive(Drop)]
pub struct PackSeat<N: LaneName> {
    pub(crate) seat: LaneSeat,
    pub(crate) client: u8,
    pub(crate) of: PhantomData<N>,
}

impl<N: LaneName> Model for PackSeat<N> {
    ghost use Rattle.dirty_lanes.specs.declared.view.PackView.{PackView};
    ghost use Rattle.dirty_lanes.specs.Rule.{pack_of};
    ghost use Rattle.dirty_lanes.specs.Named.{IsPacker};

    ghost Value = { PackView };

    ghost view = { λ s. pack_of s.seat.me.0 };

    ghost invariant = { λ s. IsPacker N.table s.seat.table_id s.seat.me s.client };
}

impl<N: LaneName> PackSeat<N> {
    /// The client that is served from this seat. The versions that it read of a field never went down.
    pub fn client(&self) -> u8
        ensures client { result ≡ self.now.client }
        ensures few { result < MAX_CLIENTS }
        ensures rises { VersionsRise self.now.steps }
    {
        self.client
    }

    /// Takes the bits that were raised since the client's last drain of the object.
    pub fn drain(&mut self, lanes: &Lanes<N>, object: u32) -> u32
        requires object { object < lanes.now.objects }
        ensures step { self.new ≡ pack_with self.old (a_drain object result) }
        ensures narrow { result < 2 ^ MAX_LANE_FIELDS }
    {
        lanes
            .table
            .shared
            .swap::<Swaps>(&mut self.seat, mask_word(self.client, object), 0) as u32
    }

    /// The version and the value of a field. No version is below one that was read before.
    pub fn read(&mut self, lanes: &Lanes<N>, object: u32, field: u8) -> (u32, u32)
        requires object { object < lanes.now.objects }
        requires field { field < MAX_LANE_FIELDS }
        ensures step { self.new ≡ pack_with self.old (a_read object field result.0 result.1) }
        ensures newer { last_read self.old.steps object field ≤ result.0 }
        ensures opening { result.0 ≡ 0 → result.1 ≡ 0 }
    {
        let found = lanes
            .table
            .shared
            .load::<Loads>(&mut self.seat, field_word(object, field));
        (version_in(found), value_in(found))
    }
}
