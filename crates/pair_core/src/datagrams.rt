//! The datagrams that were sent one way.
ghost use Rattle.std.specs.Prelude.{◌≡◌, true, false, ℕ, List, ◌+◌, ◌-◌, ◌<◌, ◌≤◌, ◌++◌, ◌∷◌, [], OnOk, OnErr, IfOk, IfSome, IsNone, IsTrue, ◌↔◌, Some, None, length, take, drop, slice_get};
ghost use Rattle.std.specs.Option.{option_copied};
ghost use Rattle.std.specs.Prelude.{vec_len, vec_capacity};
ghost use Rattle.tn_types.specs.declared.choices.Read.{Read};
ghost use Rattle.conn_packing.specs.Calls.{MayPackEnd, PacksEnd};
ghost use Rattle.pair_core.specs.Flat.{cut, Rise, with_made};
ghost use Rattle.pair_core.specs.Keeping.{kept, newest, newest_alone};

use conn_packing::stream_manager::Conn;
use conn_packing::{MAX_PACKET_VALUES, Made, Packer};
use std::alloc::Global;
use std::marker::Model;
use tn_types::{Drain, MAX_DATAGRAM_BYTES, MAX_DATAGRAMS, NoMemory, Values};

/// The room for datagrams, and for their bytes, that a list of all begins with: those of a short match, so that it seldom moves as it
/// grows.
pub(crate) const FIRST_DATAGRAMS: usize = 1_024;

pub(crate) const FIRST_BYTES: usize = 131_072;

/// Datagrams in the order in which they were sent, each kept once: their bytes one after another, and where each ends.
///
/// A clause sees their list, and whether there is room for one more.
#[derive(Drop)]
pub(crate) struct Datagrams {
    bytes: Vec<u8>,
    ends: Vec<usize>,
}

impl Model for Datagrams {
    ghost use Rattle.std.specs.Prelude.{◌+◌, nat_le, nat_lt, ◌&&◌, vec_len, vec_capacity};
    ghost use Rattle.tn_types.specs.declared.limits.TheConstants.{MAX_DATAGRAM_BYTES};
    ghost use Rattle.pair_core.specs.Flat.{Sent, cut, AreFlat};

    ghost Value = { Sent };

    ghost view = { λ d. record {
      list = cut 0 d.ends.items d.bytes.items;
      has_room = nat_le (vec_len d.bytes + MAX_DATAGRAM_BYTES) (vec_capacity d.bytes) && nat_lt (vec_len d.ends) (vec_capacity d.ends);
    } };

    ghost invariant = { λ d. AreFlat d.ends.items d.bytes.items };
}

impl Datagrams {
    /// No datagram, with room for so many and for so many bytes of them.
    pub(crate) fn with_room(
        alloc: Global,
        datagrams: usize,
        bytes: usize,
    ) -> Result<Datagrams, NoMemory>
        ensures { IfOk result (λ d. d.list ≡ []) }
    {
        let Ok(bytes) = Vec::with_capacity(alloc, bytes) else {
            return Err(NoMemory);
        };
        let Ok(ends) = Vec::with_capacity(alloc, datagrams) else {
            return Err(NoMemory);
        };
        Ok(Datagrams { bytes, ends })
    }

    /// How many were sent.
    pub(crate) fn len(&self) -> u32
        ensures { result ≡ length self.now.list }
    {
        self.ends.len() as u32
    }

    /// Whether there is room for one more datagram, of any size.
    pub(crate) fn has_room(&self) -> bool
        ensures { result ≡ self.now.has_room }
    {
        self.bytes.capacity() - self.bytes.len() >= MAX_DATAGRAM_BYTES
            && self.ends.len() < self.ends.capacity()
    }

    /// Makes room for one more datagram, of any size. Where memory is wanting, nothing changed.
    pub(crate) fn prepare(&mut self) -> Result<(), NoMemory>
        ensures list { self.new.list ≡ self.old.list }
        ensures room { OnOk result (self.new.has_room ≡ true) }
        ensures wanting { OnErr result (self.old.has_room ≡ false) }
        ensures unchanged { OnErr result (self.new ≡ self.old) }
    {
        if self.bytes.reserve(MAX_DATAGRAM_BYTES).is_err() {
            return Err(NoMemory);
        }
        if self.ends.reserve(1).is_err() {
            return Err(NoMemory);
        }
        Ok(())
    }

    /// The datagram of this place; `None` exactly where none was sent.
    pub(crate) fn get(&self, place: u32) -> Option<&[u8]>
        ensures value { option_copied result ≡ slice_get self.now.list place }
        ensures fits { IfSome result (λ bytes. length bytes.now ≤ MAX_DATAGRAM_BYTES) }
    {
        match span(self.ends.as_slice(), self.bytes.len(), place as usize) {
            None => None,
            Some((start, end)) => Some(&self.bytes[start..end]),
        }
    }

    /// The newest datagram; `None` exactly where there is none.
    pub(crate) fn newest(&self) -> Option<&[u8]>
        ensures value { option_copied result ≡ newest self.now.list }
        ensures fits { IfSome result (λ bytes. length bytes.now ≤ MAX_DATAGRAM_BYTES) }
    {
        self.get(self.len().saturating_sub(1))
    }

    /// Keeps all, or the newest alone, whose bytes move to the front of the room.
    pub(crate) fn keep(&mut self, all: bool)
        ensures { self.new.list ≡ kept all self.old.list }
    {
        if !all {
            self.keep_newest();
        }
    }

    fn keep_newest(&mut self)
        ensures { self.new.list ≡ newest_alone self.old.list }
    {
        let count = self.ends.len();
        if count < 2 {
            return;
        }
        let start = self.ends[count - 2];
        remove_front(&mut self.bytes, start);
        self.ends.clear();
        self.ends.push_reserved(self.bytes.len());
    }

    /// Adds a datagram, for which there is room.
    pub(crate) fn push(&mut self, bytes: &[u8])
        requires room { self.old.has_room ≡ true }
        requires few { length self.old.list < MAX_DATAGRAMS }
        requires fits { length bytes.now ≤ MAX_DATAGRAM_BYTES }
        ensures { self.new.list ≡ self.old.list ++ bytes.now ∷ [] }
    {
        if self.bytes.extend_from_slice(bytes).is_err() {
            unreachable!()
        }
        self.ends.push_reserved(self.bytes.len());
    }

    /// A server's end packs, and the datagram that it makes is added, for which there is room.
    pub(crate) fn pack<V: Values>(
        &mut self,
        packer: &mut Packer,
        conn: &mut Conn,
        drains: &[Drain],
        values: &mut V,
    ) -> Made
        requires room { self.old.has_room ≡ true }
        requires few { length self.old.list < MAX_DATAGRAMS }
        requires may { MayPackEnd conn.old drains.now (V.ranges values.old) }
        ensures told { (reads : List Read) × (bytes : List ℕ) × PacksEnd conn.old drains.now reads result bytes conn.new
            × (self.new.list ≡ with_made result bytes self.old.list)
            × V.asks values.old reads values.new × (length reads ≤ MAX_PACKET_VALUES) }
    {
        // no datagram is longer than its size, nor that than 1,200
        let _config = conn.config();
        let made = packer.pack(conn, drains, values, &mut self.bytes);
        note_end(&made, &mut self.ends, self.bytes.len());
        made
    }
}

/// Takes so many bytes away at the front.
fn remove_front(bytes: &mut Vec<u8>, count: usize)
    requires { count ≤ vec_len bytes.old }
    ensures { bytes.new.items ≡ drop count bytes.old.items }
{
    let len = bytes.len();
    bytes.as_mut_slice().copy_within(count..len, 0);
    bytes.truncate(len - count);
}

/// Notes where the datagram ends that was made, if any was.
fn note_end(made: &Made, ends: &mut Vec<usize>, end: usize)
    requires { vec_len ends.old < vec_capacity ends.old }
    ensures { ends.new.items ≡ with_made made.now end ends.old.items }
{
    match made {
        Made::Ping { len: _ } => ends.push_reserved(end),
        Made::Body { len: _ } => ends.push_reserved(end),
        Made::Worn { life: _ } => {}
    }
}

/// Where the datagram of this place begins and ends, of those that end here, in so many bytes.
fn span(ends: &[usize], len: usize, place: usize) -> Option<(usize, usize)>
    requires { Rise 0 ends.now len }
    ensures none { IsNone result → length ends.now ≤ place }
    ensures some { IfSome result (λ s. (bytes : List ℕ)
        → slice_get (cut 0 ends.now bytes) place ≡ Some (take (s.1 - s.0) (drop s.0 bytes))) }
    ensures within { IfSome result (λ s. (s.0 ≤ s.1) × (s.1 ≤ len)) }
{
    if place >= ends.len() {
        return None;
    }
    let end = ends[place];
    if place == 0 {
        return Some((0, end));
    }
    Some((ends[place - 1], end))
}
