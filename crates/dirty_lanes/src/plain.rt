//! The lanes of one thread.

ghost use Rattle.std.specs.Prelude.{ℕ, ◌≡◌, ◌≢◌, ◌+◌, ◌^◌, ◌<◌, ◌≤◌, List, [], ◌∷◌, ◌++◌, IfOk, length, slice_index, bit_or};
ghost use Rattle.dirty_lanes.specs.Words.{version_at, value_at, mask_at, new_words, after_write, after_raise, after_drain, SizesStay, FieldsStay, MasksStay, OtherFieldsStay, OtherMasksStay};
ghost use Rattle.dirty_lanes.specs.Log.{LaneEvent, Wrote, Raised, Drained, Read, version_of, last_value, mask_of, raised_for, StandsFor};

use crate::limits::MAX_LANE_FIELDS;
use crate::words::{WORDS, field_word, mask_word, packed, value_in, version_in};
use std::alloc::Global;
use std::marker::Model;
use tn_types::{MAX_CLIENTS, MAX_OBJECTS, NoMemory};

/// The lanes of one thread, over a fixed number of objects and clients. The rules stand in docs/world.md,
/// "Lanes".
#[derive(Drop)]
pub struct PlainLanes {
    objects: u32,
    clients: u32,
    words: Vec<u64>,
}

// Raises bits in a word for each client, of which the first is at this place. The words are lent once for all, so that
// they are not looked up anew after each store.
fn raise_in(words: &mut [u64], from: usize, bits: u64)
    requires { from + MAX_CLIENTS ≤ length words.old }
    ensures long { length words.new ≡ length words.old }
    ensures raised { (k : ℕ) → k < MAX_CLIENTS → slice_index words.new (from + k) ≡ bit_or (slice_index words.old (from + k)) bits }
    ensures before { (i : ℕ) → i < from → slice_index words.new i ≡ slice_index words.old i }
    ensures behind { (i : ℕ) → from + MAX_CLIENTS ≤ i → slice_index words.new i ≡ slice_index words.old i }
{
    for client in 0..MAX_CLIENTS as usize {
        words[from + client] |= bits;
    }
}

impl Model for PlainLanes {
    ghost use Rattle.dirty_lanes.specs.Words.{Words, IsLaidOut};

    ghost Value = { Words };

    ghost view = { λ l. record { objects = l.objects; clients = l.clients; words = l.words.items } };

    ghost invariant = { λ l. IsLaidOut (record { objects = l.objects; clients = l.clients; words = l.words.items }) };
}

impl PlainLanes {
    /// Lanes of so many objects and clients, in which nothing was written or raised. No later call takes memory.
    pub fn new(alloc: Global, objects: u32, clients: u32) -> Result<PlainLanes, NoMemory>
        requires some_objects { 1 ≤ objects }
        requires few_objects { objects ≤ MAX_OBJECTS }
        requires some_clients { 1 ≤ clients }
        requires few_clients { clients ≤ MAX_CLIENTS }
        ensures words { IfOk result (λ lanes. lanes ≡ new_words objects clients) }
        ensures objects { IfOk result (λ lanes. lanes.objects ≡ objects) }
        ensures clients { IfOk result (λ lanes. lanes.clients ≡ clients) }
        ensures versions { IfOk result (λ lanes. (object field : ℕ) → version_at lanes object field ≡ 0) }
        ensures values { IfOk result (λ lanes. (object field : ℕ) → value_at lanes object field ≡ 0) }
        ensures masks { IfOk result (λ lanes. (client object : ℕ) → mask_at lanes client object ≡ 0) }
        ensures log { IfOk result (λ lanes. StandsFor lanes []) }
    {
        match vec![in alloc; 0; WORDS * objects as usize + 1] {
            Ok(words) => Ok(PlainLanes {
                objects,
                clients,
                words,
            }),
            Err(_) => Err(NoMemory),
        }
    }

    /// The number of objects.
    pub fn objects(&self) -> u32
        ensures value { result ≡ self.now.objects }
        ensures some { 1 ≤ result }
        ensures few { result ≤ MAX_OBJECTS }
    {
        self.objects
    }

    /// The number of clients.
    pub fn clients(&self) -> u32
        ensures value { result ≡ self.now.clients }
        ensures some { 1 ≤ result }
        ensures few { result ≤ MAX_CLIENTS }
    {
        self.clients
    }

    /// Writes a field: it has one more version, and this value. It tells no client; `raise` does.
    pub fn write(&mut self, object: u32, field: u8, value: u32)
        requires object { object < self.old.objects }
        requires field { field < MAX_LANE_FIELDS }
        requires not_worn { version_at self.old object field < u32.MAX }
        ensures words { self.new ≡ after_write self.old object field value }
        ensures version { version_at self.new object field ≡ version_at self.old object field + 1 }
        ensures value { value_at self.new object field ≡ value }
        ensures fields { OtherFieldsStay self.old self.new object field }
        ensures masks { MasksStay self.old self.new }
        ensures sizes { SizesStay self.old self.new }
        ensures log { (log : List LaneEvent) → StandsFor self.old log → StandsFor self.new (Wrote object field value ∷ log) }
    {
        let word = &mut self.words[field_word(object, field)];
        *word = packed(version_in(*word) + 1, value);
    }

    /// Raises bits for a client, bit f for field f. Bits that are raised already stay.
    pub fn raise(&mut self, client: u8, object: u32, bits: u32)
        requires client { client < self.old.clients }
        requires object { object < self.old.objects }
        requires bits { bits < 2 ^ MAX_LANE_FIELDS }
        ensures words { self.new ≡ after_raise self.old client object bits }
        ensures mask { mask_at self.new client object ≡ bit_or (mask_at self.old client object) bits }
        ensures masks { OtherMasksStay self.old self.new client object }
        ensures fields { FieldsStay self.old self.new }
        ensures sizes { SizesStay self.old self.new }
        ensures log { (log : List LaneEvent) → StandsFor self.old log → StandsFor self.new (Raised client object bits ∷ log) }
    {
        self.words[mask_word(client, object)] |= u64::from(bits);
    }

    /// Raises bits of an object for every client, as `raise` does for one after another. All 16 are there.
    pub fn raise_for_all(&mut self, object: u32, bits: u32)
        requires clients { self.old.clients ≡ MAX_CLIENTS }
        requires object { object < self.old.objects }
        requires bits { bits < 2 ^ MAX_LANE_FIELDS }
        ensures raised { (c : ℕ) → c < MAX_CLIENTS → mask_at self.new c object ≡ bit_or (mask_at self.old c object) bits }
        ensures masks { (c o : ℕ) → c < MAX_CLIENTS → o ≢ object → mask_at self.new c o ≡ mask_at self.old c o }
        ensures fields { FieldsStay self.old self.new }
        ensures sizes { SizesStay self.old self.new }
        ensures log { (log : List LaneEvent) → StandsFor self.old log → StandsFor self.new (raised_for MAX_CLIENTS object bits ++ log) }
    {
        raise_in(&mut self.words, mask_word(0, object), u64::from(bits));
    }

    /// Takes the bits that were raised for a client since it last drained the object.
    pub fn drain(&mut self, client: u8, object: u32) -> u32
        requires client { client < self.old.clients }
        requires object { object < self.old.objects }
        ensures answer { result ≡ mask_at self.old client object }
        ensures narrow { result < 2 ^ MAX_LANE_FIELDS }
        ensures words { self.new ≡ after_drain self.old client object }
        ensures mask { mask_at self.new client object ≡ 0 }
        ensures masks { OtherMasksStay self.old self.new client object }
        ensures fields { FieldsStay self.old self.new }
        ensures sizes { SizesStay self.old self.new }
        ensures log_answer { (log : List LaneEvent) → StandsFor self.old log → result ≡ mask_of log client object }
        ensures log { (log : List LaneEvent) → StandsFor self.old log → StandsFor self.new (Drained client object ∷ log) }
    {
        let bits = self.raised(client, object);
        self.words[mask_word(client, object)] = 0;
        bits
    }

    /// The version and the value of a field, for a client: how often it was written, and what was written last;
    /// (0, 0) if it never was. It leaves the client's bits as they are.
    pub fn read(&mut self, client: u8, object: u32, field: u8) -> (u32, u32)
        requires client { client < self.old.clients }
        requires object { object < self.old.objects }
        requires field { field < MAX_LANE_FIELDS }
        ensures version { result.0 ≡ version_at self.old object field }
        ensures value { result.1 ≡ value_at self.old object field }
        ensures words { self.new ≡ self.old }
        ensures log_version { (log : List LaneEvent) → StandsFor self.old log → result.0 ≡ version_of log object field }
        ensures log_value { (log : List LaneEvent) → StandsFor self.old log → result.1 ≡ last_value log object field }
        ensures log { (log : List LaneEvent) → StandsFor self.old log → StandsFor self.new (Read client object field ∷ log) }
    {
        let word = self.words[field_word(object, field)];
        (version_in(word), value_in(word))
    }

    /// The bits that a drain would take.
    pub fn raised(&self, client: u8, object: u32) -> u32
        requires client { client < self.now.clients }
        requires object { object < self.now.objects }
        ensures answer { result ≡ mask_at self.now client object }
        ensures narrow { result < 2 ^ MAX_LANE_FIELDS }
        ensures log_answer { (log : List LaneEvent) → StandsFor self.now log → result ≡ mask_of log client object }
    {
        self.words[mask_word(client, object)] as u32
    }
}
