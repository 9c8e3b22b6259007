//! The end of the lanes.

ghost use Rattle.std.specs.Prelude.{◌≡◌, ◌+◌, ◌*◌, ◌<◌, ◌≤◌, ◌^◌, length, IfOk, IfErr};
ghost use Rattle.std.specs.Slots.{slots_items, slots_len, IsFull};
ghost use Rattle.dirty_lanes.specs.Words.{version_at, value_at, mask_at};
ghost use Rattle.dirty_lanes.specs.Named.{IsNumbered, IsFinal};

use crate::fresh::zero_words;
use crate::lanes::{LaneName, Lanes};
use crate::limits::MAX_LANE_FIELDS;
use crate::rule::Ends;
use crate::seats::{PackSeat, SimSeat};
use crate::words::{WORDS, field_word, mask_word, value_in, version_in};
use atomic_table::Closed;
use std::alloc::Global;
use std::marker::Model;
use tn_types::{MAX_CLIENTS, MAX_OBJECTS};

/// The words at the end, with the numbers of the lanes that were closed.
#[derive(Drop)]
pub struct FinalWords {
    objects: u32,
    clients: u32,
    words: Vec<u64>,
}

impl Model for FinalWords {
    ghost use Rattle.dirty_lanes.specs.Words.{Words, IsLaidOut};

    ghost Value = { Words };

    ghost view = { λ f. record { objects = f.objects; clients = f.clients; words = f.words.items } };

    ghost invariant = { λ f. IsLaidOut (record { objects = f.objects; clients = f.clients; words = f.words.items }) };
}

impl FinalWords {
    /// The number of objects.
    pub fn objects(&self) -> u32
        ensures value { result ≡ self.now.objects }
        ensures some { 1 ≤ result }
        ensures few { result ≤ MAX_OBJECTS }
    {
        self.objects
    }

    /// The number of clients.
    pub fn clients(&self) -> u32
        ensures value { result ≡ self.now.clients }
        ensures some { 1 ≤ result }
        ensures few { result ≤ MAX_CLIENTS }
    {
        self.clients
    }

    /// The version and the value of a field.
    pub fn field(&self, object: u32, field: u8) -> (u32, u32)
        requires object { object < self.now.objects }
        requires field { field < MAX_LANE_FIELDS }
        ensures version { result.0 ≡ version_at self.now object field }
        ensures value { result.1 ≡ value_at self.now object field }
    {
        let word = self.words[field_word(object, field)];
        (version_in(word), value_in(word))
    }

    /// The bits that are raised for a client.
    pub fn mask(&self, client: u8, object: u32) -> u32
        requires client { client < self.now.clients }
        requires object { object < self.now.objects }
        ensures answer { result ≡ mask_at self.now client object }
        ensures narrow { result < 2 ^ MAX_LANE_FIELDS }
    {
        self.words[mask_word(client, object)] as u32
    }
}

/// There was no memory for the words at the end. All comes back untouched.
#[derive(Drop)]
pub struct CloseRefused<N: LaneName> {
    pub lanes: Lanes<N>,
    pub sim: SimSeat<N>,
    pub packs: Vec<PackSeat<N>>,
}

/// Ends the lanes, and gives all words.
pub fn close<N: LaneName>(
    alloc: Global,
    lanes: Lanes<N>,
    sim: SimSeat<N>,
    packs: Vec<PackSeat<N>>,
) -> Result<FinalWords, CloseRefused<N>>
    requires numbered { IsNumbered 0 packs.items }
    requires all { length packs.items ≡ lanes.clients }
    ensures objects { IfOk result (λ words. words.objects ≡ lanes.objects) }
    ensures clients { IfOk result (λ words. words.clients ≡ lanes.clients) }
    ensures words { IfOk result (λ words. IsFinal sim.steps packs.items words) }
    ensures lanes_back { IfErr result (λ back. back.lanes ≡ lanes) }
    ensures sim_back { IfErr result (λ back. back.sim ≡ sim) }
    ensures packs_back { IfErr result (λ back. back.packs.items ≡ packs.items) }
{
    match zero_words(alloc, WORDS * lanes.objects as usize + 1) {
        Ok(words) => Ok(close_into(words, lanes, sim, packs)),
        Err(_) => Err(CloseRefused { lanes, sim, packs }),
    }
}

// The end, where the words have a place.
fn close_into<N: LaneName>(
    words: Vec<u64>,
    lanes: Lanes<N>,
    sim: SimSeat<N>,
    packs: Vec<PackSeat<N>>,
) -> FinalWords
    requires long { length words.items ≡ WORDS * lanes.objects + 1 }
    requires numbered { IsNumbered 0 packs.items }
    requires all { length packs.items ≡ lanes.clients }
    ensures objects { result.objects ≡ lanes.objects }
    ensures clients { result.clients ≡ lanes.clients }
    ensures words { IsFinal sim.steps packs.items result }
{
    let Lanes {
        table,
        objects,
        clients,
        of: _,
    } = lanes;
    let SimSeat {
        seat: mut sim,
        versions: _,
        of: _,
    } = sim;
    let mut packs = packs;
    while let Some(pack) = packs.pop() {
        let PackSeat {
            seat,
            client: _,
            of: _,
        } = pack;
        table.shared.join_seat::<Ends>(&mut sim, seat);
    }
    packs.destroy_empty();
    let closed = table.close_with(sim);
    let words = copy_words(&closed, words);
    closed.free();
    FinalWords {
        objects,
        clients,
        words,
    }
}

fn copy_words(closed: &Closed<(), Global>, mut words: Vec<u64>) -> Vec<u64>
    requires full { IsFull closed.now.words }
    requires long { length words.items ≡ slots_len closed.now.words }
    ensures { result.items ≡ slots_items closed.now.words }
{
    for i in 0..words.len() {
        words[i] = closed.word(i);
    }
    words
}
