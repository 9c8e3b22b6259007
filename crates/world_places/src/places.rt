//! The places of all objects, 16 bits for each coordinate, and a bit for each object that may be more than its place.
ghost use Rattle.std.specs.Prelude.{◌≡◌, ℕ, ◌<◌, ◌%◌, List, [], ◌∷◌, ◌++◌, length, IfOk, true};
ghost use Rattle.world_rules.specs.Ranges.{PlaceFits};
ghost use Rattle.world_places.specs.Places.{ArePlaced, IsPut, IsMarked, IsWordOf, is_special};

use std::alloc::{AllocError, Global};
use std::marker::Model;
use tn_types::MAX_OBJECTS;
use world_cells::NumberSet;
use world_rules::{Object, State};

// How many numbers a coordinate may be.
const COORDINATES: u32 = 65_536;

/// What a scan asks of 64 objects: where they are, in centimetres, and which of them may be more than their place.
#[derive(Clone, Copy)]
pub struct PlaceWord<'a> {
    pub xs: &'a [u16],
    pub ys: &'a [u16],
    /// A bit for each object that may be always seen or hidden.
    pub special: u64,
}

/// The places of all objects that a match may have, by number. All room is made by `new`.
#[derive(Drop)]
pub struct Places {
    xs: Vec<u16>,
    ys: Vec<u16>,
    // what may be always seen or hidden
    special: NumberSet,
}

impl Model for Places {
    ghost use Rattle.world_places.specs.Places.{PlaceLists, AreWhole};

    ghost Value = { PlaceLists };

    ghost view = { λ a. record { xs = a.xs.items; ys = a.ys.items; special = a.special } };

    ghost invariant = { λ a. AreWhole (record { xs = a.xs.items; ys = a.ys.items; special = a.special }) };
}

// Whether an object asks for a look at what it is: most don't.
fn is_special(o: &Object) -> bool
    ensures { result ≡ is_special o.now }
{
    match &o.state {
        State::Mine(mine) => mine.armed,
        State::Flag(_) | State::Clock(_) => true,
        _ => false,
    }
}

impl Places {
    /// No object stands anywhere yet.
    pub fn new(alloc: Global) -> Result<Places, AllocError>
        ensures { IfOk result (λ places. ArePlaced places []) }
    {
        Ok(Places {
            xs: vec![in alloc; 0; MAX_OBJECTS]?,
            ys: vec![in alloc; 0; MAX_OBJECTS]?,
            special: NumberSet::none(alloc)?,
        })
    }

    // An object of this number asks for a look from now on, or no longer.
    fn mark(&mut self, number: u32, special: bool)
        requires number { number < MAX_OBJECTS }
        ensures { IsMarked number special self.old self.new }
    {
        self.special.set(number, special);
    }

    // An object of this number stands at this place.
    #[inline(always)]
    fn put(&mut self, number: u32, x: u32, y: u32)
        requires number { number < MAX_OBJECTS }
        ensures { IsPut number (x % COORDINATES) (y % COORDINATES) self.old self.new }
    {
        self.xs[number as usize] = (x % COORDINATES) as u16;
        self.ys[number as usize] = (y % COORDINATES) as u16;
    }

    /// An object stands here from now on: a new one, or one that was there in another state.
    pub fn settle(&mut self, number: u32, o: &Object)
        requires { number < MAX_OBJECTS }
        ensures moved { (before behind : List Object) (was : Object) → length before ≡ number → PlaceFits o.now.place
            → ArePlaced self.old (before ++ was ∷ behind) → ArePlaced self.new (before ++ o.now ∷ behind) }
        ensures added { (os : List Object) → length os ≡ number → PlaceFits o.now.place → ArePlaced self.old os
            → ArePlaced self.new (os ++ o.now ∷ []) }
    {
        self.mark(number, is_special(o));
        self.put(number, o.place.x, o.place.y);
    }

    /// An object moved to this place; what it is stays.
    #[inline(always)]
    pub fn shift(&mut self, number: u32, x: u32, y: u32)
        requires number { number < MAX_OBJECTS }
        ensures { (before behind : List Object) (was now : Object) → length before ≡ number → now.place ≡ record { x = x; y = y }
            → PlaceFits now.place → (is_special now ≡ true → is_special was ≡ true)
            → ArePlaced self.old (before ++ was ∷ behind) → ArePlaced self.new (before ++ now ∷ behind) }
    {
        self.put(number, x, y);
    }

    /// What a scan asks of the 64 objects from number `64 * word` on.
    pub fn word(&self, word: usize) -> PlaceWord<'_>
        requires { word < 16 }
        ensures { IsWordOf self.now word result }
    {
        PlaceWord {
            xs: &self.xs[64 * word..64 * word + 64],
            ys: &self.ys[64 * word..64 * word + 64],
            special: self.special.word(word),
        }
    }
}
