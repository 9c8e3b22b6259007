//! The scope of one client.
ghost use Rattle.std.specs.Prelude.{◌≡◌, ◌<◌, ◌≤◌, ◌+◌, ◌^◌, List, [], ◌∷◌, OnOk, OnErr, IfOk, length, map, slice_get, Option, Some, None};
ghost use Rattle.std.specs.List.{All};
ghost use Rattle.std.specs.List.Sorted.{IsStrictlyIncreasing};
ghost use Rattle.world_scope.specs.declared.viewer.Seen.{Seen};
ghost use Rattle.client_scope.specs.StandsFor.{StandsFor};

use crate::marks::mark_all;
use crate::period::{Near, ShownPeriod};
use crate::walks::{begin, go_on};
use std::alloc::{AllocError, Global};
use std::marker::Model;
use std::mem;
use tn_types::{MAX_DISTANCE_LEVEL, MAX_OBJECTS, NoMemory};
use world_scope::Seen;

/// The periods of one client, and what its last scan changed (docs/world.md, "Periods").
#[derive(Drop)]
pub struct Scope {
    // periods so far
    count: u32,
    shown: Vec<ShownPeriod>,
    hides: Vec<u32>,
    nears: Vec<Near>,
    shows: Vec<Seen>,
    // what the last scan saw
    marks: Vec<u8>,
    // room in which the next scan is made
    kept: Vec<ShownPeriod>,
    fresh: Vec<u8>,
}

impl Model for Scope {
    ghost use Rattle.std.specs.Prelude.{◌≡◌, ◌<◌, length};
    ghost use Rattle.std.specs.List.{All};
    ghost use Rattle.tn_types.specs.declared.limits.TheConstants.{MAX_OBJECTS};
    ghost use Rattle.client_scope.specs.StandsFor.{Table};

    ghost Value = { Table };

    ghost view = { λ a. record {
      count = a.count;
      shown = a.shown.items;
      hides = a.hides.items;
      nears = a.nears.items;
      shows = a.shows.items;
      marks = a.marks.items;
    } };

    ghost invariant = { λ a. (length a.marks.items ≡ MAX_OBJECTS)
        × (length a.fresh.items ≡ MAX_OBJECTS)
        × All (λ p. p.object < MAX_OBJECTS) a.shown.items };
}

impl Scope {
    /// No scan was made.
    pub fn new(alloc: Global) -> Result<Scope, NoMemory>
        ensures { IfOk result (λ s. StandsFor s []) }
    {
        match Scope::made(alloc) {
            Ok(scope) => Ok(scope),
            Err(_) => Err(NoMemory),
        }
    }

    fn made(alloc: Global) -> Result<Scope, AllocError>
        ensures { IfOk result (λ s. StandsFor s []) }
    {
        Ok(Scope {
            count: 0,
            shown: Vec::new(alloc),
            hides: Vec::new(alloc),
            nears: Vec::new(alloc),
            shows: Vec::new(alloc),
            marks: vec![in alloc; 0; MAX_OBJECTS]?,
            kept: Vec::new(alloc),
            fresh: vec![in alloc; 0; MAX_OBJECTS]?,
        })
    }

    /// A scan that saw these objects, by rising number. It takes memory only where more periods are shown than ever
    /// before, and for want of memory nothing changes.
    pub fn scan(&mut self, _alloc: Global, seen: &[Seen]) -> Result<(), NoMemory>
        requires rising { IsStrictlyIncreasing (map (λ s. s.object) seen.now) }
        requires there { All (λ s. s.object < MAX_OBJECTS) seen.now }
        requires levels { All (λ s. s.level ≤ MAX_DISTANCE_LEVEL) seen.now }
        requires few { self.old.count + length seen.now < 2 ^ 32 }
        ensures stands { OnOk result ((scans : List (List Seen)) → StandsFor self.old scans → StandsFor self.new (seen.now ∷ scans)) }
        ensures count { OnOk result (self.new.count ≤ self.old.count + length seen.now) }
        ensures unchanged { OnErr result (self.new ≡ self.old) }
    {
        match self.scanned(seen) {
            Ok(()) => Ok(()),
            Err(_) => Err(NoMemory),
        }
    }

    fn scanned(&mut self, seen: &[Seen]) -> Result<(), AllocError>
        requires rising { IsStrictlyIncreasing (map (λ s. s.object) seen.now) }
        requires there { All (λ s. s.object < MAX_OBJECTS) seen.now }
        requires levels { All (λ s. s.level ≤ MAX_DISTANCE_LEVEL) seen.now }
        requires few { self.old.count + length seen.now < 2 ^ 32 }
        ensures stands { OnOk result ((scans : List (List Seen)) → StandsFor self.old scans → StandsFor self.new (seen.now ∷ scans)) }
        ensures count { OnOk result (self.new.count ≤ self.old.count + length seen.now) }
        ensures unchanged { OnErr result (self.new ≡ self.old) }
    {
        self.hides.reserve(self.shown.len())?;
        self.nears.reserve(self.shown.len())?;
        self.shows.reserve(seen.len())?;
        self.shown.reserve(seen.len())?;
        self.kept.clear();
        self.kept.reserve(self.shown.len() + seen.len())?;
        mark_all(&mut self.fresh, seen);
        go_on(
            &mut self.shown,
            &self.fresh,
            &mut self.hides,
            &mut self.nears,
            &mut self.kept,
        );
        self.count = begin(
            seen,
            &self.marks,
            self.count,
            &mut self.shows,
            &mut self.shown,
        );
        mem::swap(&mut self.marks, &mut self.fresh);
        Ok(())
    }

    /// How many periods there were.
    pub fn count(&self) -> u32
        ensures { result ≡ self.now.count }
    {
        self.count
    }

    /// The periods that are shown and not hidden, by rising number.
    pub fn shown(&self) -> &[ShownPeriod]
        ensures { result.now ≡ self.now.shown }
    {
        &self.shown
    }

    /// The periods that the last scan hid, by rising number.
    pub fn hides(&self) -> &[u32]
        ensures { result.now ≡ self.now.hides }
    {
        &self.hides
    }

    /// The periods whose level the last scan changed, by rising number.
    pub fn nears(&self) -> &[Near]
        ensures { result.now ≡ self.now.nears }
    {
        &self.nears
    }

    /// What the last scan saw and the one before didn't, by rising number of the object. A period begins with each, and
    /// these periods have the last numbers.
    pub fn shows(&self) -> &[Seen]
        ensures { result.now ≡ self.now.shows }
    {
        &self.shows
    }
}
