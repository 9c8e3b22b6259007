//! The steps that were made, in order.
ghost use Rattle.std.specs.Prelude.{◌≡◌, true, ◌<◌, ◌≤◌, ◌+◌, [], ◌∷◌, ◌++◌, OnOk, OnErr, IfSome, IsNone, ◌↔◌, Some, length, slice_get};
ghost use Rattle.kept_pair.specs.StepLists.{kept_of, is_pack, drains_at, reads_at, drains_start, reads_start, part};

use crate::entry::Entry;
use crate::limits::MAX_KEPT_STEPS;
use pair_core::PairStep;
use pair_core::conn_packing::MAX_PACKET_VALUES;
use std::alloc::Global;
use std::marker::Model;
use tn_types::{Drain, NoMemory, Read};

/// Steps in the order in which they were made, each pack with what it drained and read.
///
/// A clause sees the list of them, whether there is room for one more, and for how many drains of it. The drains of all steps lie
/// in one list, and the reads in another, so that a step takes the room that it uses.
#[derive(Drop)]
pub struct StepList {
    entries: Vec<Entry>,
    drains: Vec<Drain>,
    reads: Vec<Read>,
}

impl Model for StepList {
    ghost use Rattle.std.specs.Prelude.{◌+◌, ◌-◌, ◌≤◌, nat_le, nat_lt, ◌&&◌, length, vec_len, vec_capacity};
    ghost use Rattle.pair_core.specs.conn_packing.declared.asking.TheConstants.{MAX_PACKET_VALUES};
    ghost use Rattle.kept_pair.specs.declared.limits.TheConstants.{MAX_KEPT_STEPS};
    ghost use Rattle.kept_pair.specs.StepLists.{Steps, cut, Rise};

    ghost Value = { Steps };

    ghost view = { λ s. record {
      list = cut 0 0 s.entries.items s.drains.items s.reads.items;
      has_room = nat_lt (vec_len s.entries) MAX_KEPT_STEPS && (nat_lt (vec_len s.entries) (vec_capacity s.entries)
          && nat_le (vec_len s.reads + MAX_PACKET_VALUES) (vec_capacity s.reads));
      drain_room = vec_capacity s.drains - vec_len s.drains;
    } };

    ghost invariant = { λ s. Rise 0 0 s.entries.items (length s.drains.items) (length s.reads.items)
        × (length s.entries.items ≤ MAX_KEPT_STEPS) };
}

/// Whether it is a pack.
fn is_pack(step: &PairStep) -> bool
    ensures { result ≡ is_pack step.now }
{
    matches!(step, PairStep::Pack)
}

/// Where the drains and the reads of this place begin.
fn starts(entries: &[Entry], i: usize) -> (usize, usize)
    requires { i < length entries.now }
    ensures drains { result.0 ≡ drains_start 0 entries.now i }
    ensures reads { result.1 ≡ reads_start 0 entries.now i }
{
    if i == 0 {
        return (0, 0);
    }
    let before = &entries[i - 1];
    (before.drains_end, before.reads_end)
}

/// The drains from one place to another.
fn drains_between(drains: &[Drain], start: usize, end: usize) -> &[Drain]
    requires rise { start ≤ end }
    requires there { end ≤ length drains.now }
    ensures { result.now ≡ part start end drains.now }
{
    &drains[start..end]
}

/// The reads from one place to another.
fn reads_between(reads: &[Read], start: usize, end: usize) -> &[Read]
    requires rise { start ≤ end }
    requires there { end ≤ length reads.now }
    ensures { result.now ≡ part start end reads.now }
{
    &reads[start..end]
}

impl StepList {
    /// No step.
    pub(crate) fn new(alloc: Global) -> StepList
        ensures { result.list ≡ [] }
    {
        StepList {
            entries: Vec::new(alloc),
            drains: Vec::new(alloc),
            reads: Vec::new(alloc),
        }
    }

    /// How many steps these are, at most `MAX_KEPT_STEPS`.
    pub fn len(&self) -> u32
        ensures count { result ≡ length self.now.list }
        ensures few { result ≤ MAX_KEPT_STEPS }
    {
        self.entries.len() as u32
    }

    /// The step of this place, counted from 0; `None` exactly where there is none. Of a pack it says no more than that it is one.
    pub fn get(&self, i: u32) -> Option<&PairStep>
        ensures none { IsNone result ↔ (length self.now.list ≤ i) }
        ensures value { IfSome result (λ step. slice_get self.now.list i
            ≡ Some (kept_of step.now (drains_at self.now.list i) (reads_at self.now.list i))) }
    {
        let i = i as usize;
        if i >= self.entries.len() {
            return None;
        }
        Some(&self.entries[i].step)
    }

    /// What the step of this place drained: nothing where it is no pack.
    pub fn drains(&self, i: u32) -> &[Drain]
        requires { i < length self.now.list }
        ensures { result.now ≡ drains_at self.now.list i }
    {
        let i = i as usize;
        let entry = &self.entries[i];
        if is_pack(&entry.step) {
            let start = starts(self.entries.as_slice(), i).0;
            return drains_between(self.drains.as_slice(), start, entry.drains_end);
        }
        &[]
    }

    /// What the step of this place read: nothing where it is no pack.
    pub fn reads(&self, i: u32) -> &[Read]
        requires { i < length self.now.list }
        ensures { result.now ≡ reads_at self.now.list i }
    {
        let i = i as usize;
        let entry = &self.entries[i];
        if is_pack(&entry.step) {
            let start = starts(self.entries.as_slice(), i).1;
            return reads_between(self.reads.as_slice(), start, entry.reads_end);
        }
        &[]
    }

    /// Whether there is room for one more step, whatever it reads.
    pub(crate) fn has_room(&self) -> bool
        ensures { result ≡ self.now.has_room }
    {
        self.entries.len() < MAX_KEPT_STEPS as usize
            && self.entries.len() < self.entries.capacity()
            && self.reads.capacity() - self.reads.len() >= MAX_PACKET_VALUES
    }

    /// Makes room for one more step with so many drains, where fewer than `MAX_KEPT_STEPS` are kept. Where memory is wanting, the
    /// room for a step is as it was, and that for drains is no smaller.
    pub(crate) fn prepare(&mut self, drains: usize) -> Result<(), NoMemory>
        requires few { length self.old.list < MAX_KEPT_STEPS }
        ensures list { self.new.list ≡ self.old.list }
        ensures room { OnOk result (self.new.has_room ≡ true) }
        ensures drains { OnOk result (drains ≤ self.new.drain_room) }
        ensures no_smaller { self.old.drain_room ≤ self.new.drain_room }
        ensures unchanged { OnErr result (self.new.has_room ≡ self.old.has_room) }
    {
        if self.drains.reserve(drains).is_err() {
            return Err(NoMemory);
        }
        if self.entries.reserve(1).is_err() {
            return Err(NoMemory);
        }
        if self.reads.reserve(MAX_PACKET_VALUES).is_err() {
            return Err(NoMemory);
        }
        Ok(())
    }

    /// Adds a step, for which there is room.
    pub(crate) fn push(&mut self, step: PairStep, drains: &[Drain], reads: &[Read])
        requires room { self.old.has_room ≡ true }
        requires few_drains { length drains.now ≤ self.old.drain_room }
        requires few_reads { length reads.now ≤ MAX_PACKET_VALUES }
        ensures list { self.new.list ≡ self.old.list ++ kept_of step drains.now reads.now ∷ [] }
        ensures few { length self.new.list ≤ MAX_KEPT_STEPS }
        ensures drain_room { self.old.drain_room ≤ self.new.drain_room + length drains.now }
    {
        if self.drains.extend_from_slice(drains).is_err() {
            unreachable!()
        }
        if self.reads.extend_from_slice(reads).is_err() {
            unreachable!()
        }
        self.entries.push_reserved(Entry {
            step,
            drains_end: self.drains.len(),
            reads_end: self.reads.len(),
        });
    }
}
