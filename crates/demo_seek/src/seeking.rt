//! A demo in memory, with what is kept of the viewer after each 64th record.
ghost use Rattle.std.specs.Prelude.{◌≡◌, ◌≤◌, ◌+◌, ◌/◌, ◌↔◌, ℕ, List, [], OnOk, IfOk, IfErr, Ok, Err, length, drop};
ghost use Rattle.demo_format.specs.Head.{head_in, read_head};
ghost use Rattle.demo_format.specs.Records.{records_of};
ghost use Rattle.demo_format.specs.declared.head.DemoHead.{DemoHead as Head};
ghost use Rattle.demo_replay.specs.Walking.{Begins, IsViewerAfter};
ghost use Rattle.demo_seek.specs.declared.seeking.TheConstants.{KEY_DISTANCE};
ghost use Rattle.demo_seek.specs.Loaded.{AreKeys, IsKept};

use demo_format::{DemoHead, HEAD_BYTES, MAX_DEMO_BYTES, read_head};
use demo_replay::demo_view::{KeptViewer, Viewer};
use demo_replay::{next_record, pass_over};
use std::alloc::Global;
use std::marker::Model;
use std::sync::ledger::Ledger;
use tn_types::{NoMemory, Steps};
use world_rules::match_kinds;

/// How many records lie between two after which a viewer is kept.
pub const KEY_DISTANCE: usize = 64;

/// Why a demo can't be loaded.
#[derive(Clone, Copy, Debug, PartialEq, Eq)]
pub enum DemoFault {
    /// The bytes begin with no head: the place of the first part that is cut off or out of its range.
    Head { place: u32 },
    NoMemory,
}

/// The viewer after so many records, as it is kept, and where the next one begins.
#[derive(Drop)]
pub struct Key {
    pub viewer: KeptViewer,
    pub start: usize,
}

/// The records of a demo, and what is kept of the viewer after each 64th of them. A clause sees the head and the records.
pub struct Demo {
    head: DemoHead,
    // what stands after the head
    bytes: Vec<u8>,
    count: u32,
    keys: Vec<Key>,
}

// Written out, so that a function above that lets a demo go calls this, and doesn't prove again how its parts are let go.
impl Drop for Demo {
    fn drop(self) {
        let Demo {
            head: _head,
            bytes: _bytes,
            count: _count,
            keys: _keys,
        } = self;
    }
}

impl Model for Demo {
    ghost use Rattle.demo_format.specs.Records.{records_of};
    ghost use Rattle.demo_replay.specs.Walking.{DemoState};
    ghost use Rattle.demo_seek.specs.Loaded.{IsKept};

    ghost Value = { DemoState };

    ghost view = { λ d. record { head = d.head; records = records_of d.bytes.items } };

    ghost invariant = { λ d. IsKept d.head d.bytes.items d.count d.keys.items };
}

impl Demo {
    ghost use Rattle.demo_replay.specs.Walking.{demo_in};

    /// The demo of these bytes, at most 16,777,216: `Head` exactly where they begin with no head. Each record is given to a viewer
    /// once at the most, by a step.
    pub fn load<L: Ledger>(
        alloc: Global,
        bytes: &[u8],
        steps: &mut Steps<L>,
    ) -> Result<Demo, DemoFault>
        requires { length bytes.now ≤ MAX_DEMO_BYTES }
        ensures demo { IfOk result (λ d. d ≡ demo_in bytes.now) }
        ensures sound { OnOk result (read_head bytes.now ≡ Ok (head_in bytes.now)) }
        ensures refused { (place : ℕ) → (result ≡ Err (DemoFault.Head place)) ↔ (read_head bytes.now ≡ Err place) }
        ensures steps { steps.new ≤ steps.old + length (demo_in bytes.now).records }
    {
        match read_head(bytes) {
            Ok(head) => Demo::load_behind(alloc, head, bytes, steps),
            Err(place) => Err(DemoFault::Head { place }),
        }
    }

    /// The same where the bytes begin with this head.
    fn load_behind<L: Ledger>(
        alloc: Global,
        head: DemoHead,
        bytes: &[u8],
        steps: &mut Steps<L>,
    ) -> Result<Demo, DemoFault>
        requires long { HEAD_BYTES ≤ length bytes.now }
        requires few { length bytes.now ≤ MAX_DEMO_BYTES }
        ensures demo { IfOk result (λ d. d ≡ record { head = head; records = records_of (drop HEAD_BYTES bytes.now) }) }
        ensures memory { IfErr result (λ fault. fault ≡ DemoFault.NoMemory) }
        ensures steps { steps.new ≤ steps.old + length (records_of (drop HEAD_BYTES bytes.now)) }
    {
        let (_, behind) = bytes.split_at(HEAD_BYTES);
        let Ok(kept) = Vec::from_slice(alloc, behind) else {
            return Err(DemoFault::NoMemory);
        };
        let Ok((keys, count)) = keys_of(alloc, &head, behind, steps) else {
            return Err(DemoFault::NoMemory);
        };
        Ok(Demo {
            head,
            bytes: kept,
            count,
            keys,
        })
    }

    /// How many whole records there are.
    pub fn count(&self) -> u32
        ensures { result ≡ length self.now.records }
    {
        self.count
    }

    /// The viewer after the first `k` records, refused ones counted; `k` is at most [`count`](Demo::count). No event of it waits.
    /// At most 63 records are given to it for that, each by a step.
    pub fn at<L: Ledger>(
        &self,
        alloc: Global,
        k: u32,
        steps: &mut Steps<L>,
    ) -> Result<Viewer, NoMemory>
        requires { k ≤ length self.now.records }
        ensures viewer { IfOk result (IsViewerAfter self.now k) }
        ensures steps { steps.new ≤ steps.old + 63 }
    {
        let key = &self.keys[key_before(k)];
        let mut viewer = key.viewer.again(alloc, &match_kinds())?;
        let further = k % KEY_DISTANCE as u32;
        go_on(
            self.bytes.as_slice(),
            key.start,
            further,
            &mut viewer,
            steps,
        );
        Ok(viewer)
    }
}

/// The number of the last key that doesn't lie after the first `k` records.
fn key_before(k: u32) -> usize
    ensures { result ≡ k / KEY_DISTANCE }
{
    k as usize / KEY_DISTANCE
}

/// The viewer is given so many records more, from where the next one begins.
fn go_on<L: Ledger>(
    bytes: &[u8],
    start: usize,
    count: u32,
    viewer: &mut Viewer,
    steps: &mut Steps<L>,
)
    requires within { start ≤ length bytes.now }
    requires quiet { viewer.old.events.ready ≡ [] }
    ensures viewer { (head : Head) (n : ℕ) → Begins bytes.now n start → n + count ≤ length (records_of bytes.now)
        → IsViewerAfter (record { head = head; records = records_of bytes.now }) n viewer.old
        → IsViewerAfter (record { head = head; records = records_of bytes.now }) (n + count) viewer.new }
    ensures steps { steps.new ≤ steps.old + count }
{
    let mut at = start;
    'going: for i in 0..count {
        let Some(next) = next_record(bytes, at) else {
            return;
        };
        pass_over(viewer, next, steps);
        at += 2 + next.len();
    }
}

/// What is kept of the viewer of these records, and how many records there are.
fn keys_of<L: Ledger>(
    alloc: Global,
    head: &DemoHead,
    bytes: &[u8],
    steps: &mut Steps<L>,
) -> Result<(Vec<Key>, u32), NoMemory>
    requires { length bytes.now ≤ MAX_DEMO_BYTES }
    ensures kept { IfOk result (λ r. IsKept head.now bytes.now r.1 r.0.items) }
    ensures steps { steps.new ≤ steps.old + length (records_of bytes.now) }
{
    let mut viewer = Viewer::new(alloc, &match_kinds(), head.client, head.version)?;
    let mut keys = Vec::new(alloc);
    let mut count = 0;
    let mut start = 0;
    key_where_due(alloc, &mut keys, &viewer, count, start)?;
    'records: while let Some(next) = next_record(bytes, start) {
        pass_over(&mut viewer, next, steps);
        start += 2 + next.len();
        count += 1;
        key_where_due(alloc, &mut keys, &viewer, count, start)?;
    }
    Ok((keys, count))
}

/// Keeps the viewer after the first `count` records, where one is to be kept there.
fn key_where_due(
    alloc: Global,
    keys: &mut Vec<Key>,
    viewer: &Viewer,
    count: u32,
    start: usize,
) -> Result<(), NoMemory>
    ensures { OnOk result ((head : Head) (bytes : List ℕ) → AreKeys head bytes count keys.old.items
        → IsViewerAfter (record { head = head; records = records_of bytes }) count viewer.now
        → Begins bytes count start → AreKeys head bytes (count + 1) keys.new.items) }
{
    if count % KEY_DISTANCE as u32 != 0 {
        return Ok(());
    }
    let viewer = viewer.keep(alloc)?;
    let Ok(()) = keys.push(Key { viewer, start }) else {
        return Err(NoMemory);
    };
    Ok(())
}
