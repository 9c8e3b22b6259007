//! The whole text of a replay.
ghost use Rattle.std.specs.Prelude.{◌≡◌, ◌≤◌, ◌+◌, ◌↔◌, ℕ, [], OnOk, OnErr, Ok, Err, length, drop};
ghost use Rattle.tn_outside.specs.Causes.{HandsOn};
ghost use Rattle.tn_outside.specs.Totals.{Adds, AddsFront};
ghost use Rattle.demo_format.specs.Head.{head_in, read_head};
ghost use Rattle.demo_format.specs.Records.{records_of};
ghost use Rattle.demo_format.specs.declared.head.DemoHead.{DemoHead as Head};
ghost use Rattle.demo_view.specs.Viewing.{taking};
ghost use Rattle.demo_view.specs.Stands.{terms_of};
ghost use Rattle.demo_view.specs.Calls.{Becomes};
ghost use Rattle.demo_replay.specs.Replaying.{replay_of, replay_text, replay_at_of, replay_at_text};
ghost use Rattle.demo_replay.specs.Walking.{IsViewerAfter};
ghost use Rattle.demo_replay.specs.Writing.{TellsRecord, TellsShown};

use crate::next::next_record;
use crate::passing::pass_by;
use crate::telling::{tell_record, tell_shown, word_for};
use demo_format::{DemoHead, HEAD_BYTES, MAX_DEMO_BYTES, ends_here, read_head};
use demo_view::Viewer;
use match_report::EventTold;
use std::alloc::Global;
use tn_outside::{Sink, write_all};
use tn_types::MAX_READ_BYTES;
use world_rules::match_kinds;

/// Why a demo was not told to its end.
#[derive(Clone, Copy, Debug, PartialEq, Eq)]
pub enum ReplayFault {
    /// The bytes begin with no head: the place of the first part that is cut off or out of its range. Nothing was written.
    Head { place: u32 },
    /// Memory was not to be had; a front of the text was written.
    NoMemory,
    /// The sink failed; a front of the text was written.
    WriteFault,
}

/// Writes a line of the replay. After an error a front of it was written.
fn hand_on<K: Sink>(line: &[u8], sink: &mut K) -> Result<(), ReplayFault>
    ensures written { OnOk result (Adds (K.written sink.old) (K.written sink.new) line.now) }
    ensures front { OnErr result (AddsFront (K.written sink.old) (K.written sink.new) line.now) }
    ensures head { (place : ℕ) → result ≡ Err (ReplayFault.Head place) → ⊥ }
    ensures cause { HandsOn (K.faults sink.old) (K.faults sink.new) (result ≡ Err ReplayFault.WriteFault) }
{
    match write_all(sink, line) {
        Ok(()) => Ok(()),
        Err(_) => Err(ReplayFault::WriteFault),
    }
}

/// The viewer is given record `k`, and the line of what it does is written. `events` and `text` are only places.
fn tell_next<K: Sink>(
    alloc: Global,
    viewer: &mut Viewer,
    k: u32,
    next: &[u8],
    events: &mut Vec<EventTold>,
    text: &mut Vec<u8>,
    sink: &mut K,
) -> Result<(), ReplayFault>
    requires few { length next.now ≤ MAX_READ_BYTES }
    requires quiet { viewer.old.events.ready ≡ [] }
    ensures written { OnOk result (TellsRecord Adds viewer.old k next.now (K.written sink.old) (K.written sink.new)) }
    ensures front { OnErr result (TellsRecord AddsFront viewer.old k next.now (K.written sink.old) (K.written sink.new)) }
    ensures stands { Becomes viewer.old (taking (terms_of viewer.old) next.now) viewer.new }
    ensures terms { terms_of viewer.new ≡ terms_of viewer.old }
    ensures quiet { OnOk result (viewer.new.events.ready ≡ []) }
    ensures head { (place : ℕ) → result ≡ Err (ReplayFault.Head place) → ⊥ }
    ensures cause { HandsOn (K.faults sink.old) (K.faults sink.new) (result ≡ Err ReplayFault.WriteFault) }
{
    let Ok(()) = tell_record(alloc, viewer, k, next, events, text) else {
        return Err(ReplayFault::NoMemory);
    };
    hand_on(text.as_slice(), sink)
}

/// The last line is written: what a viewer shows, after a word. `text` is only a place for it.
fn tell_end<K: Sink>(
    alloc: Global,
    viewer: &Viewer,
    word: &str,
    text: &mut Vec<u8>,
    sink: &mut K,
) -> Result<(), ReplayFault>
    ensures written { OnOk result (TellsShown Adds viewer.now word.now (K.written sink.old) (K.written sink.new)) }
    ensures front { OnErr result (TellsShown AddsFront viewer.now word.now (K.written sink.old) (K.written sink.new)) }
    ensures head { (place : ℕ) → result ≡ Err (ReplayFault.Head place) → ⊥ }
    ensures cause { HandsOn (K.faults sink.old) (K.faults sink.new) (result ≡ Err ReplayFault.WriteFault) }
{
    let Ok(()) = tell_shown(alloc, viewer, word, text) else {
        return Err(ReplayFault::NoMemory);
    };
    hand_on(text.as_slice(), sink)
}

/// All lines of what stands after a head.
fn tell_all<K: Sink>(
    alloc: Global,
    head: &DemoHead,
    body: &[u8],
    sink: &mut K,
) -> Result<(), ReplayFault>
    requires { length body.now ≤ MAX_DEMO_BYTES }
    ensures text { OnOk result (Adds (K.written sink.old) (K.written sink.new) (replay_of head.now body.now)) }
    ensures front { OnErr result (AddsFront (K.written sink.old) (K.written sink.new) (replay_of head.now body.now)) }
    ensures head { (place : ℕ) → result ≡ Err (ReplayFault.Head place) → ⊥ }
    ensures cause { HandsOn (K.faults sink.old) (K.faults sink.new) (result ≡ Err ReplayFault.WriteFault) }
{
    let Ok(mut viewer) = Viewer::new(alloc, &match_kinds(), head.client, head.version) else {
        return Err(ReplayFault::NoMemory);
    };
    let mut events = Vec::new(alloc);
    let mut text = Vec::new(alloc);
    let mut k = 0;
    let mut start = 0;
    'records: while let Some(next) = next_record(body, start) {
        tell_next(alloc, &mut viewer, k, next, &mut events, &mut text, sink)?;
        start += 2 + next.len();
        k += 1;
    }
    let (_, rest) = body.split_at(start);
    tell_end(alloc, &viewer, word_for(ends_here(rest)), &mut text, sink)
}

/// A new viewer is given so many records, or all where there are fewer.
fn pass_first(body: &[u8], count: u32, viewer: &mut Viewer)
    requires { viewer.old.events.ready ≡ [] }
    ensures { (head : Head) → IsViewerAfter (record { head = head; records = records_of body.now }) 0 viewer.old
        → IsViewerAfter (record { head = head; records = records_of body.now }) count viewer.new }
{
    let mut at = 0;
    'going: for i in 0..count {
        let Some(next) = next_record(body, at) else {
            return;
        };
        pass_by(viewer, next);
        at += 2 + next.len();
    }
}

/// The one line of what is shown after the first records of what stands after a head.
fn tell_at<K: Sink>(
    alloc: Global,
    head: &DemoHead,
    body: &[u8],
    k: u32,
    sink: &mut K,
) -> Result<(), ReplayFault>
    ensures text { OnOk result (Adds (K.written sink.old) (K.written sink.new) (replay_at_of head.now body.now k)) }
    ensures front { OnErr result (AddsFront (K.written sink.old) (K.written sink.new) (replay_at_of head.now body.now k)) }
    ensures head { (place : ℕ) → result ≡ Err (ReplayFault.Head place) → ⊥ }
    ensures cause { HandsOn (K.faults sink.old) (K.faults sink.new) (result ≡ Err ReplayFault.WriteFault) }
{
    let Ok(mut viewer) = Viewer::new(alloc, &match_kinds(), head.client, head.version) else {
        return Err(ReplayFault::NoMemory);
    };
    pass_first(body, k, &mut viewer);
    let mut text = Vec::new(alloc);
    tell_end(alloc, &viewer, "at", &mut text, sink)
}

/// Writes the text of a replay of any bytes, at most 16,777,216: a line for each whole record, and a last one. `Head` comes exactly
/// where the bytes begin with no head.
pub fn replay<K: Sink>(alloc: Global, bytes: &[u8], sink: &mut K) -> Result<(), ReplayFault>
    requires { length bytes.now ≤ MAX_DEMO_BYTES }
    ensures text { OnOk result (Adds (K.written sink.old) (K.written sink.new) (replay_text bytes.now)) }
    ensures sound { OnOk result (read_head bytes.now ≡ Ok (head_in bytes.now)) }
    ensures refused { (place : ℕ) → (result ≡ Err (ReplayFault.Head place)) ↔ (read_head bytes.now ≡ Err place) }
    ensures untouched { (place : ℕ) → result ≡ Err (ReplayFault.Head place)
        → (K.written sink.new ≡ K.written sink.old) × (K.faults sink.new ≡ K.faults sink.old) }
    ensures front { OnErr result (AddsFront (K.written sink.old) (K.written sink.new) (replay_text bytes.now)) }
    ensures cause { HandsOn (K.faults sink.old) (K.faults sink.new) (result ≡ Err ReplayFault.WriteFault) }
{
    match read_head(bytes) {
        Ok(head) => {
            let (_, body) = bytes.split_at(HEAD_BYTES);
            tell_all(alloc, &head, body, sink)
        }
        Err(place) => Err(ReplayFault::Head { place }),
    }
}

/// Writes the text of a replay of the first `k` records of any bytes, or of all where there are fewer: one line. `Head` as for
/// [`replay`].
pub fn replay_at<K: Sink>(
    alloc: Global,
    bytes: &[u8],
    k: u32,
    sink: &mut K,
) -> Result<(), ReplayFault>
    requires { length bytes.now ≤ MAX_DEMO_BYTES }
    ensures text { OnOk result (Adds (K.written sink.old) (K.written sink.new) (replay_at_text bytes.now k)) }
    ensures sound { OnOk result (read_head bytes.now ≡ Ok (head_in bytes.now)) }
    ensures refused { (place : ℕ) → (result ≡ Err (ReplayFault.Head place)) ↔ (read_head bytes.now ≡ Err place) }
    ensures untouched { (place : ℕ) → result ≡ Err (ReplayFault.Head place)
        → (K.written sink.new ≡ K.written sink.old) × (K.faults sink.new ≡ K.faults sink.old) }
    ensures front { OnErr result (AddsFront (K.written sink.old) (K.written sink.new) (replay_at_text bytes.now k)) }
    ensures cause { HandsOn (K.faults sink.old) (K.faults sink.new) (result ≡ Err ReplayFault.WriteFault) }
{
    match read_head(bytes) {
        Ok(head) => {
            let (_, body) = bytes.split_at(HEAD_BYTES);
            tell_at(alloc, &head, body, k, sink)
        }
        Err(place) => Err(ReplayFault::Head { place }),
    }
}
