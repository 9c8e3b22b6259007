//! The commands on demos: each reads a script or a demo, and writes what it makes of it.
ghost use Rattle.std.specs.Prelude.{◌≡◌, ◌≤◌, List, [], ℕ, length, Err, OnOk};
ghost use Rattle.tn_outside.specs.Causes.{HandsOn};
ghost use Rattle.tn_outside.specs.Totals.{Adds, AddsFront};
ghost use Rattle.script_input.specs.Reading.{seen};
ghost use Rattle.script_input.specs.Outcome.{Serves, Writes};
ghost use Rattle.demo_format.specs.Head.{read_head};
ghost use Rattle.demo_top.specs.Laws.{ToldOfClient, DemoLaws};
ghost use Rattle.demo_top.specs.Rows.{recording, replaying};

use crate::laws::{laws_of_demos, replay_tells_the_client};
use demo_format::MAX_DEMO_BYTES;
use demo_record::write_demo_of;
use demo_replay::{ReplayFault, replay, replay_at};
use script_input::{Status, end_call, read_all, read_script};
use std::alloc::Global;
use tn_outside::{Sink, Source};

/// Serves `demo C`: reads a script from the source, and writes the demo of client C to the sink (docs/demos.md). What the sink gathers is
/// handed on after the last byte.
pub fn top_demo<S: Source, K: Sink>(
    alloc: Global,
    client: u8,
    source: &mut S,
    sink: &mut K,
) -> Status
    // What each answer says of the source and of the sink, what holds after every answer, and which answer it is.
    ensures serves { Serves (recording client)
        (seen (S.held source.old) (S.held source.new) (S.faults source.old) (S.faults source.new))
        (seen (K.written sink.old) (K.written sink.new) (K.faults sink.old) (K.faults sink.new)) result }
    // Where the whole demo was written, the sink keeps none of it back.
    ensures handed { result ≡ Status.Done → K.gathered sink.new ≡ [] }
    // The demo that was written, replayed, tells the events of the client's `down` lines in order, and at its end the client's copies.
    ensures tells_the_client { result ≡ Status.Done → ToldOfClient client (S.held source.old) (S.held source.new) }
{
    replay_tells_the_client();
    match read_script(alloc, source) {
        Ok(script) => {
            let ran = write_demo_of(alloc, &script, client, sink);
            end_call(ran, sink)
        }
        Err(status) => status,
    }
}

/// Writes what is told of a demo: all of it, or what is shown after so many records.
fn tell<K: Sink>(
    alloc: Global,
    count: Option<u32>,
    bytes: &[u8],
    sink: &mut K,
) -> Result<(), ReplayFault>
    requires { length bytes.now ≤ MAX_DEMO_BYTES }
    ensures text { OnOk result (Writes (replaying count) Adds bytes.now (K.written sink.old) (K.written sink.new)) }
    ensures refused { (place : ℕ) → result ≡ Err (ReplayFault.Head place)
        → (read_head bytes.now ≡ Err place) × (K.written sink.new ≡ K.written sink.old) × (K.faults sink.new ≡ K.faults sink.old) }
    ensures failed { result ≡ Err ReplayFault.WriteFault
        → Writes (replaying count) AddsFront bytes.now (K.written sink.old) (K.written sink.new) }
    ensures memory { result ≡ Err ReplayFault.NoMemory
        → Writes (replaying count) AddsFront bytes.now (K.written sink.old) (K.written sink.new) }
    ensures cause { HandsOn (K.faults sink.old) (K.faults sink.new) (result ≡ Err ReplayFault.WriteFault) }
{
    match count {
        None => replay(alloc, bytes, sink),
        Some(count) => replay_at(alloc, bytes, count, sink),
    }
}

/// Serves `replay`, and with a count `replay K`: reads a demo from the source, and tells it to the sink, or what is shown after its first
/// K records.
pub fn top_replay<S: Source, K: Sink>(
    alloc: Global,
    count: Option<u32>,
    source: &mut S,
    sink: &mut K,
) -> Status
    ensures serves { Serves (replaying count)
        (seen (S.held source.old) (S.held source.new) (S.faults source.old) (S.faults source.new))
        (seen (K.written sink.old) (K.written sink.new) (K.faults sink.old) (K.faults sink.new)) result }
    ensures handed { result ≡ Status.Done → K.gathered sink.new ≡ [] }
    ensures laws { DemoLaws }
{
    laws_of_demos();
    let bytes = match read_all(alloc, source, MAX_DEMO_BYTES) {
        Ok(bytes) => bytes,
        Err(status) => return status,
    };
    match tell(alloc, count, bytes.as_slice(), sink) {
        Ok(()) => match sink.flush() {
            Ok(()) => Status::Done,
            Err(_) => Status::WriteFault,
        },
        Err(ReplayFault::Head { place }) => Status::Demo(place),
        Err(ReplayFault::WriteFault) => Status::WriteFault,
        Err(ReplayFault::NoMemory) => Status::NoMemory,
    }
}
