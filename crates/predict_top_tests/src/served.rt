//! Calls of `predict` over a source and a sink in memory.
ghost use Rattle.std.specs.Prelude.{◌<◌};

use commands::{Command, command_of};
use predict_top::top_predict;
use script_input::Status;
use std::alloc::{AllocError, Global};
use tn_outside::{MemSink, MemSource, Sink, Source, SteadySource};

// Carries out a command over a source and a sink.
fn carry_out<S: Source, K: Sink>(
    alloc: Global,
    words: &Vec<String>,
    source: &mut S,
    sink: &mut K,
) -> Status {
    match command_of(words) {
        Ok(Command::Predict { client }) => top_predict(alloc, client, source, sink),
        Ok(_) => Status::Usage(0),
        Err(place) => Status::Usage(place),
    }
}

/// What a call with these words answers, and what it writes. The source gives and the sink takes at most `most` bytes a
/// call, and the calls with these numbers fail.
pub(crate) fn served<'a>(
    rt: &HostRuntime,
    words: &[&str],
    text: &'a [u8],
    most: usize,
    failing_reads: &'a [u64],
    failing_writes: &'a [u64],
) -> Result<(Status, Vec<u8>), AllocError>
    requires { 0 < most }
{
    let mut all = Vec::new(rt.alloc());
    for word in words {
        all.push(String::from_str(rt.alloc(), word)?)?;
    }
    let mut source = MemSource {
        inner: SteadySource { rest: text, most },
        failing: failing_reads,
        calls: 0,
        faults: 0,
    };
    let mut sink = MemSink {
        bytes: Vec::new(rt.alloc()),
        most,
        failing: failing_writes,
        calls: 0,
        faults: 0,
    };
    let status = carry_out(rt.alloc(), &all, &mut source, &mut sink);
    let MemSink {
        bytes,
        most: _,
        failing: _,
        calls: _,
        faults: _,
    } = sink;
    Ok((status, bytes))
}
