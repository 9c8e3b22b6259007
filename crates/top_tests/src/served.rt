//! Calls of the program over a source and a sink in memory, and texts that are written out for them.
ghost use Rattle.std.specs.Prelude.{◌<◌};

use commands::{Command, command_of};
use match_top::{top_alone, top_big, top_run};
use script_input::Status;
use std::alloc::{AllocError, Global};
use tn_outside::{MemSink, MemSource, Sink, Source, SteadySource};

/// More bytes than a script or a line of its report here has.
pub(crate) const ALL: usize = 4096;

/// A part of a text.
#[derive(Clone, Copy)]
pub(crate) enum Part {
    /// These words as they stand.
    Words(&'static str),
    /// The same words so many times.
    Times(u32, &'static str),
    /// A line for each number from the first on, so many: the number between words.
    Numbered(u32, u32, &'static str, &'static str),
}

// Carries out a command over a source and a sink.
fn carry_out<S: Source, K: Sink>(
    alloc: Global,
    words: &Vec<String>,
    source: &mut S,
    sink: &mut K,
) -> Status {
    match command_of(words) {
        Ok(Command::Run) => top_run(alloc, source, sink),
        Ok(Command::Alone { client }) => top_alone(alloc, client, source, sink),
        Ok(
            Command::Big {
                seed,
                clients,
                steps,
            },
        ) => top_big(alloc, seed, clients, steps, sink),
        Ok(_) => Status::Usage(0),
        Err(place) => Status::Usage(place),
    }
}

/// What a call with these words answers, and what it writes. The source gives and the sink takes at most `most` bytes a
/// call, and the calls with these numbers fail.
pub(crate) fn served<'a>(
    rt: &HostRuntime,
    words: &[&str],
    text: &'a [u8],
    most: usize,
    failing_reads: &'a [u64],
    failing_writes: &'a [u64],
) -> Result<(Status, Vec<u8>), AllocError>
    requires { 0 < most }
{
    let mut all = Vec::new(rt.alloc());
    for word in words {
        all.push(String::from_str(rt.alloc(), word)?)?;
    }
    let mut source = MemSource {
        inner: SteadySource { rest: text, most },
        failing: failing_reads,
        calls: 0,
        faults: 0,
    };
    let mut sink = MemSink {
        bytes: Vec::new(rt.alloc()),
        most,
        failing: failing_writes,
        calls: 0,
        faults: 0,
    };
    let status = carry_out(rt.alloc(), &all, &mut source, &mut sink);
    let MemSink {
        bytes,
        most: _,
        failing: _,
        calls: _,
        faults: _,
    } = sink;
    Ok((status, bytes))
}

/// Whether a call with these words, for which no read or write fails, answers and writes this.
pub(crate) fn writes(
    rt: &HostRuntime,
    words: &[&str],
    text: &[u8],
    status: Status,
    written: &[u8],
) -> bool {
    match served(rt, words, text, ALL, &[], &[]) {
        Ok((found, bytes)) => found == status && bytes.as_slice() == written,
        Err(_) => false,
    }
}

/// Holds that `run` writes of each script its report; the name of the first of which it doesn't is told.
pub(crate) fn hold(
    rt: &HostRuntime,
    rows: &[(&'static str, &str, &str)],
) -> Result<(), &'static str> {
    for (name, script, report) in rows {
        if !writes(
            rt,
            &["run"],
            script.as_bytes(),
            Status::Done,
            report.as_bytes(),
        ) {
            return Err(*name);
        }
    }
    Ok(())
}

// One part after a text.
fn write_part(part: Part, alloc: Global, text: &mut String) -> Result<(), AllocError> {
    match part {
        Part::Words(words) => text.push_str(words)?,
        Part::Times(count, words) => write_times(count, words, text)?,
        Part::Numbered(first, count, before, behind) => {
            for k in 0..count {
                let number = first.wrapping_add(k);
                let line = format!(in alloc; "{before}{number}{behind}")?;
                text.push_str(line.as_str())?;
            }
        }
    }
    Ok(())
}

// The same words so many times after a text.
fn write_times(count: u32, words: &str, text: &mut String) -> Result<(), AllocError> {
    for _ in 0..count {
        text.push_str(words)?;
    }
    Ok(())
}

/// The text of these parts.
pub(crate) fn written_out(alloc: Global, parts: &[Part]) -> Result<String, AllocError> {
    let mut text = String::new(alloc);
    for part in parts {
        write_part(*part, alloc, &mut text)?;
    }
    Ok(text)
}
