//! The program: what its words ask for, over standard input, standard output and standard error.
#![tactic(auto)]

ghost use Rattle.std.specs.Prelude.{◌≡◌, false};

use std::alloc::Global;
use std::io::BufWriter;
use std::net::Net;
use std::process::ExitCode;
use std::sync::Wait;
use std::thread::Threads;
use std::time::Clock as SystemTimes;
use std::{env, io};
use tn_outside::{MemLink, Sink, Source, StdSink, StdSource, SteadyClock, SystemClock, UdpLink};
use tribes_program::{Judgement, Status, carry_out, exit_of, port_of};

/// How many bytes are gathered before standard output is called.
const GATHERED_BYTES: usize = 65_536;

/// What is said where the text is not that of the race that the threads made.
const PLAIN_RACE: &str =
    "the race that the threads made is not legal: what was written is the text of a plain race";

/// The words of the command line, without the program's name; `None` where memory was not to be had.
fn arguments(rt: &HostRuntime) -> Option<Vec<String>> {
    let mut words = Vec::new(rt.alloc());
    let mut all = env::args(rt).ok()?;
    all.next();
    for word in all {
        words.push(word).ok()?;
    }
    Some(words)
}

/// A link with no other end, for what needs none.
fn no_link(alloc: Global) -> MemLink<'static> {
    MemLink {
        alloc,
        arrivals: &[],
        came: 0,
        kept: Vec::new(alloc),
        failing_sends: &[],
        failing_receives: &[],
        sends: 0,
        receives: 0,
        faults: 0,
    }
}

/// Carries out what the words ask for: over a link at the port that they want and the system's clock, or over none.
fn over_link<R: Threads + Wait + Net + SystemTimes + Sync, S: Source, K: Sink>(
    rt: &R,
    alloc: Global,
    words: &Vec<String>,
    source: &mut S,
    judgement: &mut Judgement,
    sink: &mut K,
) -> Status
    requires { judgement.old ≡ false }
{
    let Some(port) = port_of(words) else {
        let mut clock = SteadyClock { rest: &[0] };
        return carry_out(
            rt,
            alloc,
            words,
            source,
            &mut no_link(alloc),
            &mut clock,
            judgement,
            sink,
        );
    };
    let Ok(mut link) = UdpLink::bind(rt, port) else {
        return Status::LinkFault;
    };
    let Ok(mut clock) = SystemClock::new(rt) else {
        return Status::ClockFault;
    };
    carry_out(
        rt, alloc, words, source, &mut link, &mut clock, judgement, sink,
    )
}

fn main(rt: HostRuntime) -> ExitCode {
    let mut judgement = Judgement::new();
    let status = match arguments(&rt) {
        Some(words) => {
            let mut source = StdSource::new(rt.reader());
            match BufWriter::with_capacity(rt.alloc(), GATHERED_BYTES, io::writer(&rt)) {
                Ok(out) => over_link(
                    &rt,
                    rt.alloc(),
                    &words,
                    &mut source,
                    &mut judgement,
                    &mut StdSink::new(out),
                ),
                Err(_) => Status::NoMemory,
            }
        }
        None => Status::NoMemory,
    };
    // Where standard error is closed, the exit status alone tells.
    if judgement.is_refused() {
        let _ = eprintln!(rt; "{PLAIN_RACE}");
    }
    if status != Status::Done {
        let _ = eprintln!(rt; "{status}");
    }
    ExitCode::from(exit_of(status))
}
