//! The commands: each has a script, which is read or made, and what the command makes of it is written.
ghost use Rattle.std.specs.Prelude.{◌≡◌, ◌≤◌, [], Err, OnOk, OnErr};
ghost use Rattle.tn_types.specs.declared.limits.TheConstants.{MAX_CLIENTS};
ghost use Rattle.match_script.specs.declared.limits.TheConstants.{MAX_BODY_LINES};
ghost use Rattle.tn_outside.specs.Causes.{HandsOn};
ghost use Rattle.tn_outside.specs.Totals.{Adds, AddsFront};
ghost use Rattle.match_script.specs.Ranges.{HasRanges};
ghost use Rattle.match_count.specs.Counting.{counts_of, tellings};
ghost use Rattle.match_count.specs.Summary.{summary_text};
ghost use Rattle.script_input.specs.Reading.{Seen, seen, IsUntouched};
ghost use Rattle.script_input.specs.Outcome.{Serves};
ghost use Rattle.match_top.specs.Rows.{reporting, serving_alone, counting, CommandLaws};

use crate::laws::laws_of_commands;
use match_count::match_engine::run;
use match_count::{count, put_counts};
use match_script::Script;
use script_input::{Status, end_call, read_script};
use script_maker::make;
use std::alloc::Global;
use tn_outside::{RunFault, Sink, Source, write_all};
use two_worlds::run_alone;

/// Serves `run`: reads a script from the source, runs it, and writes its report to the sink. What the sink gathers is handed on after the
/// last line.
pub fn top_run<S: Source, K: Sink>(alloc: Global, source: &mut S, sink: &mut K) -> Status
    // What each answer says of the source and of the sink, what holds after every answer, and which answer it is.
    ensures serves { Serves reporting
        (seen (S.held source.old) (S.held source.new) (S.faults source.old) (S.faults source.new))
        (seen (K.written sink.old) (K.written sink.new) (K.faults sink.old) (K.faults sink.new)) result }
    // Where the whole text was written, the sink keeps none of it back.
    ensures handed { result ≡ Status.Done → K.gathered sink.new ≡ [] }
    ensures laws { CommandLaws }
{
    laws_of_commands();
    match read_script(alloc, source) {
        Ok(script) => {
            let ran = run(alloc, &script, sink);
            end_call(ran, sink)
        }
        Err(status) => status,
    }
}

/// Serves `alone C`: the same, but it writes what a server writes for its packs that serves client C alone.
pub fn top_alone<S: Source, K: Sink>(
    alloc: Global,
    client: u8,
    source: &mut S,
    sink: &mut K,
) -> Status
    ensures serves { Serves (serving_alone client)
        (seen (S.held source.old) (S.held source.new) (S.faults source.old) (S.faults source.new))
        (seen (K.written sink.old) (K.written sink.new) (K.faults sink.old) (K.faults sink.new)) result }
    ensures handed { result ≡ Status.Done → K.gathered sink.new ≡ [] }
    ensures laws { CommandLaws }
{
    laws_of_commands();
    match read_script(alloc, source) {
        Ok(script) => {
            let ran = run_alone(alloc, &script, client, sink);
            end_call(ran, sink)
        }
        Err(status) => status,
    }
}

/// Counts what the report of a script has, and writes the eight lines that say so.
fn write_counts<K: Sink>(
    alloc: Global,
    seed: u32,
    clients: u8,
    steps: u32,
    script: &Script,
    sink: &mut K,
) -> Result<(), RunFault>
    requires { HasRanges script.now }
    ensures text { OnOk result
        (Adds (K.written sink.old) (K.written sink.new) (summary_text seed clients steps (counts_of (tellings script.now)))) }
    ensures front { OnErr result
        (AddsFront (K.written sink.old) (K.written sink.new) (summary_text seed clients steps (counts_of (tellings script.now)))) }
    ensures cause { HandsOn (K.faults sink.old) (K.faults sink.new) (result ≡ Err RunFault.WriteFault) }
{
    let Ok(counts) = count(alloc, script) else {
        return Err(RunFault::NoMemory);
    };
    let mut text = Vec::new(alloc);
    let Ok(()) = put_counts(alloc, seed, clients, steps, &counts, &mut text) else {
        return Err(RunFault::NoMemory);
    };
    match write_all(sink, text.as_slice()) {
        Ok(()) => Ok(()),
        Err(_) => Err(RunFault::WriteFault),
    }
}

/// Serves `big SEED CLIENTS STEPS`: makes a script of these numbers, and writes what its report has, counted. It reads nothing.
pub fn top_big<K: Sink>(alloc: Global, seed: u32, clients: u8, steps: u32, sink: &mut K) -> Status
    requires clients_least { 1 ≤ clients }
    requires clients { clients ≤ MAX_CLIENTS }
    requires steps { steps ≤ MAX_BODY_LINES }
    // Of whatever source is left as it is.
    ensures serves { (source : Seen) → IsUntouched source → Serves (counting seed clients steps) source
        (seen (K.written sink.old) (K.written sink.new) (K.faults sink.old) (K.faults sink.new)) result }
    ensures handed { result ≡ Status.Done → K.gathered sink.new ≡ [] }
    ensures laws { CommandLaws }
{
    laws_of_commands();
    match make(alloc, seed, clients, steps) {
        Ok(script) => {
            let ran = write_counts(alloc, seed, clients, steps, &script, sink);
            end_call(ran, sink)
        }
        Err(_) => Status::NoMemory,
    }
}
