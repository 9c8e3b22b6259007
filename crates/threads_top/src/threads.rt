//! The command `threads`.
ghost use Rattle.std.specs.Prelude.{◌≡◌, ◌⊎◌, [], true, false};
ghost use Rattle.script_input.specs.Reading.{seen};
ghost use Rattle.script_input.specs.Outcome.{Serves};
ghost use Rattle.threads_top.specs.Telling.{racing, RaceLaws};

use crate::judgement::Judgement;
use crate::laws::laws_of_races;
use crate::run::run_threads;
use race_run::FreeGate;
use script_input::{Status, end_call, read_threads_script};
use std::alloc::Global;
use std::sync::Wait;
use std::thread::Threads;
use tn_outside::{Sink, Source};

/// Serves `threads`: reads a script from the source, runs it in threads, and writes to the sink the text of its race (docs/threads.md).
/// Where its race is not legal, the judgement says so, and the text is that of a plain race. What the sink gathers is handed on after the
/// last line.
pub fn top_threads<R: Threads + Wait + Sync, S: Source, K: Sink>(
    rt: &R,
    alloc: Global,
    source: &mut S,
    judgement: &mut Judgement,
    sink: &mut K,
) -> Status
    requires open { judgement.old ≡ false }
    // What each answer says of the source and of the sink, what holds after every answer, and which answer it is: whatever was written is
    // the text of a legal race of the script that was read, or a front of one: of the race that the threads made where that is legal, and
    // else of a plain race, which the judgement says.
    ensures serves { Serves (racing judgement.new)
        (seen (S.held source.old) (S.held source.new) (S.faults source.old) (S.faults source.new))
        (seen (K.written sink.old) (K.written sink.new) (K.faults sink.old) (K.faults sink.new)) result }
    // A race is refused only where the text of a plain one was written, or a front of it.
    ensures refused { judgement.new ≡ true → (result ≡ Status.Done) ⊎ (result ≡ Status.WriteFault) }
    // Where the whole text was written, the sink keeps none of it back.
    ensures handed { result ≡ Status.Done → K.gathered sink.new ≡ [] }
    // In every such text a field that is marked settled, of a client without raw bytes, shows the newest value that the text tells.
    ensures laws { RaceLaws }
{
    laws_of_races();
    match read_threads_script(alloc, source) {
        Ok(script) => {
            let ran = run_threads(rt, alloc, &script, &FreeGate, judgement, sink);
            end_call(ran, sink)
        }
        Err(status) => status,
    }
}
