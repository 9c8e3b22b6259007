//! The command `relay`.
ghost use Rattle.std.specs.Prelude.{◌≡◌, []};
ghost use Rattle.script_input.specs.Reading.{seen};
ghost use Rattle.script_input.specs.Outcome.{Serves};
ghost use Rattle.relay_top.specs.Text.{relaying, RelayLaws};

use crate::laws::laws_of_relays;
use crate::reading::read_relay_script;
use relay_node::run_relay;
use script_input::{Status, end_call};
use std::alloc::Global;
use tn_outside::{Sink, Source};

/// Serves `relay`: reads a relay script from the source, runs it, and writes its report to the sink (docs/relay.md). What the sink
/// gathers is handed on after the last line.
pub fn top_relay<S: Source, K: Sink>(alloc: Global, source: &mut S, sink: &mut K) -> Status
    // What each answer says of the source and of the sink, what holds after every answer, and which answer it is: whatever was written is
    // the report of the relay script that was read, or a front of it.
    ensures serves { Serves relaying
        (seen (S.held source.old) (S.held source.new) (S.faults source.old) (S.faults source.new))
        (seen (K.written sink.old) (K.written sink.new) (K.faults sink.old) (K.faults sink.new)) result }
    // Where the whole report was written, the sink keeps none of it back.
    ensures handed { result ≡ Status.Done → K.gathered sink.new ≡ [] }
    ensures laws { RelayLaws }
{
    laws_of_relays();
    match read_relay_script(alloc, source) {
        Ok(script) => {
            let ran = run_relay(alloc, &script, sink);
            end_call(ran, sink)
        }
        Err(status) => status,
    }
}
