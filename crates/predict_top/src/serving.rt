//! The command `predict C`.
ghost use Rattle.std.specs.Prelude.{◌≡◌, []};
ghost use Rattle.script_input.specs.Reading.{seen};
ghost use Rattle.script_input.specs.Outcome.{Serves};
ghost use Rattle.predict_top.specs.Text.{prediction_of, PredictionLaws};

use crate::laws::laws_of_predictions;
use predict_match::run_predicted;
use script_input::{Status, end_call, read_script};
use std::alloc::Global;
use tn_outside::{Sink, Source};

/// Serves `predict C`: reads a script from the source, runs it, and writes to the sink what a prediction of client C's player has at each
/// line `show C` (docs/prediction.md); nothing where the match has no client C. What the sink gathers is handed on after the last line.
pub fn top_predict<S: Source, K: Sink>(
    alloc: Global,
    client: u8,
    source: &mut S,
    sink: &mut K,
) -> Status
    // What each answer says of the source and of the sink, what holds after every answer, and which answer it is: whatever was written are
    // the lines of the prediction over what happened at the client's end, or a front of them.
    ensures serves { Serves (prediction_of client)
        (seen (S.held source.old) (S.held source.new) (S.faults source.old) (S.faults source.new))
        (seen (K.written sink.old) (K.written sink.new) (K.faults sink.old) (K.faults sink.new)) result }
    // Where the whole text was written, the sink keeps none of it back.
    ensures handed { result ≡ Status.Done → K.gathered sink.new ≡ [] }
    ensures laws { PredictionLaws }
{
    laws_of_predictions();
    match read_script(alloc, source) {
        Ok(script) => {
            let ran = run_predicted(alloc, &script, client, sink);
            end_call(ran, sink)
        }
        Err(status) => status,
    }
}
