//! The run of a script, line by line, beside a prediction of one client's player.
ghost use Rattle.std.specs.Prelude.{◌≡◌, ◌<◌, List, ◌∷◌, OnOk, OnErr, IfOk, Err, length};
ghost use Rattle.match_script.specs.declared.limits.TheConstants.{MAX_COUNTED_LINES};
ghost use Rattle.tn_outside.specs.Causes.{HandsOn};
ghost use Rattle.tn_outside.specs.Totals.{Adds, AddsFront};
ghost use Rattle.match_script.specs.declared.types.BodyLine.{BodyLine as OneLine};
ghost use Rattle.match_script.specs.Ranges.{HasRanges, LineFits};
ghost use Rattle.match_engine.specs.Match.{StandsFor, Does};
ghost use Rattle.client_predict.specs.Laws.{AcceptedChangesNothing, OffsetSettles};
ghost use Rattle.predict_laws.specs.predict_lines.Changes.{IsChange};
ghost use Rattle.predict_laws.specs.predict_lines.Lines.{end_of, prediction_line, is_show, predicted_at, predicted};
ghost use Rattle.predict_laws.specs.Promise.{ValueIsServers};
ghost use Rattle.predict_match.specs.Beside.{StandBeside};

use client_predict::{Predict, accepted_changes_nothing, offset_settles};
use match_engine::Match;
use match_script::{BodyLine, Script};
use predict_laws::predict_lines::{EndChange, change_of, follow, put_prediction};
use predict_laws::value_is_servers;
use std::alloc::Global;
use tn_outside::{RunFault, Sink, write_all};
use tn_types::NoMemory;

/// Whether a line shows what this client has.
fn is_show(client: u8, line: &BodyLine) -> bool
    ensures { result ≡ is_show client line.now }
{
    match line {
        BodyLine::Show { client: named } => *named == client,
        _ => false,
    }
}

/// Writes the line of a prediction. `text` is only a place for it.
fn write_prediction<K: Sink>(
    client: u8,
    predict: &Predict,
    text: &mut String,
    sink: &mut K,
) -> Result<(), RunFault>
    ensures written { OnOk result
        (Adds (K.written sink.old) (K.written sink.new) (prediction_line client predict.now.value predict.now.offset)) }
    ensures front { OnErr result
        (AddsFront (K.written sink.old) (K.written sink.new) (prediction_line client predict.now.value predict.now.offset)) }
    ensures cause { HandsOn (K.faults sink.old) (K.faults sink.new) (result ≡ Err RunFault.WriteFault) }
{
    text.clear();
    let Ok(()) = put_prediction(text, client, predict.value(), predict.offset()) else {
        return Err(RunFault::NoMemory);
    };
    match write_all(sink, text.as_bytes()) {
        Ok(()) => Ok(()),
        Err(_) => Err(RunFault::WriteFault),
    }
}

/// Does a line of the match, and says what it did at a client's end.
fn change_by(
    alloc: Global,
    game: &mut Match,
    client: u8,
    line: &BodyLine,
) -> Result<EndChange, NoMemory>
    requires stands { (past : List OneLine) × StandsFor game.old past }
    requires fits { LineFits game.old.script.head.clients line.now }
    requires few { game.old.game.done < MAX_COUNTED_LINES }
    ensures stands { OnOk result (Does game.old line.now game.new) }
    ensures script { game.new.script ≡ game.old.script }
    ensures change { IfOk result (λ change. (past : List OneLine) → StandsFor game.old past
        → IsChange change (end_of game.old.script.head past client) (end_of game.old.script.head (line.now ∷ past) client)) }
{
    game.feed(alloc, line)?;
    let Some(told) = game.told() else {
        unreachable!()
    };
    Ok(change_of(client, line, told))
}

/// Does a line of the match, tells the prediction what it did at the client's end, and writes the prediction where the line shows
/// what the client has. `text` is only a place for that.
fn step<K: Sink>(
    alloc: Global,
    game: &mut Match,
    predict: &mut Predict,
    client: u8,
    line: &BodyLine,
    text: &mut String,
    sink: &mut K,
) -> Result<(), RunFault>
    requires stands { (past : List OneLine) × StandBeside game.old predict.old client past }
    requires fits { LineFits game.old.script.head.clients line.now }
    requires few { game.old.game.done < MAX_COUNTED_LINES }
    ensures stands { OnOk result ((past : List OneLine) → StandBeside game.old predict.old client past
        → StandBeside game.new predict.new client (line.now ∷ past)) }
    ensures script { game.new.script ≡ game.old.script }
    ensures written { OnOk result ((past : List OneLine) → StandBeside game.old predict.old client past
        → Adds (K.written sink.old) (K.written sink.new) (predicted_at game.old.script.head client past line.now)) }
    ensures front { OnErr result ((past : List OneLine) → StandBeside game.old predict.old client past
        → AddsFront (K.written sink.old) (K.written sink.new) (predicted_at game.old.script.head client past line.now)) }
    ensures cause { HandsOn (K.faults sink.old) (K.faults sink.new) (result ≡ Err RunFault.WriteFault) }
{
    let Ok(change) = change_by(alloc, game, client, line) else {
        return Err(RunFault::NoMemory);
    };
    if is_show(client, line) {
        write_prediction(client, predict, text, sink)?;
    }
    follow(predict, game.pair(client), change);
    Ok(())
}

/// The lines of one of the clients of a match.
fn write_lines<K: Sink>(
    alloc: Global,
    script: &Script,
    client: u8,
    sink: &mut K,
) -> Result<(), RunFault>
    requires ranges { HasRanges script.now }
    requires client { client < script.now.head.clients }
    ensures text { OnOk result (Adds (K.written sink.old) (K.written sink.new) (predicted script.now client)) }
    ensures front { OnErr result (AddsFront (K.written sink.old) (K.written sink.new) (predicted script.now client)) }
    ensures cause { HandsOn (K.faults sink.old) (K.faults sink.new) (result ≡ Err RunFault.WriteFault) }
{
    let Ok(mut game) = Match::new(alloc, script) else {
        return Err(RunFault::NoMemory);
    };
    let mut predict = Predict::new();
    let mut text = String::new(alloc);
    let lines = script.body.as_slice();
    'lines: for line in lines {
        step(
            alloc,
            &mut game,
            &mut predict,
            client,
            line,
            &mut text,
            sink,
        )?;
    }
    Ok(())
}

/// Runs a script, and writes for each line `show C` what a prediction of client C's player has (docs/prediction.md); nothing where the
/// match has no such client. One line a write. After an error a front of that text was written.
pub fn run_predicted<K: Sink>(
    alloc: Global,
    script: &Script,
    client: u8,
    sink: &mut K,
) -> Result<(), RunFault>
    requires { HasRanges script.now }
    ensures text { OnOk result (Adds (K.written sink.old) (K.written sink.new) (predicted script.now client)) }
    ensures front { OnErr result (AddsFront (K.written sink.old) (K.written sink.new) (predicted script.now client)) }
    ensures cause { HandsOn (K.faults sink.old) (K.faults sink.new) (result ≡ Err RunFault.WriteFault) }
    // Nothing jumps where the server did what was predicted, and what is left of a jump is gone after 22 samples.
    ensures accepted_changes_nothing { AcceptedChangesNothing }
    ensures offset_settles { OffsetSettles }
    // Where an honest client has caught up, the server has what is predicted.
    ensures value_is_servers { ValueIsServers }
{
    accepted_changes_nothing();
    offset_settles();
    value_is_servers();
    if client < script.head.clients {
        write_lines(alloc, script, client, sink)
    } else {
        Ok(())
    }
}
