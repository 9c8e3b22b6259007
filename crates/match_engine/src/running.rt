//! The run of a script, line by line.
ghost use Rattle.std.specs.Prelude.{◌≡◌, ◌<◌, ◌≤◌, ◌+◌, OnOk, OnErr, Ok, Err, true, false, length};
ghost use Rattle.tn_outside.specs.Causes.{HandsOn};
ghost use Rattle.tn_outside.specs.Totals.{Adds, AddsFront};
ghost use Rattle.match_script.specs.Ranges.{HasRanges};
ghost use Rattle.match_report.specs.Text.{report_line};
ghost use Rattle.match_laws.specs.Report.{report};
ghost use Rattle.match_laws.specs.Promises.{MatchLaws};
ghost use Rattle.match_engine.specs.Match.{IsPlayed};
ghost use Rattle.match_engine.specs.Telling.{Tells};

use crate::played::Match;
use match_laws::laws_of_matches;
use match_report::{Told, put_line};
use match_script::Script;
use std::alloc::Global;
use tn_outside::{RunFault, Sink, write_all};

/// Writes the line of the report of what a line tells. `text` is only a place for it. After an error a front of it was written.
pub fn tell<K: Sink>(
    alloc: Global,
    told: &Told,
    text: &mut Vec<u8>,
    sink: &mut K,
) -> Result<(), RunFault>
    ensures written { OnOk result (Adds (K.written sink.old) (K.written sink.new) (report_line told.now)) }
    ensures front { OnErr result (AddsFront (K.written sink.old) (K.written sink.new) (report_line told.now)) }
    ensures cause { HandsOn (K.faults sink.old) (K.faults sink.new) (result ≡ Err RunFault.WriteFault) }
{
    text.clear();
    let Ok(()) = put_line(alloc, told, text) else {
        return Err(RunFault::NoMemory);
    };
    match write_all(sink, text.as_slice()) {
        Ok(()) => Ok(()),
        Err(_) => Err(RunFault::WriteFault),
    }
}

/// Does the next line of the script and writes its line of the report; false at the script's end. `text` is only a place for it.
fn step<K: Sink>(
    alloc: Global,
    game: &mut Match,
    text: &mut Vec<u8>,
    sink: &mut K,
) -> Result<bool, RunFault>
    requires played { IsPlayed game.old }
    requires ranges { HasRanges game.old.script }
    ensures end { result ≡ Ok false → (length game.old.script.body ≤ game.old.place) × (game.new ≡ game.old)
        × (K.written sink.new ≡ K.written sink.old) }
    ensures more { result ≡ Ok true → game.old.place < length game.old.script.body }
    ensures played { result ≡ Ok true → IsPlayed game.new }
    ensures script { game.new.script ≡ game.old.script }
    ensures place { result ≡ Ok true → game.new.place ≡ game.old.place + 1 }
    ensures written { result ≡ Ok true → Tells Adds game.old (K.written sink.old) (K.written sink.new) }
    ensures there { OnErr result (game.old.place < length game.old.script.body) }
    ensures front { OnErr result (Tells AddsFront game.old (K.written sink.old) (K.written sink.new)) }
    ensures cause { HandsOn (K.faults sink.old) (K.faults sink.new) (result ≡ Err RunFault.WriteFault) }
{
    match game.next(alloc) {
        Ok(true) => {}
        Ok(false) => return Ok(false),
        Err(_) => return Err(RunFault::NoMemory),
    }
    let Some(told) = game.told() else {
        unreachable!()
    };
    tell(alloc, told, text, sink)?;
    Ok(true)
}

/// Writes the report of a script, line by line.
fn write_report<K: Sink>(alloc: Global, script: &Script, sink: &mut K) -> Result<(), RunFault>
    requires { HasRanges script.now }
    ensures report { OnOk result (Adds (K.written sink.old) (K.written sink.new) (report script.now)) }
    ensures front { OnErr result (AddsFront (K.written sink.old) (K.written sink.new) (report script.now)) }
    ensures cause { HandsOn (K.faults sink.old) (K.faults sink.new) (result ≡ Err RunFault.WriteFault) }
{
    let Ok(mut game) = Match::new(alloc, script) else {
        return Err(RunFault::NoMemory);
    };
    let mut text = Vec::new(alloc);
    'lines: while step(alloc, &mut game, &mut text, sink)? {}
    Ok(())
}

/// Writes the report of a script, one line a write. After an error a front of the report was written.
pub fn run<K: Sink>(alloc: Global, script: &Script, sink: &mut K) -> Result<(), RunFault>
    requires { HasRanges script.now }
    ensures report { OnOk result (Adds (K.written sink.old) (K.written sink.new) (report script.now)) }
    ensures front { OnErr result (AddsFront (K.written sink.old) (K.written sink.new) (report script.now)) }
    ensures cause { HandsOn (K.faults sink.old) (K.faults sink.new) (result ≡ Err RunFault.WriteFault) }
    // What the report and the journals of every match keep: isolation, what is delivered, accepted, shown, settled, printed.
    ensures laws { MatchLaws }
{
    laws_of_matches();
    write_report(alloc, script, sink)
}
