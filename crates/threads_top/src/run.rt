//! The run of a match in threads.
ghost use Rattle.std.specs.Prelude.{◌≡◌, Err, IfOk, OnErr, OnOk, false};
ghost use Rattle.tn_outside.specs.Causes.{HandsOn};
ghost use Rattle.match_script.specs.Ranges.{HasRanges};
ghost use Rattle.threads_top.specs.Telling.{IsPlainText, IsTold, IsLegalText, Tells, TellsFront};

use crate::judgement::Judgement;
use match_script::Script;
use plain_race::legal_race::race_history::Race;
use plain_race::legal_race::tell;
use plain_race::plain_race;
use race_run::{Gate, race};
use std::alloc::Global;
use std::sync::Wait;
use std::thread::Threads;
use tn_outside::{RunFault, Sink, write_all};
use tn_types::NoMemory;

// The text of the plain race of a script, which is legal.
fn text_of_plain_race(alloc: Global, script: &Script) -> Result<Vec<u8>, NoMemory>
    requires { HasRanges script.now }
    ensures { IfOk result (λ text. IsPlainText script.now text.items) }
{
    let made = plain_race(alloc, script)?;
    let mut text = Vec::new(alloc);
    if tell(alloc, script, &made, &mut text)? {
        Ok(text)
    } else {
        unreachable!()
    }
}

/// The text of a race that threads made, exactly where it is legal. Else the race is refused, and the text is of one that is made plainly.
pub fn judge(
    alloc: Global,
    script: &Script,
    made: &Race,
    judgement: &mut Judgement,
) -> Result<Vec<u8>, NoMemory>
    requires ranges { HasRanges script.now }
    requires open { judgement.old ≡ false }
    ensures told { IfOk result (λ text. IsTold judgement.new script.now made.now text.items) }
    ensures untold { OnErr result (judgement.new ≡ false) }
{
    let mut text = Vec::new(alloc);
    if tell(alloc, script, made, &mut text)? {
        return Ok(text);
    }
    let text = text_of_plain_race(alloc, script)?;
    judgement.refuse();
    Ok(text)
}

// The text of a match in threads; where its race is not legal, of one that is made plainly.
fn text_of_race<R: Threads + Wait + Sync, G: Gate + Sync>(
    rt: &R,
    alloc: Global,
    script: &Script,
    gate: &G,
    judgement: &mut Judgement,
) -> Result<Vec<u8>, NoMemory>
    requires ranges { HasRanges script.now }
    requires open { judgement.old ≡ false }
    ensures told { IfOk result (λ text. IsLegalText judgement.new script.now text.items) }
    ensures untold { OnErr result (judgement.new ≡ false) }
{
    let made = race(rt, alloc, script, gate)?;
    judge(alloc, script, &made, judgement)
}

/// Runs a script in threads, and writes the text of its race (docs/threads.md): the simulation, and for each client a packer and a net
/// activity, beside one another. `gate` is passed by each activity before and after each of its lines. Where the race is not legal, the
/// judgement says so, and the text is that of a plain race.
///
/// `NoMemory` comes for want of memory; nothing was written then. `WriteFault` comes where the sink failed; a front of such a text was
/// written.
pub fn run_threads<R: Threads + Wait + Sync, G: Gate + Sync, K: Sink>(
    rt: &R,
    alloc: Global,
    script: &Script,
    gate: &G,
    judgement: &mut Judgement,
    sink: &mut K,
) -> Result<(), RunFault>
    requires ranges { HasRanges script.now }
    requires open { judgement.old ≡ false }
    ensures text { OnOk result (Tells judgement.new script.now (K.written sink.old) (K.written sink.new)) }
    ensures front { result ≡ Err RunFault.WriteFault → TellsFront judgement.new script.now (K.written sink.old) (K.written sink.new) }
    ensures nothing { result ≡ Err RunFault.NoMemory → K.written sink.new ≡ K.written sink.old }
    ensures untold { result ≡ Err RunFault.NoMemory → judgement.new ≡ false }
    ensures cause { HandsOn (K.faults sink.old) (K.faults sink.new) (result ≡ Err RunFault.WriteFault) }
{
    let Ok(text) = text_of_race(rt, alloc, script, gate, judgement) else {
        return Err(RunFault::NoMemory);
    };
    match write_all(sink, text.as_slice()) {
        Ok(()) => Ok(()),
        Err(_) => Err(RunFault::WriteFault),
    }
}
