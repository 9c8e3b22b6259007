//! Whether a race is legal, and what is told of it.
ghost use Rattle.std.specs.Prelude.{◌≡◌, ◌≤◌, ◌++◌, true, false, IfOk, OnErr, Ok, length};
ghost use Rattle.match_script.specs.Ranges.{HasRanges};
ghost use Rattle.race_history.specs.Deciding.{Decides};
ghost use Rattle.race_history.specs.Moves.{MovesFit};
ghost use Rattle.race_course.specs.Messages.{ticks_in};
ghost use Rattle.legal_race.specs.Legal.{IsLegal};
ghost use Rattle.legal_race.specs.Text.{race_text};

use crate::clients::clients_are_legal;
use crate::text::put_race;
use match_script::Script;
use race_course::{Course, moves_fit};
use race_history::Race;
use race_text::Draft;
use std::alloc::Global;
use std::mem;
use tn_types::NoMemory;

// Whether there are words for all clients and objects.
fn words_fit(script: &Script, race: &Race) -> bool
    ensures { Decides result
        ((script.now.head.clients ≤ race.now.words.clients) × (length race.now.values ≤ race.now.words.objects)) }
{
    script.head.clients as u32 <= race.words.clients()
        && race.values.objects() <= race.words.objects()
}

// Whether a race is legal for a script.
fn is_legal(alloc: Global, script: &Script, race: &Race) -> Result<bool, NoMemory>
    requires ranges { HasRanges script.now }
    ensures { IfOk result (λ b. Decides b (IsLegal script.now race.now)) }
{
    if !moves_fit(script, &race.moves) {
        return Ok(false);
    }
    if race.clients.as_slice().len() != script.head.clients as usize || !words_fit(script, race) {
        return Ok(false);
    }
    let course = Course::new(alloc, script, &race.moves)?;
    if !course.history().is_same(&race.values) {
        return Ok(false);
    }
    clients_are_legal(alloc, script, race, &course)
}

// The text of a legal race, after another text.
fn put_text(alloc: Global, script: &Script, race: &Race, out: &mut Vec<u8>) -> Result<(), NoMemory>
    requires ranges { HasRanges script.now }
    requires legal { IsLegal script.now race.now }
    ensures text { result ≡ Ok tt → out.new.items ≡ out.old.items ++ race_text script.now race.now }
    ensures unchanged { OnErr result (out.new.items ≡ out.old.items) }
{
    let mut text = Draft::behind(mem::replace(out, Vec::new(alloc)));
    match put_race(&mut text, alloc, script, race) {
        Ok(()) => {
            *out = text.whole();
            Ok(())
        }
        Err(error) => {
            *out = text.taken_back();
            Err(error)
        }
    }
}

/// Whether a race is legal for a script (docs/threads.md, "A legal race"); where it is, its text is added to `out`. Where it is not,
/// and for want of memory, `out` is as it was.
pub fn tell(
    alloc: Global,
    script: &Script,
    race: &Race,
    out: &mut Vec<u8>,
) -> Result<bool, NoMemory>
    requires ranges { HasRanges script.now }
    ensures legal { IfOk result (λ b. Decides b (IsLegal script.now race.now)) }
    ensures text { result ≡ Ok true → out.new.items ≡ out.old.items ++ race_text script.now race.now }
    ensures untold { result ≡ Ok false → out.new.items ≡ out.old.items }
    ensures unchanged { OnErr result (out.new.items ≡ out.old.items) }
{
    if !is_legal(alloc, script, race)? {
        return Ok(false);
    }
    put_text(alloc, script, race, out)?;
    Ok(true)
}
