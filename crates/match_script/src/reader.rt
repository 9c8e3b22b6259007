//! From a text to its script.
ghost use Rattle.std.specs.Prelude.{◌≡◌, ◌<◌, ◌≤◌, ◌+◌, ◌∷◌, List, ℕ, IfOk, length};
ghost use Rattle.std.specs.List.{All};
ghost use Rattle.match_script.specs.Text.{lines_of};
ghost use Rattle.match_script.specs.Lines.{GivesLine};
ghost use Rattle.match_script.specs.Script.{Gives, line_at, header_length, may_come, ticks_behind, body_of, script_in, script_of, threads_script_of};
ghost use Rattle.match_script.specs.Ranges.{LineFits, HasRanges};
ghost use Rattle.match_script.specs.Shape.{first_line, words_at};

use crate::cut::{cut_line, is_text};
use crate::head::header;
use crate::limits::{MAX_BODY_LINES, MAX_THREAD_TICKS};
use crate::line::{LineFault, words_line};
use crate::types::{Body, BodyLine, Head, ParseFault, Script, ScriptFault};
use crate::words::{Words, first_words, parted};
use std::alloc::Global;
use tn_types::{MAX_BLOCKS, MAX_OBJECTS};

/// Lines of a header without blocks and objects.
pub const BARE_HEADER_LINES: u32 = 3;

/// How many lines a header is.
pub fn header_length(head: &Head) -> u32
    requires blocks { length head.now.blocks ≤ MAX_BLOCKS }
    requires objects { length head.now.setup.spawns ≤ MAX_OBJECTS }
    ensures value { result ≡ header_length head.now }
    ensures few { result ≤ BARE_HEADER_LINES + MAX_BLOCKS + MAX_OBJECTS }
{
    BARE_HEADER_LINES + head.blocks.len() as u32 + head.setup.spawns.as_slice().len() as u32
}

// Line k of the body, counted from 0, by its words.
#[tactic(auto, unfolding(crate::specs::Shape::words_at))]
fn words_at(alloc: Global, clients: u8, k: u32, words: Words<'_>) -> Result<BodyLine, LineFault>
    ensures value { GivesLine result (words_at clients k words.entry) }
    ensures fits { IfOk result (LineFits clients) }
{
    if k >= MAX_BODY_LINES {
        return Err(LineFault::Faulty(ScriptFault::TooManyLines));
    }
    words_line(alloc, clients, words)
}

// Line k of the body, counted from 0.
#[tactic(auto, unfolding(crate::specs::Script::line_at))]
fn line_at(alloc: Global, clients: u8, k: u32, line: &[u8]) -> Result<BodyLine, LineFault>
    ensures value { GivesLine result (line_at clients k line.now) }
    ensures fits { IfOk result (LineFits clients) }
{
    if !is_text(line) {
        return Err(LineFault::Faulty(ScriptFault::NotText));
    }
    words_at(alloc, clients, k, parted(line))
}

/// The first line of a text, which is line k of the body, and what comes after it.
pub fn next_line(
    alloc: Global,
    clients: u8,
    k: u32,
    text: &[u8],
) -> (Result<BodyLine, LineFault>, &[u8])
    requires { 0 < length text.now }
    ensures lines { lines_of text.now ≡ first_line text.now ∷ lines_of result.1.now }
    ensures shorter { length result.1.now < length text.now }
    ensures value { GivesLine result.0 (line_at clients k (first_line text.now)) }
    ensures fits { IfOk result.0 (LineFits clients) }
{
    match first_words(text) {
        Some((words, after)) => (words_at(alloc, clients, k, words), after),
        None => {
            let (line, after) = cut_line(text);
            (line_at(alloc, clients, k, line), after)
        }
    }
}

// Whether a line may come where so many ticks may (None: any number), which are one less after a tick.
fn may_come(ticks: &mut Option<u32>, line: &BodyLine) -> bool
    ensures value { result ≡ may_come ticks.old line.now }
    ensures behind { ticks.new ≡ ticks_behind ticks.old line.now }
{
    match (*ticks, line) {
        (Some(0), BodyLine::Tick) => false,
        (Some(left), BodyLine::Tick) => {
            *ticks = Some(left - 1);
            true
        }
        _ => true,
    }
}

// The body after line n of a text, where so many ticks may come.
#[tactic(auto, using(crate::proofs::Bodies::body_goes_on, crate::proofs::Bodies::body_stops, crate::proofs::Bodies::body_is_full, crate::proofs::Bodies::body_ends, crate::proofs::Bodies::line_few, crate::proofs::Bodies::fits_more))]
fn body_of(
    alloc: Global,
    clients: u8,
    n: u32,
    most: Option<u32>,
    text: &[u8],
) -> Result<Body, ParseFault>
    requires { n ≤ BARE_HEADER_LINES + MAX_BLOCKS + MAX_OBJECTS }
    ensures value { Gives (λ b. b) result (body_of most clients n 0 (lines_of text.now)) }
    ensures few { IfOk result (λ b. length b ≤ MAX_BODY_LINES) }
    ensures fits { IfOk result (All (LineFits clients)) }
{
    // A line has eight bytes or so: few have less, and room for a line more costs little.
    let mut lines = Vec::with_capacity(alloc, (text.len() / 8).min(MAX_BODY_LINES as usize))?;
    let mut rest = text;
    let mut ticks = most;
    let mut k = 0u32;
    while rest.len() > 0 {
        let at = n + (k + 1);
        let (read, after) = next_line(alloc, clients, k, rest);
        match read {
            Ok(line) => {
                if !may_come(&mut ticks, &line) {
                    return Err(ParseFault::Bad {
                        line: at,
                        fault: ScriptFault::TooManyLines,
                    });
                }
                lines.push(line)?
            }
            Err(LineFault::NoMemory) => return Err(ParseFault::NoMemory),
            Err(LineFault::Faulty(fault)) => {
                return Err(ParseFault::Bad { line: at, fault });
            }
        }
        rest = after;
        k += 1;
    }
    Ok(Body::from_vec(lines))
}

// The script of a text, where so many ticks may come.
#[tactic(auto, unfolding(crate::specs::Script::script_in))]
fn script_in(alloc: Global, most: Option<u32>, bytes: &[u8]) -> Result<Script, ParseFault>
    ensures grammar { Gives (λ script. script) result (script_in most (lines_of bytes.now)) }
    ensures ranges { IfOk result HasRanges }
{
    let (head, rest) = header(alloc, bytes)?;
    let body = body_of(alloc, head.clients, header_length(&head), most, rest)?;
    Ok(Script { head, body })
}

/// The script of a text, or the least line that can't stand where it stands, with its first fault; each exactly
/// as docs/script.md, "The script" and "Faults of a script", says. Any bytes may come, and they are gone over
/// once.
pub fn parse(alloc: Global, bytes: &[u8]) -> Result<Script, ParseFault>
    ensures grammar { Gives (λ script. script) result (script_of bytes.now) }
    ensures ranges { IfOk result HasRanges }
{
    script_in(alloc, None, bytes)
}

/// The same for a match in threads, where a tick after `MAX_THREAD_TICKS` others is `TooManyLines`.
pub fn parse_threads(alloc: Global, bytes: &[u8]) -> Result<Script, ParseFault>
    ensures grammar { Gives (λ script. script) result (threads_script_of bytes.now) }
    ensures ranges { IfOk result HasRanges }
{
    script_in(alloc, Some(MAX_THREAD_TICKS), bytes)
}
