//! The lines after `go`: those of the match, and between them the relay's.
ghost use Rattle.std.specs.Prelude.{◌≡◌, ◌+◌, ◌≤◌, ◌∷◌, ◌<◌, IfOk, length};
ghost use Rattle.std.specs.List.{All};
ghost use Rattle.match_script.specs.Text.{lines_of};
ghost use Rattle.match_script.specs.Script.{Gives};
ghost use Rattle.match_script.specs.Shape.{first_line};
ghost use Rattle.match_script.specs.Ranges.{LineFits};
ghost use Rattle.relay_script.specs.Whole.{GivesEntry, entry_at, entries_of, parts_of};
ghost use Rattle.relay_script.specs.Ranges.{EntryFits, PlacedFits, InOrderFrom};

use crate::lines::{is_relay, relay_line_at};
use crate::types::{PlacedLine, RelayLine, RelayLines};
use match_script::{
    BARE_HEADER_LINES, Body, BodyLine, LineFault, MAX_BODY_LINES, ParseFault, cut_line, next_line,
};
use std::alloc::Global;
use tn_types::{MAX_BLOCKS, MAX_OBJECTS};

/// A line after `go`: one of the match, or one of the relay.
#[derive(Drop)]
pub enum Entry {
    OfMatch(BodyLine),
    OfRelay(RelayLine),
}

// The first line of a text, which is line k of the whole body, and what comes after it.
#[tactic(auto, using(crate::proofs::Cutting::cut_is_first, crate::proofs::Cutting::cut_first), unfolding(crate::specs::Whole::entry_at))]
fn next_entry(
    alloc: Global,
    clients: u8,
    spectators: u8,
    k: u32,
    text: &[u8],
) -> (Result<Entry, LineFault>, &[u8])
    requires { 0 < length text.now }
    ensures lines { lines_of text.now ≡ first_line text.now ∷ lines_of result.1.now }
    ensures shorter { length result.1.now < length text.now }
    ensures value { GivesEntry result.0 (entry_at clients spectators k (first_line text.now)) }
    ensures fits { IfOk result.0 (EntryFits clients spectators) }
{
    if is_relay(text) {
        let (line, rest) = cut_line(text);
        match relay_line_at(spectators, k, line) {
            Ok(line) => (Ok(Entry::OfRelay(line)), rest),
            Err(fault) => (Err(LineFault::Faulty(fault)), rest),
        }
    } else {
        let (read, rest) = next_line(alloc, clients, k, text);
        match read {
            Ok(line) => (Ok(Entry::OfMatch(line)), rest),
            Err(fault) => (Err(fault), rest),
        }
    }
}

/// The whole body after line n of a text: the match's lines, and the relay's.
#[tactic(auto, using(crate::proofs::Bodies::match_goes_on, crate::proofs::Bodies::relay_goes_on, crate::proofs::Bodies::body_stops, crate::proofs::Bodies::body_ends, crate::proofs::Bodies::entry_few, crate::proofs::Bodies::own_more, crate::proofs::Bodies::still_placed, crate::proofs::Bodies::placed_more, crate::proofs::Bodies::in_order_more))]
pub(crate) fn body_of(
    alloc: Global,
    clients: u8,
    spectators: u8,
    n: u32,
    text: &[u8],
) -> Result<(Body, RelayLines), ParseFault>
    requires { n ≤ 1 + BARE_HEADER_LINES + MAX_BLOCKS + MAX_OBJECTS }
    ensures value { Gives (λ x. (x.0, x.1)) result (parts_of (entries_of clients spectators n 0 (lines_of text.now))) }
    ensures few { IfOk result (λ x. length x.0 + length x.1 ≤ MAX_BODY_LINES) }
    ensures own { IfOk result (λ x. All (LineFits clients) x.0) }
    ensures placed { IfOk result (λ x. All (PlacedFits spectators (length x.0)) x.1) }
    ensures in_order { IfOk result (λ x. InOrderFrom 0 x.1) }
{
    // A line has eight bytes or so: few have less, and room for a line more costs little.
    let mut own = Vec::with_capacity(alloc, (text.len() / 8).min(MAX_BODY_LINES as usize))?;
    let mut lines = Vec::new(alloc);
    let mut rest = text;
    let mut k = 0u32;
    'lines: while rest.len() > 0 {
        let (read, after) = next_entry(alloc, clients, spectators, k, rest);
        rest = after;
        k += 1;
        match read {
            Ok(Entry::OfMatch(line)) => {
                own.push(line)?;
                continue 'lines;
            }
            Ok(Entry::OfRelay(line)) => {
                let behind = own.len() as u32;
                lines.push(PlacedLine { behind, line })?;
                continue 'lines;
            }
            Err(LineFault::NoMemory) => return Err(ParseFault::NoMemory),
            Err(LineFault::Faulty(fault)) => {
                return Err(ParseFault::Bad { line: n + k, fault });
            }
        }
    }
    Ok((Body::from_vec(own), RelayLines::from_vec(lines)))
}
