//! The first line of a relay script.
ghost use Rattle.std.specs.Prelude.{◌≡◌, ◌∷◌, ◌<◌, ◌≤◌, [], MatchOption, IfOk, IfSome};
ghost use Rattle.match_script.specs.Text.{lines_of, words_of};
ghost use Rattle.match_script.specs.Script.{Gives};
ghost use Rattle.relay_script.specs.Asked.{match_in, clients_named, relay_numbers, relay_named};
ghost use Rattle.relay_script.specs.Whole.{asked_in};
ghost use Rattle.relay_script.specs.Ranges.{AskedFits};

use crate::types::MAX_SPECTATORS;
use match_script::{
    Head, MIN_VERSION, ParseFault, ScriptFault, Words, below, cut_line, header_line, is_text,
    match_line, misplaced, number_from, parted,
};
use std::alloc::Global;
use tn_types::MAX_CLIENTS;

/// What the first line says: which client of the match is the relay, and how many spectators it has.
#[derive(Clone, Copy, Debug, PartialEq, Eq)]
pub struct Asked {
    pub client: u8,
    pub spectators: u8,
}

// The first line of a text, if it has one, and what comes after it.
#[tactic(auto, using(crate::proofs::Cutting::no_line))]
fn next_line(text: &[u8]) -> Option<(&[u8], &[u8])>
    ensures { MatchOption result (lines_of text.now ≡ []) (λ r. lines_of text.now ≡ r.0.now ∷ lines_of r.1.now) }
{
    if text.len() == 0 {
        None
    } else {
        Some(cut_line(text))
    }
}

// What a line says, where it is a `match` line.
fn match_in(alloc: Global, line: &[u8]) -> Option<Head>
    ensures value { result ≡ match_in line.now }
{
    if is_text(line) {
        match_line(alloc, MIN_VERSION, line)
    } else {
        None
    }
}

// How many clients a text says there are.
fn clients_named(alloc: Global, text: &[u8]) -> u8
    ensures { result ≡ clients_named (lines_of text.now) }
{
    let Some((_, rest)) = next_line(text) else {
        return MAX_CLIENTS;
    };
    let Some((_, rest)) = next_line(rest) else {
        return MAX_CLIENTS;
    };
    let Some((third, _)) = next_line(rest) else {
        return MAX_CLIENTS;
    };
    match match_in(alloc, third) {
        Some(head) => head.clients,
        None => MAX_CLIENTS,
    }
}

#[tactic(auto, using(match_script::proofs::Numbers::number_from_fits), unfolding(crate::specs::Asked::relay_numbers))]
fn relay_numbers(clients: u8, c: &[u8], count: &[u8]) -> Result<Asked, ScriptFault>
    ensures value { result ≡ relay_numbers clients c.now count.now }
    ensures fits { IfOk result (AskedFits clients) }
{
    let client = below(clients, c)?;
    let spectators = number_from(1, u32::from(MAX_SPECTATORS), count)?;
    Ok(Asked {
        client,
        spectators: spectators as u8,
    })
}

// What `relay C SPECTATORS` says.
#[tactic(auto, unfolding(crate::specs::Asked::relay_named))]
fn relay_named(clients: u8, line: &[u8]) -> Option<Asked>
    ensures value { result ≡ relay_named clients (words_of line.now) }
    ensures fits { IfSome result (AskedFits clients) }
{
    match parted(line) {
        Words::Three(kind, c, count) => {
            if kind == b"relay".as_slice() {
                match relay_numbers(clients, c, count) {
                    Ok(asked) => Some(asked),
                    Err(_) => None,
                }
            } else {
                None
            }
        }
        _ => None,
    }
}

// What the first line of a text says, and what comes after it.
#[tactic(auto, unfolding(crate::specs::Whole::asked_in))]
pub(crate) fn asked_in(alloc: Global, text: &[u8]) -> Result<(Asked, &[u8]), ParseFault>
    ensures value { Gives (λ x. (x.0, lines_of x.1.now)) result (asked_in (lines_of text.now)) }
    ensures fits { IfOk result (λ x. AskedFits (clients_named (lines_of text.now)) x.0) }
{
    let (line, rest) = header_line(1, text)?;
    match relay_named(clients_named(alloc, text), line) {
        Some(asked) => Ok((asked, rest)),
        None => Err(misplaced(1)),
    }
}
