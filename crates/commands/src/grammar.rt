//! The commands that words are.
ghost use Rattle.std.specs.Prelude.{◌≡◌, ◌≤◌, ◌-◌, ◌∷◌, IfOk, map, string_bytes, codes};
ghost use Rattle.tn_types.specs.declared.limits.TheConstants.{MAX_CLIENTS};
ghost use Rattle.commands.specs.Grammar.{further, end_with, one_number, made_of, command_of};
ghost use Rattle.commands.specs.Rule.{CommandFits, Says};

use crate::command::{Command, MAX_REPLAYED};
use crate::number::number;
use match_script::MAX_BODY_LINES;
use net_rules::MAX_TURNS;
use tn_types::MAX_CLIENTS;

// The greatest numbers of a client, and of clients.
const LAST_CLIENT: u32 = MAX_CLIENTS as u32 - 1;

const MOST_CLIENTS: u32 = MAX_CLIENTS as u32;

// What a match is made of, and how many steps or turns it has.
pub(crate) struct Made {
    pub(crate) seed: u32,
    pub(crate) clients: u8,
    pub(crate) count: u32,
}

// The one number that these words say after a name.
fn one_number(words: &[String], least: u32, most: u32) -> Result<u32, u32>
    ensures said { result ≡ further (one_number least most (map string_bytes words.now)) }
    ensures least { IfOk result (λ n. least ≤ n) }
    ensures most { IfOk result (λ n. n ≤ most) }
{
    let Some((word, rest)) = words.split_first() else {
        return Err(1);
    };
    let Some(n) = number(word.as_str(), least, most) else {
        return Err(1);
    };
    if rest.is_empty() { Ok(n) } else { Err(2) }
}

// The seed, the clients, and the count that these words say after a name.
fn made_of(words: &[String], most: u32) -> Result<Made, u32>
    ensures { result ≡ further (made_of most (map string_bytes words.now)) }
{
    let Some((word, rest)) = words.split_first() else {
        return Err(1);
    };
    let Some(seed) = number(word.as_str(), 0, u32::MAX) else {
        return Err(1);
    };
    let Some((word, rest)) = rest.split_first() else {
        return Err(2);
    };
    let Some(clients) = number(word.as_str(), 1, MOST_CLIENTS) else {
        return Err(2);
    };
    let Some((word, rest)) = rest.split_first() else {
        return Err(3);
    };
    let Some(count) = number(word.as_str(), 1, most) else {
        return Err(3);
    };
    if rest.is_empty() {
        Ok(Made {
            seed,
            clients: clients as u8,
            count,
        })
    } else {
        Err(4)
    }
}

// The command of a name, if no word comes after it.
fn alone_standing(words: &[String], command: Command) -> Result<Command, u32>
    ensures { result ≡ further (end_with command (map string_bytes words.now)) }
{
    if words.is_empty() {
        Ok(command)
    } else {
        Err(1)
    }
}

// The client that these words name after a name.
fn client_of(words: &[String]) -> Result<u8, u32>
    ensures { result ≡ further (one_number 0 (MAX_CLIENTS - 1) (map string_bytes words.now)) }
{
    match one_number(words, 0, LAST_CLIENT) {
        Ok(client) => Ok(client as u8),
        Err(place) => Err(place),
    }
}

// The command with these words after `alone`.
fn alone_of(words: &[String]) -> Result<Command, u32>
    ensures { result ≡ command_of (codes "alone" ∷ map string_bytes words.now) }
{
    match client_of(words) {
        Ok(client) => Ok(Command::Alone { client }),
        Err(place) => Err(place),
    }
}

// The command with these words after `predict`.
fn predict_of(words: &[String]) -> Result<Command, u32>
    ensures { result ≡ command_of (codes "predict" ∷ map string_bytes words.now) }
{
    match client_of(words) {
        Ok(client) => Ok(Command::Predict { client }),
        Err(place) => Err(place),
    }
}

// The command with these words after `demo`.
fn demo_of(words: &[String]) -> Result<Command, u32>
    ensures { result ≡ command_of (codes "demo" ∷ map string_bytes words.now) }
{
    match client_of(words) {
        Ok(client) => Ok(Command::Demo { client }),
        Err(place) => Err(place),
    }
}

// The command with these words after `replay`.
fn replay_of(words: &[String]) -> Result<Command, u32>
    ensures { result ≡ command_of (codes "replay" ∷ map string_bytes words.now) }
{
    if words.is_empty() {
        return Ok(Command::Replay);
    }
    match one_number(words, 0, MAX_REPLAYED) {
        Ok(count) => Ok(Command::ReplayAt { count }),
        Err(place) => Err(place),
    }
}

// The command with these words after `join`.
fn join_of(words: &[String]) -> Result<Command, u32>
    ensures { result ≡ command_of (codes "join" ∷ map string_bytes words.now) }
{
    match one_number(words, 1, MAX_TURNS) {
        Ok(turns) => Ok(Command::Join { turns }),
        Err(place) => Err(place),
    }
}

// The command with these words after `big`.
fn big_of(words: &[String]) -> Result<Command, u32>
    ensures { result ≡ command_of (codes "big" ∷ map string_bytes words.now) }
{
    match made_of(words, MAX_BODY_LINES) {
        Ok(
            Made {
                seed,
                clients,
                count,
            },
        ) => Ok(Command::Big {
            seed,
            clients,
            steps: count,
        }),
        Err(place) => Err(place),
    }
}

// The command with these words after `serve`.
fn serve_of(words: &[String]) -> Result<Command, u32>
    ensures { result ≡ command_of (codes "serve" ∷ map string_bytes words.now) }
{
    match made_of(words, MAX_TURNS) {
        Ok(
            Made {
                seed,
                clients,
                count,
            },
        ) => Ok(Command::Serve {
            seed,
            clients,
            turns: count,
        }),
        Err(place) => Err(place),
    }
}

// The command that the words are, by the first of them.
fn named_by(words: &[String]) -> Result<Command, u32>
    ensures { result ≡ command_of (map string_bytes words.now) }
{
    let Some((name, rest)) = words.split_first() else {
        return Err(0);
    };
    match name.as_str() {
        "run" => alone_standing(rest, Command::Run),
        "alone" => alone_of(rest),
        "big" => big_of(rest),
        "threads" => alone_standing(rest, Command::Threads),
        "predict" => predict_of(rest),
        "demo" => demo_of(rest),
        "replay" => replay_of(rest),
        "relay" => alone_standing(rest, Command::Relay),
        "serve" => serve_of(rest),
        "join" => join_of(rest),
        _ => Err(0),
    }
}

/// The command that the words are, or the least place at which the words up to it begin none, or their number where words are
/// missing (docs/script.md, "The command line").
pub fn command_of(words: &Vec<String>) -> Result<Command, u32>
    ensures said { result ≡ command_of (map string_bytes words.now.items) }
    ensures rule { Says (map string_bytes words.now.items) result }
    ensures fits { IfOk result CommandFits }
{
    named_by(words.as_slice())
}
