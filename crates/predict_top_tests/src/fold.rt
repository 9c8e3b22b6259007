//! What is predicted in a large match of eight clients, beside a plain fold over all that each client heard.
ghost use Rattle.std.specs.Prelude.{◌≡◌, ◌<◌, Ok, true};
ghost use Rattle.match_script.specs.Ranges.{HasRanges};
ghost use Rattle.match_engine.specs.Match.{IsPlayed};

use crate::served::served;
use bit_stream::move_of_bits;
use match_engine::Match;
use match_engine::match_laws::pair_core::Pair;
use match_report::Told;
use match_script::{BodyLine, Script, parse, print_head, put_line};
use script_input::Status;
use script_maker::make;
use std::alloc::{AllocError, Global};
use tn_types::{Move, NoMemory};

const CLIENTS: u8 = 8;

const LINES: u32 = 5000;

// What a client heard of its player: a packet told of him, with the moves that were pending then, or a move was sampled.
#[derive(Drop)]
enum Heard {
    Told(Option<(i64, i64, i64)>, Vec<Move>),
    Sampled(Move),
}

// Where a step leads from here.
fn step(at: (i64, i64, i64), m: &Move) -> (i64, i64, i64) {
    let (x, y, ammo) = at;
    let left = if m.fire { ammo.saturating_sub(1) } else { ammo };
    (
        x.saturating_add(25 * i64::from(m.dx)).max(0).min(65_535),
        y.saturating_add(25 * i64::from(m.dy)).max(0).min(65_535),
        left.max(0),
    )
}

// Where all these moves lead.
fn moved(base: (i64, i64, i64), pending: &[Move]) -> (i64, i64, i64) {
    let mut at = base;
    for m in pending {
        at = step(at, m);
    }
    at
}

// What is left of a part of an offset.
fn faded(part: i64) -> i64 {
    part.saturating_mul(3) / 4
}

// The offset once the value jumped, none past 1,000.
fn jumped(
    old: Option<(i64, i64, i64)>,
    new: Option<(i64, i64, i64)>,
    offset: (i64, i64),
) -> (i64, i64) {
    let (Some(old), Some(new)) = (old, new) else {
        return (0, 0);
    };
    let x = old.0.saturating_add(offset.0).saturating_sub(new.0);
    let y = old.1.saturating_add(offset.1).saturating_sub(new.1);
    if x > 1000 || x < -1000 || y > 1000 || y < -1000 {
        (0, 0)
    } else {
        (x, y)
    }
}

// The value and the offset after all that was heard, from its beginning.
fn folded(heard: &[Heard]) -> (Option<(i64, i64, i64)>, (i64, i64)) {
    let mut value = None;
    let mut offset = (0, 0);
    for one in heard {
        match one {
            Heard::Told(base, pending) => {
                let new = match base {
                    Some(at) => Some(moved(*at, pending.as_slice())),
                    None => None,
                };
                offset = jumped(value, new, offset);
                value = new;
            }
            Heard::Sampled(m) => {
                if let Some(at) = value {
                    value = Some(step(at, m));
                }
                offset = (faded(offset.0), faded(offset.1));
            }
        }
    }
    (value, offset)
}

// x, y and ammo of the player's copy that the client controls.
fn base(pair: &Pair) -> Option<(i64, i64, i64)> {
    let slot = pair.client().control()?;
    let copies = pair.client().copies();
    if copies.get(slot)?.kind != 0 {
        return None;
    }
    Some((
        copies.value(slot, 0)?,
        copies.value(slot, 1)?,
        copies.value(slot, 3)?,
    ))
}

// What the client heard with a packet.
fn packet(alloc: Global, pair: &Pair) -> Result<Heard, AllocError> {
    let (_, waiting) = pair.client().pending();
    let mut pending = Vec::new(alloc);
    for m in waiting.as_slice() {
        pending.push(move_of_bits(*m))?;
    }
    Ok(Heard::Told(base(pair), pending))
}

// Does the next line of the script; false at its end.
fn next_line(alloc: Global, game: &mut Match<'_>) -> Result<bool, NoMemory>
    requires played { IsPlayed game.old }
    requires ranges { HasRanges game.old.script }
    ensures played { result ≡ Ok true → IsPlayed game.new }
    ensures script { game.new.script ≡ game.old.script }
{
    game.next(alloc)
}

// What the line that was done last let the client hear.
fn heard_of(
    alloc: Global,
    game: &Match<'_>,
    client: u8,
    line: &BodyLine,
) -> Result<Option<Heard>, AllocError>
    requires played { IsPlayed game.now }
    requires client { client < game.now.script.head.clients }
{
    let Some(told) = game.told() else {
        return Ok(None);
    };
    match (line, told) {
        (
            BodyLine::Down {
                client: named,
                k: _,
            },
            Told::Came {
                way: _,
                client: _,
                k: _,
                moves: _,
                events: _,
            },
        ) => {
            if *named != client {
                return Ok(None);
            }
            Ok(Some(packet(alloc, game.pair(client))?))
        }
        (BodyLine::Move { client: named, m }, Told::Moved { client: _, number }) => {
            if *named != client || number.is_err() {
                return Ok(None);
            }
            Ok(Some(Heard::Sampled(*m)))
        }
        _ => Ok(None),
    }
}

// Whether the line shows what the client has.
fn shows(client: u8, line: &BodyLine) -> bool {
    match line {
        BodyLine::Show { client: named } => *named == client,
        _ => false,
    }
}

// The line of a prediction.
fn line_of(
    alloc: Global,
    client: u8,
    (value, offset): (Option<(i64, i64, i64)>, (i64, i64)),
) -> Result<String, AllocError> {
    let (right, down) = offset;
    match value {
        None => format!(in alloc; "predict {client} -\n"),
        Some((x, y, ammo)) => {
            format!(in alloc; "predict {client} {x} {y} {ammo} {right} {down}\n")
        }
    }
}

// The lines that a fold makes of what a client heard, at each line that shows what it has.
fn expected(alloc: Global, script: &Script, client: u8) -> Result<String, NoMemory>
    requires { HasRanges script.now }
{
    let mut text = String::new(alloc);
    if client >= script.head.clients {
        return Ok(text);
    }
    let mut game = Match::new(alloc, script)?;
    let mut heard = Vec::new(alloc);
    let lines = script.body.as_slice();
    'lines: for line in lines {
        if !next_line(alloc, &mut game)? {
            return Ok(text);
        }
        if shows(client, line) {
            let Ok(line) = line_of(alloc, client, folded(heard.as_slice())) else {
                return Err(NoMemory);
            };
            let Ok(()) = text.push_str(line.as_str()) else {
                return Err(NoMemory);
            };
        }
        let Ok(one) = heard_of(alloc, &game, client, line) else {
            return Err(NoMemory);
        };
        if let Some(one) = one {
            let Ok(()) = heard.push(one) else {
                return Err(NoMemory);
            };
        }
    }
    Ok(text)
}

// The client whose packet a line brings, or whose move it samples.
fn moved_by(line: &BodyLine) -> Option<u8> {
    match line {
        BodyLine::Down { client, k: _ } => Some(*client),
        BodyLine::Move { client, m: _ } => Some(*client),
        _ => None,
    }
}

// The text of a script that is made from a seed, where each client is shown after each of its moves and packets.
fn made_text(alloc: Global, seed: u32) -> Result<String, NoMemory> {
    let script = make(alloc, seed, CLIENTS, LINES)?;
    let head = print_head(alloc, &script.head)?;
    let Ok(mut text) = String::from_utf8(head) else {
        return Err(NoMemory);
    };
    for line in script.body.as_slice() {
        put_line(alloc, &mut text, line)?;
        if let Some(client) = moved_by(line) {
            put_line(alloc, &mut text, &BodyLine::Show { client })?;
        }
    }
    Ok(text)
}

// Whether `predict` writes of a client what the fold makes of it, and that is much.
fn is_as_folded(rt: &HostRuntime, text: &str, word: &str, lines: &str) -> bool {
    match served(rt, &["predict", word], text.as_bytes(), 65_536, &[], &[]) {
        Ok((status, bytes)) => {
            status == Status::Done && bytes.as_slice() == lines.as_bytes() && lines.len() > 1000
        }
        Err(_) => false,
    }
}

#[test]
fn predicted_as_by_a_fold(rt: HostRuntime) {
    let text = made_text(rt.alloc(), 7).expect(&rt, "memory");
    let script = parse(rt.alloc(), text.as_bytes())
        .ok()
        .expect(&rt, "no script");
    for (client, word) in ["0", "1", "2", "3", "4", "5", "6", "7"].iter().enumerate() {
        let lines = expected(rt.alloc(), &script, client as u8).expect(&rt, "memory");
        assert!(rt; is_as_folded(&rt, text.as_str(), *word, lines.as_str()));
    }
}
