//! The lines of a client.
ghost use Rattle.std.specs.Prelude.{◌≡◌, ◌++◌, ◌∷◌, [], ℕ, List, true, false, IfOk};
ghost use Rattle.std.specs.List.{AllByRecursion};
ghost use Rattle.kept_pair.specs.Kept.{terms_in};
ghost use Rattle.race_messages.specs.declared.message.Message.{Message as OneMessage};
ghost use Rattle.legal_race.specs.race_steps.Asked.{is_pack_line};
ghost use Rattle.plain_race.specs.Asks.{act_given};
ghost use Rattle.plain_race.specs.Done.{IsOwnStep, AreStepsOf, DoesLine, StopsAtLine, IsStopped};

use crate::steps::{act, pack, room_in};
use bit_stream::bits_of_move;
use legal_race::race_history::kept_pair::KeptPair;
use match_script::BodyLine;
use pair_core::PairStep;
use std::alloc::Global;
use tn_types::NoMemory;

// Whether the line is a pack for the client.
fn is_pack_line(client: u8, line: &BodyLine) -> bool
    ensures { result ≡ is_pack_line client line.now }
{
    match line {
        BodyLine::Pack { client: named } => *named == client,
        _ => false,
    }
}

// The step that a line asks of the client or of its network, if it names it, where so many moves have a place.
fn act_of(
    alloc: Global,
    client: u8,
    room: u32,
    line: &BodyLine,
) -> Result<Option<PairStep>, NoMemory>
    ensures { IfOk result (λ asked. asked ≡ act_given client room line.now) }
{
    let asked = match line {
        BodyLine::ClientPost {
            client: named,
            class,
            payload,
        } if *named == client => Some(PairStep::ClientPost {
            class: *class,
            payload: payload.payload(),
        }),
        BodyLine::Move { client: named, m } if *named == client => Some(PairStep::Sample {
            m: bits_of_move(m),
        }),
        BodyLine::ClientPack { client: named } if *named == client => Some(PairStep::ClientPack),
        BodyLine::Down { client: named, k } if *named == client => Some(PairStep::Down { k: *k }),
        BodyLine::Up { client: named, k } if *named == client => {
            Some(PairStep::Up { k: *k, room })
        }
        BodyLine::Raw {
            client: named,
            bytes,
        } if *named == client => Some(PairStep::Raw {
            bytes: bytes.raw_bytes(alloc)?,
            room,
        }),
        _ => None,
    };
    Ok(asked)
}

// Does a line that is no pack.
fn do_act(alloc: Global, pair: &mut KeptPair, client: u8, line: &BodyLine) -> Result<bool, NoMemory>
    requires no_pack { is_pack_line client line.now ≡ false }
    ensures done { IfOk result (λ b. b ≡ true → DoesLine client line.now pair.old pair.new) }
    ensures stopped { IfOk result (λ b. b ≡ false → StopsAtLine client line.now pair.old pair.new) }
    ensures terms { terms_in pair.new ≡ terms_in pair.old }
{
    let room = room_in(pair);
    match act_of(alloc, client, room, line)? {
        Some(step) => act(alloc, pair, step),
        None => Ok(true),
    }
}

// Does a line of a pack.
fn do_pack(
    alloc: Global,
    pair: &mut KeptPair,
    client: u8,
    line: &BodyLine,
) -> Result<bool, NoMemory>
    requires pack { is_pack_line client line.now ≡ true }
    requires own { AllByRecursion IsOwnStep pair.old.steps }
    ensures done { IfOk result (λ b. b ≡ true → DoesLine client line.now pair.old pair.new) }
    ensures stopped { IfOk result (λ b. b ≡ false → StopsAtLine client line.now pair.old pair.new) }
    ensures terms { terms_in pair.new ≡ terms_in pair.old }
{
    pack(alloc, pair)
}

// Does a line, if it is one of the client; `false` where its step has no room.
fn do_line(
    alloc: Global,
    pair: &mut KeptPair,
    client: u8,
    line: &BodyLine,
) -> Result<bool, NoMemory>
    requires own { AllByRecursion IsOwnStep pair.old.steps }
    ensures done { IfOk result (λ b. b ≡ true → DoesLine client line.now pair.old pair.new) }
    ensures stopped { IfOk result (λ b. b ≡ false → StopsAtLine client line.now pair.old pair.new) }
    ensures terms { terms_in pair.new ≡ terms_in pair.old }
{
    if is_pack_line(client, line) {
        return do_pack(alloc, pair, client, line);
    }
    do_act(alloc, pair, client, line)
}

/// Does all lines of a client, in their order; `false` where a step had no room, and then no line after it is done.
pub(crate) fn do_lines(
    alloc: Global,
    pair: &mut KeptPair,
    client: u8,
    lines: &[BodyLine],
) -> Result<bool, NoMemory>
    requires none { pair.old.steps ≡ [] }
    ensures done { IfOk result (λ b. b ≡ true → AreStepsOf (terms_in pair.old) client lines.now pair.new.steps) }
    ensures stopped { IfOk result (λ b. b ≡ false
        → (given : List OneMessage) → IsStopped (terms_in pair.old) client lines.now given pair.new.steps []) }
    ensures terms { terms_in pair.new ≡ terms_in pair.old }
{
    for line in lines {
        if !do_line(alloc, pair, client, line)? {
            return Ok(false);
        }
    }
    Ok(true)
}
