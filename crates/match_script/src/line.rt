//! The lines of the body, one function each.
ghost use Rattle.std.specs.Prelude.{◌≡◌, ◌∷◌, [], true, List, ℕ, IfOk};
ghost use Rattle.match_script.specs.Lines.{GivesLine, body_line, scan_line, post_line, client_post_line, pack_line, client_pack_line, down_line, up_line, raw_line, move_line, show_line};
ghost use Rattle.tn_types.specs.Steps.{is_step};
ghost use Rattle.match_script.specs.Ranges.{LineFits};
ghost use Rattle.match_script.specs.Shape.{words_line};

use crate::held::{LineDatagram, LinePayload};
use crate::types::{BodyLine, ScriptFault};
use crate::word;
use crate::word::is_name;
use crate::words::Words;
use std::alloc::Global;
use tn_types::{Bytes, MAX_DATAGRAM_BYTES, Move, NoMemory};

/// Why a line of the body was not read.
#[derive(Clone, Copy, Debug, PartialEq, Eq)]
pub enum LineFault {
    /// The line can't stand there: its first fault.
    Faulty(ScriptFault),
    /// Memory was not to be had.
    NoMemory,
}

impl From<ScriptFault> for LineFault {
    ghost use Rattle.std.specs.Prelude.{◌≡◌};
    ghost use Rattle.match_script.specs.declared.line.LineFault.TheVariants.{Faulty};

    ghost from_gives = { λ fault e. e ≡ Faulty fault };

    fn from(fault: ScriptFault) -> Self {
        LineFault::Faulty(fault)
    }
}

impl From<NoMemory> for LineFault {
    ghost use Rattle.std.specs.Prelude.{◌≡◌};
    ghost use Rattle.match_script.specs.declared.line.LineFault.TheVariants.{NoMemory as NoRoom};

    ghost from_gives = { λ _ e. e ≡ NoRoom };

    fn from(_error: NoMemory) -> Self {
        LineFault::NoMemory
    }
}

#[tactic(auto, unfolding(crate::specs::Lines::scan_line))]
fn scan(clients: u8, c: &[u8]) -> Result<BodyLine, ScriptFault>
    ensures value { result ≡ scan_line clients c.now }
    ensures fits { IfOk result (LineFits clients) }
{
    let client = word::client(clients, c)?;
    Ok(BodyLine::Scan { client })
}

#[tactic(auto, unfolding(crate::specs::Lines::post_line))]
fn post(
    alloc: Global,
    clients: u8,
    c: &[u8],
    class: &[u8],
    bytes: &[u8],
) -> Result<BodyLine, LineFault>
    ensures value { GivesLine result (post_line clients c.now class.now bytes.now) }
    ensures fits { IfOk result (LineFits clients) }
{
    let class = word::class(class)?;
    let client = word::client(clients, c)?;
    let payload = LinePayload::new(alloc, word::bytes(bytes)?)?;
    Ok(BodyLine::Post {
        client,
        class,
        payload,
    })
}

#[tactic(auto, unfolding(crate::specs::Lines::client_post_line))]
fn client_post(
    alloc: Global,
    clients: u8,
    c: &[u8],
    class: &[u8],
    bytes: &[u8],
) -> Result<BodyLine, LineFault>
    ensures value { GivesLine result (client_post_line clients c.now class.now bytes.now) }
    ensures fits { IfOk result (LineFits clients) }
{
    let class = word::class(class)?;
    let client = word::client(clients, c)?;
    let payload = LinePayload::new(alloc, word::bytes(bytes)?)?;
    Ok(BodyLine::ClientPost {
        client,
        class,
        payload,
    })
}

#[tactic(auto, unfolding(crate::specs::Lines::pack_line))]
fn pack(clients: u8, c: &[u8]) -> Result<BodyLine, ScriptFault>
    ensures value { result ≡ pack_line clients c.now }
    ensures fits { IfOk result (LineFits clients) }
{
    let client = word::client(clients, c)?;
    Ok(BodyLine::Pack { client })
}

#[tactic(auto, unfolding(crate::specs::Lines::client_pack_line))]
fn client_pack(clients: u8, c: &[u8]) -> Result<BodyLine, ScriptFault>
    ensures value { result ≡ client_pack_line clients c.now }
    ensures fits { IfOk result (LineFits clients) }
{
    let client = word::client(clients, c)?;
    Ok(BodyLine::ClientPack { client })
}

#[tactic(auto, unfolding(crate::specs::Lines::down_line))]
fn down(clients: u8, c: &[u8], place: &[u8]) -> Result<BodyLine, ScriptFault>
    ensures value { result ≡ down_line clients c.now place.now }
    ensures fits { IfOk result (LineFits clients) }
{
    let client = word::client(clients, c)?;
    let k = word::number_32(place)?;
    Ok(BodyLine::Down { client, k })
}

#[tactic(auto, unfolding(crate::specs::Lines::up_line))]
fn up(clients: u8, c: &[u8], place: &[u8]) -> Result<BodyLine, ScriptFault>
    ensures value { result ≡ up_line clients c.now place.now }
    ensures fits { IfOk result (LineFits clients) }
{
    let client = word::client(clients, c)?;
    let k = word::number_32(place)?;
    Ok(BodyLine::Up { client, k })
}

#[tactic(auto, unfolding(crate::specs::Lines::raw_line))]
fn raw(alloc: Global, clients: u8, c: &[u8], bytes: &[u8]) -> Result<BodyLine, LineFault>
    ensures value { GivesLine result (raw_line clients c.now bytes.now) }
    ensures fits { IfOk result (LineFits clients) }
{
    let client = word::client(clients, c)?;
    let read: Bytes<MAX_DATAGRAM_BYTES> = word::bytes(bytes)?;
    let bytes = LineDatagram::from_slice(alloc, read.as_slice())?;
    Ok(BodyLine::Raw { client, bytes })
}

// The move of these steps.
fn moved(dx: i8, dy: i8, fire: bool, act: bool) -> Move
    requires dx { is_step dx ≡ true }
    requires dy { is_step dy ≡ true }
    ensures dx { result.dx ≡ dx }
    ensures dy { result.dy ≡ dy }
    ensures fire { result.fire ≡ fire }
    ensures act { result.act ≡ act }
{
    Move { dx, dy, fire, act }
}

#[tactic(auto, unfolding(crate::specs::Lines::move_line))]
fn sampled(
    clients: u8,
    c: &[u8],
    dx: &[u8],
    dy: &[u8],
    fire: &[u8],
    act: &[u8],
) -> Result<BodyLine, ScriptFault>
    ensures value { result ≡ move_line clients c.now dx.now dy.now fire.now act.now }
    ensures fits { IfOk result (LineFits clients) }
{
    let client = word::client(clients, c)?;
    let dx = word::step(dx)?;
    let dy = word::step(dy)?;
    let fire = word::flag(fire)?;
    let act = word::flag(act)?;
    let m = moved(dx, dy, fire, act);
    Ok(BodyLine::Move { client, m })
}

#[tactic(auto, unfolding(crate::specs::Lines::show_line))]
fn show(clients: u8, c: &[u8]) -> Result<BodyLine, ScriptFault>
    ensures value { result ≡ show_line clients c.now }
    ensures fits { IfOk result (LineFits clients) }
{
    let client = word::client(clients, c)?;
    Ok(BodyLine::Show { client })
}

// What a line of one word says.
#[tactic(auto, unfolding(crate::specs::Lines::body_line))]
fn one_word(clients: u8, kind: &[u8]) -> Result<BodyLine, ScriptFault>
    ensures value { result ≡ body_line clients (kind.now ∷ []) }
    ensures fits { IfOk result (LineFits clients) }
{
    if is_name(kind, b"tick") {
        Ok(BodyLine::Tick)
    } else if is_name(kind, b"world") {
        Ok(BodyLine::World)
    } else {
        Err(ScriptFault::UnknownWord)
    }
}

// What a line of two words says.
#[tactic(auto, unfolding(crate::specs::Lines::body_line))]
fn two_words(clients: u8, kind: &[u8], c: &[u8]) -> Result<BodyLine, ScriptFault>
    ensures value { result ≡ body_line clients (kind.now ∷ c.now ∷ []) }
    ensures fits { IfOk result (LineFits clients) }
{
    if is_name(kind, b"pack") {
        pack(clients, c)
    } else if is_name(kind, b"cpack") {
        client_pack(clients, c)
    } else if is_name(kind, b"scan") {
        scan(clients, c)
    } else if is_name(kind, b"show") {
        show(clients, c)
    } else {
        Err(ScriptFault::UnknownWord)
    }
}

// What a line of three words says.
#[tactic(auto, unfolding(crate::specs::Lines::body_line))]
fn three_words(
    alloc: Global,
    clients: u8,
    kind: &[u8],
    c: &[u8],
    what: &[u8],
) -> Result<BodyLine, LineFault>
    ensures value { GivesLine result (body_line clients (kind.now ∷ c.now ∷ what.now ∷ [])) }
    ensures fits { IfOk result (LineFits clients) }
{
    if is_name(kind, b"down") {
        Ok(down(clients, c, what)?)
    } else if is_name(kind, b"up") {
        Ok(up(clients, c, what)?)
    } else if is_name(kind, b"raw") {
        raw(alloc, clients, c, what)
    } else {
        Err(LineFault::Faulty(ScriptFault::UnknownWord))
    }
}

// What a line of four words says.
#[tactic(auto, unfolding(crate::specs::Lines::body_line))]
fn four_words(
    alloc: Global,
    clients: u8,
    kind: &[u8],
    c: &[u8],
    class: &[u8],
    bytes: &[u8],
) -> Result<BodyLine, LineFault>
    ensures value { GivesLine result (body_line clients (kind.now ∷ c.now ∷ class.now ∷ bytes.now ∷ [])) }
    ensures fits { IfOk result (LineFits clients) }
{
    if is_name(kind, b"post") {
        post(alloc, clients, c, class, bytes)
    } else if is_name(kind, b"cpost") {
        client_post(alloc, clients, c, class, bytes)
    } else {
        Err(LineFault::Faulty(ScriptFault::UnknownWord))
    }
}

/// What the words of a line of the body say.
#[tactic(auto, unfolding(crate::specs::Lines::body_line))]
pub fn words_line(alloc: Global, clients: u8, words: Words<'_>) -> Result<BodyLine, LineFault>
    ensures value { GivesLine result (words_line clients words.entry) }
    ensures fits { IfOk result (LineFits clients) }
{
    match words {
        Words::One(kind) => Ok(one_word(clients, kind)?),
        Words::Two(kind, c) => Ok(two_words(clients, kind, c)?),
        Words::Three(kind, c, what) => three_words(alloc, clients, kind, c, what),
        Words::Four(kind, c, class, bytes) => four_words(alloc, clients, kind, c, class, bytes),
        Words::Six(kind, c, dx, dy, fire, act) => {
            if is_name(kind, b"move") {
                Ok(sampled(clients, c, dx, dy, fire, act)?)
            } else {
                Err(LineFault::Faulty(ScriptFault::UnknownWord))
            }
        }
        _ => Err(LineFault::Faulty(ScriptFault::UnknownWord)),
    }
}
