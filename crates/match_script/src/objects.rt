//! The objects that a header names: players, and what else is in the world at the start.
ghost use Rattle.std.specs.Prelude.{◌≡◌, ◌<◌, ◌≤◌, ◌+◌, List, ℕ, [], ◌∷◌, ◌++◌, true, IfOk, IfSome, length, map};
ghost use Rattle.std.specs.List.{All};
ghost use Rattle.world_rules.specs.declared.setup.Spawn.{Spawn as OneSpawn};
ghost use Rattle.world_rules.specs.declared.kinds.TheConstants.{MINE as FIRST_KIND, CLOCK as LAST_KIND};
ghost use Rattle.world_rules.specs.Spawning.{OwnerFits, SpawnFits};
ghost use Rattle.world_rules.specs.Identity.{OwnersRise};
ghost use Rattle.match_script.specs.Text.{lines_of, words_of};
ghost use Rattle.match_script.specs.Header.{kind_named, placed, player_words, spawn_words, may_follow, named, object_line};
ghost use Rattle.match_script.specs.Script.{Gives, objects_of};
ghost use Rattle.match_script.specs.Following.{Follows};

use crate::head::{header_line, is_go, misplaced};
use crate::types::{ParseFault, ScriptFault};
use crate::word;
use crate::words::{Words, parted};
use std::alloc::Global;
use tn_types::{MAX_BLOCKS, MAX_CLIENTS, MAX_OBJECTS};
use world_rules::kinds::{CLOCK, DRONE, FLAG, MINE, PLAYER};
use world_rules::{MAX_COORDINATE, Spawn, Spawns};

// Lines of a header without blocks and objects.
const BARE_LINES: u32 = 3;

// Who may play after the objects so far: clients from this one on, as long as no other object came.
#[derive(Clone, Copy)]
pub(crate) struct Place {
    least: u8,
    open: bool,
}

// Whether an object with this owner may stand there.
fn may_follow(place: &Place, owner: Option<u8>) -> bool
    ensures { (before : List OneSpawn) → Follows place.now before → result ≡ may_follow before owner }
{
    match owner {
        None => true,
        Some(client) => place.open && place.least <= client,
    }
}

// The place after an object with this owner.
#[tactic(auto, using(crate::proofs::ObjectLines::follows_player, crate::proofs::ObjectLines::follows_other))]
fn behind(place: &Place, owner: Option<u8>) -> Place
    requires { IfSome owner (λ client. client < MAX_CLIENTS) }
    ensures { (before : List OneSpawn) (s : OneSpawn) → s.owner ≡ owner → may_follow before owner ≡ true
        → Follows place.now before → Follows result (before ++ s ∷ []) }
{
    match owner {
        None => Place {
            least: place.least,
            open: false,
        },
        Some(client) => Place {
            least: client + 1,
            open: place.open,
        },
    }
}

// The kind that a word of `spawn` names.
#[tactic(auto, unfolding(crate::specs::Header::kind_named))]
fn kind_named(word: &[u8]) -> Result<u8, ScriptFault>
    ensures value { result ≡ kind_named word.now }
    ensures least { IfOk result (λ kind. FIRST_KIND ≤ kind) }
    ensures most { IfOk result (λ kind. kind ≤ LAST_KIND) }
{
    if word == b"mine".as_slice() {
        Ok(MINE)
    } else if word == b"drone".as_slice() {
        Ok(DRONE)
    } else if word == b"flag".as_slice() {
        Ok(FLAG)
    } else if word == b"clock".as_slice() {
        Ok(CLOCK)
    } else {
        Err(ScriptFault::UnknownWord)
    }
}

// An object of this kind and owner at a place.
#[tactic(auto, using(crate::proofs::Numbers::number_from_fits), unfolding(crate::specs::Header::placed))]
fn placed(
    blocks: u8,
    kind: u8,
    owner: Option<u8>,
    block: &[u8],
    team: &[u8],
    x: &[u8],
    y: &[u8],
) -> Result<Spawn, ScriptFault>
    requires { blocks ≤ MAX_BLOCKS }
    ensures value { result ≡ placed blocks kind owner block.now team.now x.now y.now }
    ensures fits { (clients : ℕ) → OwnerFits clients kind owner → IfOk result (SpawnFits clients) }
    ensures blocks { IfOk result (λ s. s.block < blocks) }
{
    let block = word::below(blocks, block)?;
    let team = word::below(2, team)?;
    let x = word::number_from(0, MAX_COORDINATE, x)?;
    let y = word::number_from(0, MAX_COORDINATE, y)?;
    Ok(Spawn {
        kind,
        block,
        team,
        x: i64::from(x),
        y: i64::from(y),
        owner,
    })
}

// `player C BLOCK TEAM X Y`.
#[tactic(auto, unfolding(crate::specs::Header::player_words))]
fn player(
    clients: u8,
    blocks: u8,
    c: &[u8],
    block: &[u8],
    team: &[u8],
    x: &[u8],
    y: &[u8],
) -> Result<Spawn, ScriptFault>
    requires { blocks ≤ MAX_BLOCKS }
    ensures value { result ≡ player_words clients blocks c.now block.now team.now x.now y.now }
    ensures fits { IfOk result (SpawnFits clients) }
    ensures blocks { IfOk result (λ s. s.block < blocks) }
{
    let client = word::client(clients, c)?;
    placed(blocks, PLAYER, Some(client), block, team, x, y)
}

// `spawn KIND BLOCK TEAM X Y`.
#[tactic(auto, unfolding(crate::specs::Header::spawn_words))]
fn spawn(
    blocks: u8,
    kind: &[u8],
    block: &[u8],
    team: &[u8],
    x: &[u8],
    y: &[u8],
) -> Result<Spawn, ScriptFault>
    requires { blocks ≤ MAX_BLOCKS }
    ensures value { result ≡ spawn_words blocks kind.now block.now team.now x.now y.now }
    ensures fits { (clients : ℕ) → IfOk result (SpawnFits clients) }
    ensures blocks { IfOk result (λ s. s.block < blocks) }
{
    let kind = kind_named(kind)?;
    placed(blocks, kind, None, block, team, x, y)
}

// The object that a line names, whether it may stand there or not.
#[tactic(auto, unfolding(crate::specs::Header::named))]
fn named(clients: u8, blocks: u8, line: &[u8]) -> Option<Spawn>
    requires { blocks ≤ MAX_BLOCKS }
    ensures value { result ≡ named clients blocks (words_of line.now) }
    ensures fits { IfSome result (SpawnFits clients) }
    ensures blocks { IfSome result (λ s. s.block < blocks) }
{
    match parted(line) {
        Words::Six(kind, what, block, team, x, y) => {
            if kind == b"player".as_slice() {
                player(clients, blocks, what, block, team, x, y).ok()
            } else if kind == b"spawn".as_slice() {
                spawn(blocks, what, block, team, x, y).ok()
            } else {
                None
            }
        }
        _ => None,
    }
}

// The object that a line gives after those so far.
fn object_line(clients: u8, blocks: u8, place: &Place, count: u32, line: &[u8]) -> Option<Spawn>
    requires { blocks ≤ MAX_BLOCKS }
    ensures value { (before : List OneSpawn) → Follows place.now before → length before ≡ count
        → result ≡ object_line clients blocks before (words_of line.now) }
    ensures order { (before : List OneSpawn) → Follows place.now before → IfSome result (λ s. may_follow before s.owner ≡ true) }
    ensures few { IfSome result (λ _. count < MAX_OBJECTS) }
    ensures fits { IfSome result (SpawnFits clients) }
    ensures blocks { IfSome result (λ s. s.block < blocks) }
{
    let object = named(clients, blocks, line)?;
    if may_follow(place, object.owner) && (count as usize) < MAX_OBJECTS {
        Some(object)
    } else {
        None
    }
}

// The objects of a text whose header goes on here after so many blocks, and what comes after its line `go`.
#[tactic(auto, using(crate::proofs::ObjectLines::objects_go_on, crate::proofs::ObjectLines::objects_end, crate::proofs::ObjectLines::objects_stop, crate::proofs::ObjectLines::objects_misplaced, crate::proofs::ObjectLines::rises_more))]
pub(crate) fn objects_of(
    alloc: Global,
    clients: u8,
    blocks: u8,
    text: &[u8],
) -> Result<(Spawns, &[u8]), ParseFault>
    requires clients { clients ≤ MAX_CLIENTS }
    requires blocks { blocks ≤ MAX_BLOCKS }
    ensures value { Gives (λ x. (x.0, lines_of x.1.now)) result (objects_of clients blocks (3 + blocks) [] (lines_of text.now)) }
    ensures few { IfOk result (λ x. length x.0 ≤ MAX_OBJECTS) }
    ensures fits { IfOk result (λ x. All (SpawnFits clients) x.0) }
    ensures owners { IfOk result (λ x. OwnersRise clients 0 (map (λ s. s.owner) x.0)) }
    ensures blocks { IfOk result (λ x. All (λ s. s.block < blocks) x.0) }
{
    let first = BARE_LINES + u32::from(blocks);
    let mut spawns = Spawns::new(alloc);
    let mut place = Place {
        least: 0,
        open: true,
    };
    let mut rest = text;
    let mut count = 0u32;
    'lines: loop {
        let (line, after) = header_line(first + count, rest)?;
        if is_go(line) {
            return Ok((spawns, after));
        }
        let Some(object) = object_line(clients, blocks, &place, count, line) else {
            return Err(misplaced(first + count));
        };
        let Ok(()) = spawns.push(alloc, object) else {
            return Err(ParseFault::NoMemory);
        };
        place = behind(&place, object.owner);
        rest = after;
        count += 1;
    }
}
