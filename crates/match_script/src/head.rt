//! The lines of the header.
ghost use Rattle.std.specs.Prelude.{◌≡◌, ◌<◌, ◌≤◌, List, ℕ, [], Ok, Err, IfOk, IfSome, length};
ghost use Rattle.std.specs.List.{All};
ghost use Rattle.match_script.specs.declared.types.ParseFault.TheVariants.{Bad};
ghost use Rattle.match_script.specs.declared.types.ScriptFault.TheVariants.{BadHeader};
ghost use Rattle.match_script.specs.Text.{lines_of, words_of};
ghost use Rattle.match_script.specs.Header.{match_numbers, version_named, version_line, match_line, block_line, is_go};
ghost use Rattle.match_script.specs.Script.{Gives, header_words, block_in, blocks_of, with_objects, opening, header};
ghost use Rattle.match_script.specs.Ranges.{BlockFits, HeadFits};

use crate::cut::{cut_line, is_text};
use crate::limits::{MAX_RADIUS, MAX_VERSION, MIN_VERSION};
use crate::objects::objects_of;
use crate::types::{Blocks, Head, ParseFault, ScriptFault};
use crate::word;
use crate::words::{Words, parted};
use std::alloc::Global;
use tn_types::{
    BlockBytes, MAX_BLOCKS, MAX_CLIENTS, MAX_DATAGRAM_BYTES, MAX_LIFE, MIN_DATAGRAM_BYTES,
};
use world_rules::{Setup, Spawns};

/// The line that is to stand at place n of a header, and what comes after it.
#[tactic(auto, using(crate::proofs::Bodies::no_line), unfolding(crate::specs::Script::header_words, crate::specs::Script::text_line))]
pub fn header_line(n: u32, text: &[u8]) -> Result<(&[u8], &[u8]), ParseFault>
    ensures { Gives (λ x. (words_of x.0.now, lines_of x.1.now)) result (header_words n (lines_of text.now)) }
{
    if text.len() == 0 {
        return Err(misplaced(n));
    }
    let (line, rest) = cut_line(text);
    if is_text(line) {
        Ok((line, rest))
    } else {
        Err(ParseFault::Bad {
            line: n,
            fault: ScriptFault::NotText,
        })
    }
}

// The version that a word names.
#[tactic(auto, unfolding(crate::specs::Header::version_named))]
fn version_named(word: &[u8]) -> Option<u8>
    ensures value { result ≡ version_named word.now }
    ensures least { IfSome result (λ version. MIN_VERSION ≤ version) }
    ensures most { IfSome result (λ version. version ≤ MAX_VERSION) }
{
    if word == b"1".as_slice() {
        Some(1)
    } else if word == b"2".as_slice() {
        Some(2)
    } else {
        None
    }
}

// The version that `tribes VERSION` names.
#[tactic(auto, unfolding(crate::specs::Header::version_line))]
fn version_line(line: &[u8]) -> Option<u8>
    ensures value { result ≡ version_line (words_of line.now) }
    ensures least { IfSome result (λ version. MIN_VERSION ≤ version) }
    ensures most { IfSome result (λ version. version ≤ MAX_VERSION) }
{
    match parted(line) {
        Words::Two(kind, version) => {
            if kind == b"tribes".as_slice() {
                version_named(version)
            } else {
                None
            }
        }
        _ => None,
    }
}

#[tactic(auto, using(crate::proofs::Numbers::number_from_fits, crate::proofs::Numbers::number_below), unfolding(crate::specs::Header::match_numbers))]
fn match_numbers(
    alloc: Global,
    version: u8,
    seed: &[u8],
    clients: &[u8],
    life: &[u8],
    size: &[u8],
    radius: &[u8],
) -> Result<Head, ScriptFault>
    ensures value { result ≡ match_numbers version seed.now clients.now life.now size.now radius.now }
    ensures fits { MIN_VERSION ≤ version → version ≤ MAX_VERSION → IfOk result HeadFits }
{
    let seed = word::number_32(seed)?;
    let clients = word::number_from(1, u32::from(MAX_CLIENTS), clients)?;
    let life = word::number_from(1, MAX_LIFE, life)?;
    let size = word::number_from(MIN_DATAGRAM_BYTES as u32, MAX_DATAGRAM_BYTES as u32, size)?;
    let radius = word::number_from(0, MAX_RADIUS, radius)?;
    Ok(Head {
        version,
        seed,
        clients: clients as u8,
        life,
        size,
        radius,
        blocks: Blocks::from_vec(Vec::new(alloc)),
        setup: Setup {
            clients: clients as u8,
            radius,
            spawns: Spawns::new(alloc),
        },
    })
}

/// The header that `match SEED CLIENTS LIFE SIZE RADIUS` gives, with no block and no object yet.
#[tactic(auto, unfolding(crate::specs::Header::match_line))]
pub fn match_line(alloc: Global, version: u8, line: &[u8]) -> Option<Head>
    ensures value { result ≡ match_line version (words_of line.now) }
    ensures fits { MIN_VERSION ≤ version → version ≤ MAX_VERSION → IfSome result HeadFits }
{
    match parted(line) {
        Words::Six(kind, seed, clients, life, size, radius) => {
            if kind == b"match".as_slice() {
                match match_numbers(alloc, version, seed, clients, life, size, radius) {
                    Ok(head) => Some(head),
                    Err(_) => None,
                }
            } else {
                None
            }
        }
        _ => None,
    }
}

// The bytes of block k that `block HEX` gives.
#[tactic(auto, unfolding(crate::specs::Header::block_line))]
fn block_line(k: u32, line: &[u8]) -> Option<BlockBytes>
    ensures value { result ≡ block_line k (words_of line.now) }
    ensures few { IfSome result (λ _. k < MAX_BLOCKS) }
    ensures fits { IfSome result BlockFits }
{
    match parted(line) {
        Words::Two(kind, bytes) => {
            if kind == b"block".as_slice() && (k as usize) < MAX_BLOCKS {
                match word::bytes(bytes) {
                    Ok(block) => Some(block),
                    Err(_) => None,
                }
            } else {
                None
            }
        }
        _ => None,
    }
}

// Whether a line is `go`, which ends the header.
#[tactic(auto, unfolding(crate::specs::Header::is_go))]
pub(crate) fn is_go(line: &[u8]) -> bool
    ensures { result ≡ is_go (words_of line.now) }
{
    match parted(line) {
        Words::One(kind) => kind == b"go".as_slice(),
        _ => false,
    }
}

/// Line n of a header can't stand there.
pub fn misplaced(n: u32) -> ParseFault
    ensures { result ≡ Bad n BadHeader }
{
    ParseFault::Bad {
        line: n,
        fault: ScriptFault::BadHeader,
    }
}

// The bytes of block k, if this line gives one.
#[tactic(auto, unfolding(crate::specs::Script::block_in))]
fn block_in(k: u32, line: &[u8]) -> Option<BlockBytes>
    ensures value { result ≡ block_in k line.now }
    ensures few { IfSome result (λ _. k < MAX_BLOCKS) }
    ensures fits { IfSome result BlockFits }
{
    if is_text(line) {
        block_line(k, line)
    } else {
        None
    }
}

// The blocks at the front of a text, and what comes after them.
#[tactic(auto, using(crate::proofs::BlockLines::blocks_go_on, crate::proofs::BlockLines::blocks_end, crate::proofs::BlockLines::blocks_stop, crate::proofs::BlockLines::all_fit_more))]
fn blocks_of(alloc: Global, text: &[u8]) -> Result<(Blocks, &[u8]), ParseFault>
    ensures value { Gives (λ x. (x.0, lines_of x.1.now)) result (Ok (blocks_of 0 (lines_of text.now))) }
    ensures few { IfOk result (λ x. length x.0 ≤ MAX_BLOCKS) }
    ensures fits { IfOk result (λ x. All BlockFits x.0) }
{
    let mut blocks = Vec::new(alloc);
    let mut rest = text;
    let mut k = 0u32;
    'lines: while rest.len() > 0 {
        let (line, after) = cut_line(rest);
        let Some(block) = block_in(k, line) else {
            return Ok((Blocks::from_vec(blocks), rest));
        };
        blocks.push(block)?;
        rest = after;
        k += 1;
    }
    Ok((Blocks::from_vec(blocks), rest))
}

// The header that the first two lines of a text begin, and what comes after those. A head that is made is held at no exit.
#[tactic(auto, unfolding(crate::specs::Script::opening))]
fn opening(alloc: Global, text: &[u8]) -> Result<(Head, &[u8]), ParseFault>
    ensures value { Gives (λ x. (x.0, lines_of x.1.now)) result (opening (lines_of text.now)) }
    ensures fits { IfOk result (λ x. HeadFits x.0) }
{
    let (line, rest) = header_line(1, text)?;
    let Some(version) = version_line(line) else {
        return Err(misplaced(1));
    };
    let (line, rest) = header_line(2, rest)?;
    match match_line(alloc, version, line) {
        Some(head) => Ok((head, rest)),
        None => Err(misplaced(2)),
    }
}

/// The header of a text, and what comes after it.
#[tactic(auto, unfolding(crate::specs::Script::header))]
pub fn header(alloc: Global, text: &[u8]) -> Result<(Head, &[u8]), ParseFault>
    ensures value { Gives (λ x. (x.0, lines_of x.1.now)) result (header (lines_of text.now)) }
    ensures fits { IfOk result (λ x. HeadFits x.0) }
{
    let (head, rest) = opening(alloc, text)?;
    let (blocks, rest) = blocks_of(alloc, rest)?;
    let (spawns, rest) = objects_of(alloc, head.clients, blocks.len() as u8, rest)?;
    Ok((with_objects(head, blocks, spawns), rest))
}

// The header with these blocks and objects.
fn with_objects(head: Head, blocks: Blocks, spawns: Spawns) -> Head
    ensures { result ≡ with_objects head blocks spawns }
{
    let setup = Setup {
        clients: head.clients,
        radius: head.radius,
        spawns,
    };
    Head {
        blocks,
        setup,
        ..head
    }
}
