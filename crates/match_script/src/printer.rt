//! From a script to its text.
ghost use Rattle.std.specs.Prelude.{◌≡◌, ◌++◌, ◌∷◌, [], List, ℕ, OnOk, IfOk, Ok, string_bytes, map};
ghost use Rattle.match_script.specs.declared.types.BodyLine.TheVariants.{Post, ClientPost, Raw};
ghost use Rattle.match_script.specs.Text.{spelled};
ghost use Rattle.match_script.specs.Script.{script_of};
ghost use Rattle.match_script.specs.Ranges.{HasRanges};
ghost use Rattle.match_script.specs.Print.{class_word, flag_word, hex_word, line_words, version_words, match_words, block_words, placed_words, player_words, spawn_words, object_words, go_words, header_words, joined, with_line, text_of, GrowsByALine};

use crate::types::{BodyLine, Head, Script};
use std::alloc::{AllocError, Global};
use std::fmt::Write;
use tn_types::{BlockBytes, Class, Move, NoMemory};
use world_rules::{Spawn, kind_word};

fn class_text(class: Class) -> &'static str
    ensures { result.now ≡ class_word class }
{
    match class {
        Class::Guaranteed => "g",
        Class::Loose => "u",
    }
}

fn flag_text(flag: bool) -> &'static str
    ensures { result.now ≡ flag_word flag }
{
    if flag { "1" } else { "0" }
}

fn hex_text(alloc: Global, bytes: &[u8]) -> Result<String, AllocError>
    ensures { IfOk result (λ s. string_bytes s ≡ hex_word bytes.now) }
{
    if bytes.len() == 0 {
        return String::from_str(alloc, "-");
    }
    hex::encode(alloc, bytes)
}

#[tactic(auto, unfolding(crate::specs::Text::spelled))]
fn put_post(
    alloc: Global,
    out: &mut String,
    client: u8,
    class: Class,
    bytes: &[u8],
) -> Result<(), AllocError>
    ensures { OnOk result (string_bytes out.new ≡ with_line (string_bytes out.old) (line_words (Post client class bytes.now))) }
{
    let class = class_text(class);
    let text = hex_text(alloc, bytes)?;
    let text = text.as_str();
    writeln!(out, "post {client} {class} {text}")
}

#[tactic(auto, unfolding(crate::specs::Text::spelled))]
fn put_client_post(
    alloc: Global,
    out: &mut String,
    client: u8,
    class: Class,
    bytes: &[u8],
) -> Result<(), AllocError>
    ensures { OnOk result (string_bytes out.new ≡ with_line (string_bytes out.old) (line_words (ClientPost client class bytes.now))) }
{
    let class = class_text(class);
    let text = hex_text(alloc, bytes)?;
    let text = text.as_str();
    writeln!(out, "cpost {client} {class} {text}")
}

#[tactic(auto, unfolding(crate::specs::Text::spelled))]
fn put_raw(alloc: Global, out: &mut String, client: u8, bytes: &[u8]) -> Result<(), AllocError>
    ensures { OnOk result (string_bytes out.new ≡ with_line (string_bytes out.old) (line_words (Raw client bytes.now))) }
{
    let text = hex_text(alloc, bytes)?;
    let text = text.as_str();
    writeln!(out, "raw {client} {text}")
}

#[tactic(auto, unfolding(crate::specs::Text::spelled))]
fn put_move(out: &mut String, client: u8, m: Move) -> Result<(), AllocError>
    ensures { OnOk result (string_bytes out.new ≡ with_line (string_bytes out.old) (line_words (BodyLine.Move client m))) }
{
    let dx = m.dx;
    let dy = m.dy;
    let fire = flag_text(m.fire);
    let act = flag_text(m.act);
    writeln!(out, "move {client} {dx} {dy} {fire} {act}")
}

#[tactic(auto, unfolding(crate::specs::Text::spelled))]
fn put_words(alloc: Global, out: &mut String, line: &BodyLine) -> Result<(), AllocError>
    ensures { OnOk result (string_bytes out.new ≡ with_line (string_bytes out.old) (line_words line.now)) }
{
    match line {
        BodyLine::Tick => writeln!(out, "tick"),
        BodyLine::Scan { client } => writeln!(out, "scan {client}"),
        BodyLine::Post {
            client,
            class,
            payload,
        } => put_post(alloc, out, *client, *class, payload.as_slice()),
        BodyLine::ClientPost {
            client,
            class,
            payload,
        } => put_client_post(alloc, out, *client, *class, payload.as_slice()),
        BodyLine::Pack { client } => writeln!(out, "pack {client}"),
        BodyLine::ClientPack { client } => writeln!(out, "cpack {client}"),
        BodyLine::Down { client, k } => writeln!(out, "down {client} {k}"),
        BodyLine::Up { client, k } => writeln!(out, "up {client} {k}"),
        BodyLine::Raw { client, bytes } => put_raw(alloc, out, *client, bytes.as_slice()),
        BodyLine::Move { client, m } => put_move(out, *client, *m),
        BodyLine::Show { client } => writeln!(out, "show {client}"),
        BodyLine::World => writeln!(out, "world"),
    }
}

#[tactic(auto, unfolding(crate::specs::Text::spelled))]
fn put_version(out: &mut String, version: u8) -> Result<(), AllocError>
    ensures { OnOk result (string_bytes out.new ≡ with_line (string_bytes out.old) (version_words version)) }
{
    writeln!(out, "tribes {version}")
}

#[tactic(auto, unfolding(crate::specs::Text::spelled))]
fn put_match(out: &mut String, head: &Head) -> Result<(), AllocError>
    ensures { OnOk result (string_bytes out.new ≡ with_line (string_bytes out.old) (match_words head.now)) }
{
    let Head {
        version: _,
        seed,
        clients,
        life,
        size,
        radius,
        blocks: _,
        setup: _,
    } = head;
    writeln!(out, "match {seed} {clients} {life} {size} {radius}")
}

#[tactic(auto, unfolding(crate::specs::Text::spelled))]
fn put_go(out: &mut String) -> Result<(), AllocError>
    ensures { OnOk result (string_bytes out.new ≡ with_line (string_bytes out.old) go_words) }
{
    writeln!(out, "go")
}

#[tactic(auto, unfolding(crate::specs::Text::spelled))]
fn put_block(alloc: Global, out: &mut String, block: &BlockBytes) -> Result<(), AllocError>
    ensures { OnOk result (string_bytes out.new ≡ with_line (string_bytes out.old) (block_words block.now)) }
{
    let text = hex_text(alloc, block.as_slice())?;
    let text = text.as_str();
    writeln!(out, "block {text}")
}

#[tactic(auto, using(crate::proofs::Joining::one_block_more, crate::proofs::Joining::no_block))]
fn put_blocks(alloc: Global, out: &mut String, blocks: &[BlockBytes]) -> Result<(), AllocError>
    ensures { OnOk result (string_bytes out.new ≡ string_bytes out.old ++ joined (map spelled (map block_words blocks.now))) }
{
    for block in blocks {
        put_block(alloc, out, block)?;
    }
    Ok(())
}

#[tactic(auto, unfolding(crate::specs::Text::spelled))]
fn put_player(
    out: &mut String,
    client: u8,
    block: u8,
    team: u8,
    x: i64,
    y: i64,
) -> Result<(), AllocError>
    ensures { OnOk result (string_bytes out.new ≡ with_line (string_bytes out.old) (player_words client (placed_words block team x y))) }
{
    writeln!(out, "player {client} {block} {team} {x} {y}")
}

#[tactic(auto, unfolding(crate::specs::Text::spelled))]
fn put_spawn(
    out: &mut String,
    kind: u8,
    block: u8,
    team: u8,
    x: i64,
    y: i64,
) -> Result<(), AllocError>
    ensures { OnOk result (string_bytes out.new ≡ with_line (string_bytes out.old) (spawn_words kind (placed_words block team x y))) }
{
    let kind = kind_word(kind);
    writeln!(out, "spawn {kind} {block} {team} {x} {y}")
}

fn put_object(out: &mut String, object: &Spawn) -> Result<(), AllocError>
    ensures { OnOk result (string_bytes out.new ≡ with_line (string_bytes out.old) (object_words object.now)) }
{
    match object.owner {
        Some(client) => put_player(out, client, object.block, object.team, object.x, object.y),
        None => put_spawn(
            out,
            object.kind,
            object.block,
            object.team,
            object.x,
            object.y,
        ),
    }
}

#[tactic(auto, using(crate::proofs::Joining::one_object_more, crate::proofs::Joining::no_object))]
fn put_objects(out: &mut String, objects: &[Spawn]) -> Result<(), AllocError>
    ensures { OnOk result (string_bytes out.new ≡ string_bytes out.old ++ joined (map spelled (map object_words objects.now))) }
{
    for object in objects {
        put_object(out, object)?;
    }
    Ok(())
}

#[tactic(auto, using(crate::proofs::Joining::header_lines))]
fn header_text(alloc: Global, head: &Head) -> Result<String, AllocError>
    ensures { IfOk result (λ text. string_bytes text ≡ joined (map spelled (header_words head.now))) }
{
    let mut out = String::new(alloc);
    put_version(&mut out, head.version)?;
    put_match(&mut out, head)?;
    put_blocks(alloc, &mut out, head.blocks.as_slice())?;
    put_objects(&mut out, head.setup.spawns.as_slice())?;
    put_go(&mut out)?;
    Ok(out)
}

#[tactic(auto, using(crate::proofs::Joining::one_line_more))]
fn text_of(alloc: Global, script: &Script) -> Result<String, AllocError>
    ensures { IfOk result (λ text. string_bytes text ≡ text_of script.now) }
{
    let mut out = header_text(alloc, &script.head)?;
    let lines = script.body.as_slice();
    for line in lines {
        put_words(alloc, &mut out, line)?;
    }
    Ok(out)
}

/// Adds a line of a body to a text, with a newline after it. After an error a part of it may stand there.
pub fn put_line(alloc: Global, out: &mut String, line: &BodyLine) -> Result<(), NoMemory>
    ensures line { OnOk result (string_bytes out.new ≡ with_line (string_bytes out.old) (line_words line.now)) }
    // The text of a script grows by its lines.
    ensures grows_by_a_line { GrowsByALine }
{
    grows_by_a_line();
    match put_words(alloc, out, line) {
        Ok(()) => Ok(()),
        Err(_) => Err(NoMemory),
    }
}

/// The text of a script of this header, as far as the line `go`: that of the script without a line after it.
#[tactic(auto, using(crate::proofs::Joining::no_line))]
pub fn print_head(alloc: Global, head: &Head) -> Result<Vec<u8>, NoMemory>
    ensures { IfOk result (λ text. text.items ≡ text_of (record { head = head.now; body = [] })) }
{
    match header_text(alloc, head) {
        Ok(text) => Ok(text.into_bytes()),
        Err(_) => Err(NoMemory),
    }
}

/// The text of a script is that of its body without the last line, and this line after it.
#[tactic(auto, using(crate::proofs::Joining::grows_by_a_line))]
pub fn grows_by_a_line()
    ensures { GrowsByALine }
{}

/// The text of a script: each line as docs/script.md, "The script", says, with a newline at each end. `parse`
/// reads it as this script again.
#[tactic(auto, using(crate::proofs::PrintedLines::read_again))]
pub fn print(alloc: Global, script: &Script) -> Result<Vec<u8>, NoMemory>
    requires { HasRanges script.now }
    ensures text { IfOk result (λ text. text.items ≡ text_of script.now) }
    ensures read_again { IfOk result (λ text. script_of text.items ≡ Ok script.now) }
{
    match text_of(alloc, script) {
        Ok(text) => Ok(text.into_bytes()),
        Err(_) => Err(NoMemory),
    }
}
