//! The rounds of a made script.
ghost use Rattle.std.specs.Prelude.{◌≡◌, ◌++◌, ◌∷◌, [], ◌<◌, true, IfOk, OnOk, length};
ghost use Rattle.tn_types.specs.Steps.{is_step};
ghost use Rattle.match_script.specs.declared.types.BodyLine.TheVariants as script;
ghost use Rattle.script_maker.specs.Adding.{Adds};
ghost use Rattle.script_maker.specs.Draws.{each_below};
ghost use Rattle.script_maker.specs.Lines.{step_drawn, move_of, move_drawn, sample, way_line, brought, delivery, event, post, client_lines, round};

use crate::draws::draw;
use crate::numbers::{ACTS_ONCE_IN, CHANCES, PAYLOADS, POSTS_ONCE_IN, STEPS};
use match_script::{BodyLine, LinePayload};
use rand_pcg::Lcg64Xsh32;
use std::alloc::Global;
use tn_types::{Class, End, MIN_STEP, Move, NoMemory, Payload};

// Inlined, so that a line is made where it is to stand.
#[inline(always)]
fn put(lines: &mut Vec<BodyLine>, line: BodyLine) -> Result<(), NoMemory>
    ensures { OnOk result (lines.new.items ≡ lines.old.items ++ line ∷ []) }
{
    match lines.push(line) {
        Ok(()) => Ok(()),
        Err(_) => Err(NoMemory),
    }
}

// The step of a number.
fn step_drawn(d: u32) -> i8
    requires { d < STEPS }
    ensures { result ≡ step_drawn d }
{
    d as i8 + MIN_STEP
}

// The move of four numbers.
fn move_of(dx: u32, dy: u32, fire: u32, act: u32) -> Move
    requires dx { dx < STEPS }
    requires dy { dy < STEPS }
    ensures { result ≡ move_of dx dy fire act }
{
    Move {
        dx: step_drawn(dx),
        dy: step_drawn(dy),
        fire: fire == 0,
        act: act == 0,
    }
}

/// The move that a player makes by chance: two steps, each of -8 to 7 alike, and whether it fires and uses, each once in eight
/// moves (docs/maker.md). It takes four draws.
#[tactic(auto, unfolding(crate::specs::Lines::move_drawn))]
pub fn draw_move(rng: &mut Lcg64Xsh32) -> Move
    ensures { (result, rng.new) ≡ move_drawn rng.old }
{
    let dx = draw(rng, STEPS);
    let dy = draw(rng, STEPS);
    let fire = draw(rng, ACTS_ONCE_IN);
    let act = draw(rng, ACTS_ONCE_IN);
    move_of(dx, dy, fire, act)
}

// A client samples a move.
#[tactic(auto, unfolding(crate::specs::Lines::sample))]
fn sample(rng: &mut Lcg64Xsh32, client: u8) -> BodyLine
    ensures { (result, rng.new) ≡ sample client rng.old }
{
    let m = draw_move(rng);
    BodyLine::Move { client, m }
}

// The line that brings datagram k of those that an end of a client's connection made.
fn way_line(made_by: End, client: u8, k: u32) -> BodyLine
    ensures { result ≡ way_line made_by client k }
{
    match made_by {
        End::Client => BodyLine::Up { client, k },
        End::Server => BodyLine::Down { client, k },
    }
}

// The lines that bring datagram k, by what was drawn.
fn bring(
    lines: &mut Vec<BodyLine>,
    made_by: End,
    client: u8,
    k: u32,
    d: u32,
) -> Result<(), NoMemory>
    ensures { OnOk result (lines.new.items ≡ lines.old.items ++ brought (way_line made_by client) k d) }
{
    if d == 0 {
        return Ok(());
    }
    put(lines, way_line(made_by, client, k))?;
    if d == 1 {
        put(lines, way_line(made_by, client, k))
    } else if d == 2 && k > 0 {
        put(lines, way_line(made_by, client, k - 1))
    } else {
        Ok(())
    }
}

// A delivery of what an end made, after so many datagrams and one.
#[tactic(auto, unfolding(crate::specs::Lines::delivery))]
fn deliver(
    lines: &mut Vec<BodyLine>,
    rng: &mut Lcg64Xsh32,
    made_by: End,
    client: u8,
    k: u32,
) -> Result<(), NoMemory>
    ensures { OnOk result (Adds (delivery (way_line made_by client) k) lines.old.items rng.old lines.new.items rng.new) }
{
    let d = draw(rng, CHANCES);
    bring(lines, made_by, client, k, d)
}

// The event of a post.
#[tactic(auto, unfolding(crate::specs::Lines::event))]
fn event(alloc: Global, rng: &mut Lcg64Xsh32, client: u8) -> Result<BodyLine, NoMemory>
    ensures { IfOk result (λ line. (line ∷ [], rng.new) ≡ event client rng.old) }
{
    let v = draw(rng, PAYLOADS);
    let mut payload = Payload::new();
    payload.push((v / 256) as u8);
    payload.push((v % 256) as u8);
    let payload = LinePayload::new(alloc, payload)?;
    Ok(BodyLine::Post {
        client,
        class: Class::Guaranteed,
        payload,
    })
}

// A post to a client, now and then.
#[tactic(auto, unfolding(crate::specs::Lines::post))]
fn post(
    alloc: Global,
    lines: &mut Vec<BodyLine>,
    rng: &mut Lcg64Xsh32,
    client: u8,
) -> Result<(), NoMemory>
    ensures { OnOk result (Adds (post client) lines.old.items rng.old lines.new.items rng.new) }
{
    if draw(rng, POSTS_ONCE_IN) == 0 {
        let posted = event(alloc, rng, client)?;
        put(lines, posted)
    } else {
        Ok(())
    }
}

// What a client and the server do for each other in round k.
#[tactic(auto, unfolding(crate::specs::Lines::client_lines))]
fn put_client(
    alloc: Global,
    lines: &mut Vec<BodyLine>,
    rng: &mut Lcg64Xsh32,
    k: u32,
    client: u8,
) -> Result<(), NoMemory>
    ensures { OnOk result (Adds (client_lines k client) lines.old.items rng.old lines.new.items rng.new) }
{
    let sampled = sample(rng, client);
    put(lines, sampled)?;
    put(lines, BodyLine::ClientPack { client })?;
    deliver(lines, rng, End::Client, client, k)?;
    put(lines, BodyLine::Scan { client })?;
    post(alloc, lines, rng, client)?;
    put(lines, BodyLine::Pack { client })?;
    deliver(lines, rng, End::Server, client, k)
}

// Round k.
#[tactic(auto, unfolding(crate::specs::Lines::round))]
pub(crate) fn put_round(
    alloc: Global,
    lines: &mut Vec<BodyLine>,
    rng: &mut Lcg64Xsh32,
    clients: u8,
    k: u32,
) -> Result<(), NoMemory>
    ensures { OnOk result (Adds (round clients k) lines.old.items rng.old lines.new.items rng.new) }
{
    put(lines, BodyLine::Tick)?;
    'clients: for client in 0..clients {
        put_client(alloc, lines, rng, k, client)?;
    }
    Ok(())
}
