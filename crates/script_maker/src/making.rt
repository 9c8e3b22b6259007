//! The making of a script.
ghost use Rattle.std.specs.Prelude.{◌≡◌, ◌≤◌, [], IfOk};
ghost use Rattle.match_script.specs.Ranges.{HasRanges};
ghost use Rattle.script_maker.specs.Made.{first_lines, made};

use crate::draws::generator;
use crate::header::{head_with, objects};
use crate::lines::put_round;
use crate::numbers::MOST_LINES_OF_A_ROUND;
use match_script::{Body, BodyLine, MAX_BODY_LINES, Script};
use rand_pcg::Lcg64Xsh32;
use std::alloc::Global;
use tn_types::{MAX_CLIENTS, NoMemory};

// No line, with room for so many, where a script may have them, and for what the last round has beyond them.
fn room_for(alloc: Global, steps: u32) -> Result<Vec<BodyLine>, NoMemory>
    ensures { IfOk result (λ lines. lines.items ≡ []) }
{
    let room = steps.min(MAX_BODY_LINES) as usize + MOST_LINES_OF_A_ROUND;
    match Vec::with_capacity(alloc, room) {
        Ok(lines) => Ok(lines),
        Err(_) => Err(NoMemory),
    }
}

// The first lines of the rounds.
#[tactic(auto, unfolding(crate::specs::Made::first_lines))]
fn first_lines(
    alloc: Global,
    rng: &mut Lcg64Xsh32,
    clients: u8,
    steps: u32,
) -> Result<Body, NoMemory>
    ensures { IfOk result (λ body. body ≡ (first_lines clients steps rng.old).0) }
{
    let mut lines = room_for(alloc, steps)?;
    let mut k = 0u32;
    'rounds: while lines.len() < steps as usize {
        put_round(alloc, &mut lines, rng, clients, k)?;
        k += 1;
    }
    lines.truncate(steps as usize);
    Ok(Body::from_vec(lines))
}

/// The script of a number, for 1 to 16 clients, with a body of so many lines, maybe none (docs/maker.md). Where these are at
/// most 100,000, it has the ranges of a script. Each draw is made by the generator of the seed, below 2^32.
#[tactic(auto, unfolding(crate::specs::Made::script_drawn))]
pub fn make(alloc: Global, seed: u32, clients: u8, steps: u32) -> Result<Script, NoMemory>
    requires clients_least { 1 ≤ clients }
    requires clients { clients ≤ MAX_CLIENTS }
    ensures made { IfOk result (λ s. s ≡ made seed clients steps) }
    ensures ranges { steps ≤ MAX_BODY_LINES → IfOk result HasRanges }
{
    let mut rng = generator(seed, 0);
    let spawns = objects(alloc, &mut rng, clients)?;
    let head = head_with(alloc, seed, clients, spawns)?;
    let body = first_lines(alloc, &mut rng, clients, steps)?;
    Ok(Script { head, body })
}
