//! Of `world_scope` in a match: after each line what each client sees is what a plain walk over all objects finds, by the rules of
//! docs/world.md, "Scope".
ghost use Rattle.std.specs.Prelude.{◌≡◌, Ok, true};
ghost use Rattle.match_script.specs.Ranges.{HasRanges};
ghost use Rattle.match_engine.specs.Match.{IsPlayed};

use match_engine::Match;
use match_script::Script;
use script_maker::make;
use std::alloc::Global;
use tn_types::NoMemory;
use world_rules::{Object, State};
use world_scope::{Seen, visible};
use world_sim::World;

const CLIENTS: u8 = 8;

const LINES: u32 = 5000;

// Whether an object is a player of this client.
fn is_player_of(client: u8, o: &Object) -> bool {
    match &o.state {
        State::Player(p) => p.client == client,
        _ => false,
    }
}

// Whether an object is hidden from a team: an armed mine of the other one.
fn is_hidden_from(team: u8, o: &Object) -> bool {
    match &o.state {
        State::Mine(m) => m.armed && o.team != team,
        _ => false,
    }
}

// The level at which a player sees an object of its surroundings, if it does.
fn level_near(player: &Object, radius: u32, o: &Object) -> Option<u8> {
    let wide = o.place.x.abs_diff(player.place.x);
    let high = o.place.y.abs_diff(player.place.y);
    let away = wide.max(high);
    if is_hidden_from(player.team, o) || radius < away {
        return None;
    }
    u8::try_from(4 * u64::from(away) / (u64::from(radius) + 1)).ok()
}

// The level at which a client sees the object of this number, if it does. `own` is the client's player with its number.
fn level(own: Option<(usize, &Object)>, radius: u32, number: usize, o: &Object) -> Option<u8> {
    if !o.alive {
        return None;
    }
    if matches!(&o.state, State::Flag(_) | State::Clock(_)) {
        return Some(0);
    }
    let (own_number, player) = own?;
    if number == own_number {
        return Some(0);
    }
    level_near(player, radius, o)
}

// What a walk over all objects finds, in place of what was in the list.
fn walk(world: &World, client: u8, found: &mut Vec<Seen>) -> Result<(), NoMemory> {
    found.clear();
    let objects = world.all_objects();
    let own = objects
        .iter()
        .enumerate()
        .find(|(_, o)| is_player_of(client, o));
    'objects: for (number, o) in objects.iter().enumerate() {
        if let Some(level) = level(own, world.radius(), number, o) {
            let object = number as u32;
            let Ok(()) = found.push(Seen { object, level }) else {
                return Err(NoMemory);
            };
        }
    }
    Ok(())
}

// Whether each client sees what the walk finds. The lists are only places for both.
fn all_see(
    alloc: Global,
    world: &World,
    seen: &mut Vec<Seen>,
    found: &mut Vec<Seen>,
) -> Result<bool, NoMemory> {
    'clients: for client in 0..world.clients() {
        visible(alloc, world, client, seen)?;
        walk(world, client, found)?;
        if seen.as_slice() != found.as_slice() {
            return Ok(false);
        }
    }
    Ok(true)
}

// Does the next line of the script; false at its end.
fn next_line(alloc: Global, game: &mut Match<'_>) -> Result<bool, NoMemory>
    requires played { IsPlayed game.old }
    requires ranges { HasRanges game.old.script }
    ensures played { result ≡ Ok true → IsPlayed game.new }
    ensures script { game.new.script ≡ game.old.script }
{
    game.next(alloc)
}

// How many of the next 5,000 lines are done, one after the other, before a client sees something else than the walk finds.
fn next_lines_alike(alloc: Global, game: &mut Match<'_>) -> Result<u32, NoMemory>
    requires played { IsPlayed game.old }
    requires ranges { HasRanges game.old.script }
{
    let mut seen = Vec::new(alloc);
    let mut found = Vec::new(alloc);
    'lines: for line in 0..LINES {
        if !next_line(alloc, game)? || !all_see(alloc, game.world(), &mut seen, &mut found)? {
            return Ok(line);
        }
    }
    Ok(LINES)
}

// The same of the first lines of a script.
fn lines_alike(alloc: Global, script: &Script) -> Result<u32, NoMemory>
    requires { HasRanges script.now }
{
    let mut game = Match::new(alloc, script)?;
    next_lines_alike(alloc, &mut game)
}

// The same of the script that is made from a seed.
fn lines_alike_of(alloc: Global, seed: u32) -> Result<u32, NoMemory> {
    let script = make(alloc, seed, CLIENTS, LINES)?;
    lines_alike(alloc, &script)
}

#[test]
fn clients_see_what_a_walk_finds(rt: HostRuntime) {
    assert!(rt; lines_alike_of(rt.alloc(), 7) == Ok(LINES));
}
