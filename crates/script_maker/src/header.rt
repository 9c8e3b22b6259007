//! The header of a made script.
ghost use Rattle.std.specs.Prelude.{◌≡◌, ◌++◌, ◌∷◌, [], ◌≤◌, ◌<◌, IfOk, OnOk, length, replicate};
ghost use Rattle.script_maker.specs.Adding.{Adds};
ghost use Rattle.script_maker.specs.Draws.{each_below};
ghost use Rattle.script_maker.specs.Header.{blocks, player, fixed, other, objects, head_with};

use crate::draws::draw;
use crate::numbers::{
    COORDINATES, FLAG_FAR, FLAG_NEAR, MADE_BLOCK_BYTES, MADE_BLOCKS, MADE_OBJECTS, MADE_RADIUS,
    MADE_SIZE, MADE_VERSION,
};
use match_script::{Blocks, Head};
use rand_pcg::Lcg64Xsh32;
use std::alloc::Global;
use tn_types::{BlockBytes, MAX_CLIENTS, MAX_LIFE, NoMemory};
use world_rules::kinds::{CLOCK, DRONE, FLAG, MINE, PLAYER};
use world_rules::{Setup, Spawn, Spawns};

// Objects that stand where no draw says.
const FIXED: u8 = 3;

// Eight bytes of this value.
fn block(value: u8) -> BlockBytes
    ensures { result ≡ replicate MADE_BLOCK_BYTES value }
{
    let mut bytes = BlockBytes::new();
    'bytes: for _ in 0..MADE_BLOCK_BYTES {
        bytes.push(value);
    }
    bytes
}

fn blocks(alloc: Global) -> Result<Blocks, NoMemory>
    ensures { IfOk result (λ b. b ≡ blocks) }
{
    match Vec::from_array(alloc, [block(0), block(1), block(2), block(3)]) {
        Ok(all) => Ok(Blocks::from_vec(all)),
        Err(_) => Err(NoMemory),
    }
}

// The player of a client.
#[tactic(auto, unfolding(crate::specs::Header::player))]
fn player(rng: &mut Lcg64Xsh32, client: u8) -> Spawn
    ensures { (result ∷ [], rng.new) ≡ player client rng.old }
{
    let x = draw(rng, COORDINATES);
    let y = draw(rng, COORDINATES);
    Spawn {
        kind: PLAYER,
        block: client % MADE_BLOCKS,
        team: client % 2,
        x: i64::from(x),
        y: i64::from(y),
        owner: Some(client),
    }
}

// The drone or the mine of this number.
#[tactic(auto, unfolding(crate::specs::Header::other))]
fn other(rng: &mut Lcg64Xsh32, i: u8) -> Spawn
    ensures { (result ∷ [], rng.new) ≡ other i rng.old }
{
    let x = draw(rng, COORDINATES);
    let y = draw(rng, COORDINATES);
    let drone = i % 2 == 0;
    Spawn {
        kind: if drone { DRONE } else { MINE },
        block: if drone { 2 } else { 3 },
        team: i / 2 % 2,
        x: i64::from(x),
        y: i64::from(y),
        owner: None,
    }
}

// What stands at a place with no owner.
fn standing(kind: u8, block: u8, team: u8, place: i64) -> Spawn
    ensures { result ≡ record { kind = kind; block = block; team = team; x = place; y = place; owner = None } }
{
    Spawn {
        kind,
        block,
        team,
        x: place,
        y: place,
        owner: None,
    }
}

fn put_players(
    alloc: Global,
    rng: &mut Lcg64Xsh32,
    clients: u8,
    spawns: &mut Spawns,
) -> Result<(), NoMemory>
    ensures { OnOk result (Adds (each_below clients player) spawns.old rng.old spawns.new rng.new) }
{
    'clients: for client in 0..clients {
        spawns.push(alloc, player(rng, client))?;
    }
    Ok(())
}

fn put_fixed(alloc: Global, spawns: &mut Spawns) -> Result<(), NoMemory>
    ensures { OnOk result (spawns.new ≡ spawns.old ++ fixed) }
{
    spawns.push(alloc, standing(CLOCK, 0, 0, 0))?;
    spawns.push(alloc, standing(FLAG, 1, 0, FLAG_NEAR))?;
    spawns.push(alloc, standing(FLAG, 1, 1, FLAG_FAR))
}

fn put_others(
    alloc: Global,
    rng: &mut Lcg64Xsh32,
    count: u8,
    spawns: &mut Spawns,
) -> Result<(), NoMemory>
    ensures { OnOk result (Adds (each_below count other) spawns.old rng.old spawns.new rng.new) }
{
    'others: for i in 0..count {
        spawns.push(alloc, other(rng, i))?;
    }
    Ok(())
}

// All objects of a match of so many clients.
#[tactic(auto, unfolding(crate::specs::Header::objects))]
pub(crate) fn objects(alloc: Global, rng: &mut Lcg64Xsh32, clients: u8) -> Result<Spawns, NoMemory>
    requires { clients ≤ MAX_CLIENTS }
    ensures { IfOk result (λ spawns. (spawns, rng.new) ≡ objects clients rng.old) }
{
    let mut spawns = Spawns::new(alloc);
    put_players(alloc, rng, clients, &mut spawns)?;
    put_fixed(alloc, &mut spawns)?;
    put_others(alloc, rng, MADE_OBJECTS - (clients + FIXED), &mut spawns)?;
    Ok(spawns)
}

// The header with these objects.
pub(crate) fn head_with(
    alloc: Global,
    seed: u32,
    clients: u8,
    spawns: Spawns,
) -> Result<Head, NoMemory>
    ensures { IfOk result (λ h. h ≡ head_with seed clients spawns) }
{
    let blocks = blocks(alloc)?;
    Ok(Head {
        version: MADE_VERSION,
        seed,
        clients,
        life: MAX_LIFE,
        size: MADE_SIZE,
        radius: MADE_RADIUS,
        blocks,
        setup: Setup {
            clients,
            radius: MADE_RADIUS,
            spawns,
        },
    })
}
