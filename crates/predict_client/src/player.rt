//! The player that a client controls, as its copy shows him.
ghost use Rattle.std.specs.Prelude.{◌≡◌, IfSome, option_and_then};
ghost use Rattle.client_predict.specs.Standing.{IsStanding};
ghost use Rattle.ghost_client.specs.State.{copy_in};
ghost use Rattle.stream_manager.specs.ClientCalls.{Answers};
ghost use Rattle.world_rules.specs.Kinds.{match_kinds};
ghost use Rattle.predict_client.specs.Following.{standing_of, base_at};

use ghost_client::Copies;
use stream_manager::Client;
use world_rules::kinds::PLAYER;

/// The field of a player's place from left to right.
pub const PLAYER_X: u8 = 0;
/// The field of his place from top to bottom.
pub const PLAYER_Y: u8 = 1;
/// The field of his ammo.
pub const PLAYER_AMMO: u8 = 3;

// x, y and ammo of the copy in a slot, where it is a player's.
#[tactic(auto, using(crate::proofs::Bases::standing_fits))]
fn standing(copies: &Copies, slot: u8) -> Option<(i64, i64, i64)>
    requires { copies.now.kinds ≡ match_kinds }
    ensures value { result ≡ option_and_then (standing_of match_kinds) (copy_in copies.now.slots slot) }
    ensures stands { IfSome result IsStanding }
{
    let copy = copies.get(slot)?;
    if copy.kind != PLAYER {
        return None;
    }
    let x = copies.value(slot, PLAYER_X)?;
    let y = copies.value(slot, PLAYER_Y)?;
    let ammo = copies.value(slot, PLAYER_AMMO)?;
    Some((x, y, ammo))
}

/// x, y and ammo of the player that the last data packet gave the client control of, as the client's copy shows them; `None` exactly
/// where it gave none, or what it controls is no player.
pub fn base(client: &Client) -> Option<(i64, i64, i64)>
    requires { client.now.copies.kinds ≡ match_kinds }
    ensures log { Answers client.now (base_at match_kinds) result }
    ensures stands { IfSome result IsStanding }
{
    match client.control() {
        Some(slot) => standing(client.copies(), slot),
        None => None,
    }
}
