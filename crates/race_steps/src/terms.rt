//! Whether a pair was made with what the header of a script says.
ghost use Rattle.std.specs.Prelude.{◌≡◌, ◌≤◌, length, slice_get, Some};
ghost use Rattle.stream_manager.specs.declared.config.Config.{Config};
ghost use Rattle.kept_pair.specs.Kept.{terms_in};
ghost use Rattle.own_lists.specs.Past.{client_terms};
ghost use Rattle.race_history.specs.Deciding.{Decides};

use kept_pair::KeptPair;
use match_script::Head;
use stream_manager::{Config, Conn};
use tn_types::{BlockBytes, MAX_BLOCKS, WORLD_MOVE_BITS};
use world_rules::match_kinds;

// Whether the connection has this client, life, size and version, and moves of this project's own world.
fn is_config(config: &Config, client: u8, life: u32, size: u32, version: u8) -> bool
    ensures { Decides result (config.now
        ≡ record { client = client; life = life; size = size; version = version; move_bits = WORLD_MOVE_BITS }) }
{
    config.client == client
        && config.life == life
        && config.size == size
        && config.version == version
        && config.move_bits == WORLD_MOVE_BITS as u8
}

// Whether the connection has this block under this number.
fn is_block(conn: &Conn, number: u8, block: &BlockBytes) -> bool
    ensures { Decides result (slice_get conn.now.blocks.blocks number ≡ Some block.now) }
{
    match conn.block(number) {
        Some(own) => own.as_slice() == block.as_slice(),
        None => false,
    }
}

// Whether the connection has these blocks and no other.
fn are_blocks(conn: &Conn, blocks: &[BlockBytes]) -> bool
    requires few { length blocks.now ≤ MAX_BLOCKS }
    ensures { Decides result (conn.now.blocks.blocks ≡ blocks.now) }
{
    for (number, block) in blocks.iter().enumerate() {
        if !is_block(conn, number as u8, block) {
            return false;
        }
    }
    conn.block(blocks.len() as u8).is_none()
}

/// Whether the pair was made with the client's number, what the header says and the kinds of a match.
pub fn terms_are(pair: &KeptPair, head: &Head, client: u8) -> bool
    requires few { length head.now.blocks ≤ MAX_BLOCKS }
    ensures { Decides result (terms_in pair.now ≡ client_terms head.now client) }
{
    let conn = pair.pair().conn();
    is_config(conn.config(), client, head.life, head.size, head.version)
        && conn.kinds().is_same(&match_kinds())
        && are_blocks(conn, head.blocks.as_slice())
}
