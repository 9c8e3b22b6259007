//! The welcome that counts.
ghost use Rattle.std.specs.Prelude.{◌≡◌, [], IfSome};
ghost use Rattle.stream_manager.specs.Limits.{IsConfig};
ghost use Rattle.net_join.specs.Joining.{is_of_server, welcomed};

use match_script::MAX_VERSION;
use net_rules::welcome_of;
use stream_manager::Config;
use tn_outside::Peer;
use tn_types::WORLD_MOVE_BITS;

/// The peer that is the server.
pub(crate) const SERVER: Peer = Peer { number: 0 };

/// Whether a datagram is from the server.
pub(crate) fn is_of_server(peer: Peer) -> bool
    ensures { result ≡ is_of_server (record { peer = peer; bytes = [] }) }
{
    peer.number == 0
}

/// What these bytes let a client be made with, where its hellos have this nonce.
pub(crate) fn welcomed(nonce: u32, peer: Peer, bytes: &[u8]) -> Option<Config>
    ensures value { result ≡ welcomed nonce (record { peer = peer; bytes = bytes.now }) }
    ensures fits { IfSome result IsConfig }
{
    if !is_of_server(peer) {
        return None;
    }
    let told = welcome_of(bytes)?;
    if told.nonce != nonce {
        return None;
    }
    if told.version > MAX_VERSION {
        return None;
    }
    let move_bits = WORLD_MOVE_BITS as u8;
    Config::new(told.client, told.life, told.size, told.version, move_bits).ok()
}
