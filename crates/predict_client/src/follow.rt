//! A prediction that follows a client's end.
ghost use Rattle.std.specs.Prelude.{◌≡◌, List, ◌∷◌};
ghost use Rattle.wire_format.specs.declared.server.ServerPacket.{ServerPacket as OnePacket};
ghost use Rattle.stream_manager.specs.Client.{ClientEvent as OneEvent, Took, Sampled};
ghost use Rattle.stream_manager.specs.Stands.{ClientState, ClientStandsFor};
ghost use Rattle.world_rules.specs.Kinds.{match_kinds};
ghost use Rattle.predict_client.specs.Following.{Follows};

use crate::player::base;
use client_predict::Predict;
use stream_manager::Client;
use tn_types::MoveBits;

/// The client's end took a packet. Where it was a ping, this changes nothing.
pub fn arrived(predict: &mut Predict, client: &Client)
    requires { client.now.copies.kinds ≡ match_kinds }
    ensures { (log : List OneEvent) (p : OnePacket) → ClientStandsFor client.now (Took p ∷ log)
        → Follows predict.old log → Follows predict.new (Took p ∷ log) }
{
    let (_, pending) = client.pending();
    predict.told(base(client), pending);
}

/// The client's end sampled a move.
pub fn moved(predict: &mut Predict, m: MoveBits)
    ensures { (log : List OneEvent) (client : ClientState) → ClientStandsFor client log
        → Follows predict.old log → Follows predict.new (Sampled m ∷ log) }
{
    predict.sampled(m);
}
