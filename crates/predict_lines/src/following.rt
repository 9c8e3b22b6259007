//! A prediction beside a client's end of a match.
ghost use Rattle.std.specs.Prelude.{◌≡◌, List};
ghost use Rattle.match_laws.specs.pair_core.stream_manager.Client.{ClientEvent as OneEvent};
ghost use Rattle.match_laws.specs.pair_core.stream_manager.Stands.{ClientState, ClientStandsFor};
ghost use Rattle.world_rules.specs.Kinds.{match_kinds};
ghost use Rattle.predict_client.specs.Following.{Follows};
ghost use Rattle.predict_lines.specs.Changes.{IsChange};

use crate::changes::EndChange;
use client_predict::Predict;
use match_laws::pair_core::Pair;
use predict_client::{arrived, moved};

/// Tells a prediction what a line did at its client's end. The pair is that of the client, after the line.
pub fn follow(predict: &mut Predict, pair: &Pair, change: EndChange)
    requires { pair.now.client.copies.kinds ≡ match_kinds }
    ensures { (old new : List OneEvent) (before : ClientState) → ClientStandsFor before old → ClientStandsFor pair.now.client new
        → IsChange change old new → Follows predict.old old → Follows predict.new new }
{
    match change {
        EndChange::Came => arrived(predict, pair.client()),
        EndChange::Sampled(m) => moved(predict, m),
        EndChange::Nothing => {}
    }
}
