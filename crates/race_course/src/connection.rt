//! A client's connection before its first step.
ghost use Rattle.std.specs.Prelude.{◌≡◌, ◌<◌, [], IfOk};
ghost use Rattle.kept_pair.specs.Kept.{terms_in};
ghost use Rattle.match_script.specs.Ranges.{HeadFits};
ghost use Rattle.own_lists.specs.Past.{client_terms};

use kept_pair::KeptPair;
use match_script::Head;
use own_lists::pair_core::Pair;
use std::alloc::Global;
use stream_manager::Config;
use tn_types::{NoMemory, WORLD_MOVE_BITS};
use world_rules::match_kinds;

/// A pair on which no step was made, with what the header says of the client's connection. For want of memory there is none.
#[tactic(auto, using(crate::proofs::Configs::config_fits))]
pub fn new_pair(alloc: Global, head: &Head, client: u8) -> Result<KeptPair, NoMemory>
    requires head { HeadFits head.now }
    requires client { client < head.now.clients }
    ensures steps { IfOk result (λ pair. pair.steps ≡ []) }
    ensures terms { IfOk result (λ pair. terms_in pair ≡ client_terms head.now client) }
{
    let config = Config {
        client,
        life: head.life,
        size: head.size,
        version: head.version,
        move_bits: WORLD_MOVE_BITS as u8,
    };
    let pair = Pair::new(alloc, config, &match_kinds(), head.blocks.as_slice())?;
    Ok(KeptPair::new(alloc, pair))
}
