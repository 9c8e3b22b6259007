//! All that is asked of the reads of one client.
ghost use Rattle.std.specs.Prelude.{◌≡◌, ◌<◌, ◌≤◌, length, IfOk};
ghost use Rattle.kept_pair.specs.Kept.{terms_in};
ghost use Rattle.race_history.specs.Deciding.{Decides};
ghost use Rattle.race_reads.specs.Legal.{AreLegalReads};

use crate::current::all_current;
use crate::falling::never_falls;
use crate::standing::reads_stand;
use crate::told::learn_fields;
use dirty_lanes::FinalWords;
use kept_pair::KeptPair;
use lane_periods::Objects;
use race_history::History;
use std::alloc::Global;
use tn_types::NoMemory;

/// Whether what a client read is what its objects had: each read of each pack has the value at its version, for the object of its
/// period and its field; for each object and field the versions that were read never go down; and each field of each period that
/// is shown and not hidden was read at its newest version in this period, or its bit stands in the final word, or it is due.
///
/// The words are those of this client and of every object of the values. `objects` has the object of each period; nothing is asked
/// of it, nor of the values and the steps beyond what their types keep. `Err` comes for want of memory alone.
#[tactic(auto, using(crate::proofs::Joining::told_places, crate::proofs::Joining::told_narrow))]
pub fn reads_are_legal(
    alloc: Global,
    values: &History,
    words: &FinalWords,
    client: u8,
    pair: &KeptPair,
    objects: &Objects,
) -> Result<bool, NoMemory>
    requires client { client < words.now.clients }
    requires objects { length values.now ≤ words.now.objects }
    ensures decides { IfOk result (λ b.
        Decides b (AreLegalReads values.now words.now client (terms_in pair.now) pair.now.steps objects.now)) }
{
    learn_fields(values);
    if !reads_stand(values, objects, pair.steps()) {
        return Ok(false);
    }
    if !never_falls(alloc, objects, values.objects(), pair.steps())? {
        return Ok(false);
    }
    all_current(alloc, values, words, client, pair, objects)
}
