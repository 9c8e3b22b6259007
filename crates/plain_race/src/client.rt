//! What is kept of one client.
ghost use Rattle.std.specs.Prelude.{◌≡◌, ◌<◌, [], IfOk};
ghost use Rattle.kept_pair.specs.Kept.{terms_in};
ghost use Rattle.match_script.specs.Ranges.{HasRanges};
ghost use Rattle.own_lists.specs.Past.{client_terms};
ghost use Rattle.legal_race.specs.race_course.Course.{all_messages};
ghost use Rattle.plain_race.specs.Idle.{idle_in};
ghost use Rattle.plain_race.specs.Done.{IsPlain, IsEnded};

use crate::lines::do_lines;
use crate::messages::take_all;
use lane_periods::Objects;
use legal_race::race_course::new_pair;
use legal_race::race_history::RaceClient;
use legal_race::race_history::kept_pair::KeptPair;
use match_script::Script;
use race_messages::Message;
use std::alloc::Global;
use tn_types::NoMemory;

// Does the lines of a client and takes its messages; `false` where there was room for all.
fn do_lines_and_messages(
    alloc: Global,
    script: &Script,
    client: u8,
    given: &[Message],
    pair: &mut KeptPair,
    objects: &mut Objects,
) -> Result<bool, NoMemory>
    requires ranges { HasRanges script.now }
    requires client { client < script.now.head.clients }
    requires given { given.now ≡ all_messages script.now (idle_in script.now) client }
    requires terms { terms_in pair.old ≡ client_terms script.now.head client }
    requires no_steps { pair.old.steps ≡ [] }
    requires no_objects { objects.old ≡ [] }
    ensures ended { IfOk result (λ full. IsEnded full (client_terms script.now.head client) client script.now.body given.now
        pair.new.steps objects.new) }
    ensures terms { terms_in pair.new ≡ terms_in pair.old }
{
    if !do_lines(alloc, pair, client, script.body.as_slice())? {
        return Ok(true);
    }
    if !take_all(alloc, pair, objects, given)? {
        return Ok(true);
    }
    Ok(false)
}

/// What is kept of a client, which is given these messages.
pub(crate) fn plain_client(
    alloc: Global,
    script: &Script,
    client: u8,
    given: &[Message],
) -> Result<RaceClient, NoMemory>
    requires ranges { HasRanges script.now }
    requires client { client < script.now.head.clients }
    requires given { given.now ≡ all_messages script.now (idle_in script.now) client }
    ensures { IfOk result (λ kept. IsPlain script.now client kept) }
{
    let mut pair = new_pair(alloc, &script.head, client)?;
    let mut objects = Objects::new(alloc);
    let full = do_lines_and_messages(alloc, script, client, given, &mut pair, &mut objects)?;
    // the pair replays: its kept steps tell so
    let _steps = pair.steps();
    Ok(RaceClient {
        pair,
        objects,
        full,
    })
}
