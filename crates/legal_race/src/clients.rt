//! What was kept of the clients of a race.
ghost use Rattle.std.specs.Prelude.{◌≡◌, ℕ, ◌<◌, ◌≤◌, ◌^◌, IfOk, length, slice_get, Some};
ghost use Rattle.match_script.specs.Ranges.{HasRanges};
ghost use Rattle.race_history.specs.Deciding.{Decides};
ghost use Rattle.race_course.specs.Course.{IsCourseOf};
ghost use Rattle.race_history.specs.declared.race.RaceClient.{RaceClient as OneClient};
ghost use Rattle.legal_race.specs.Legal.{IsClientLegal};

use match_script::Script;
use race_course::Course;
use race_history::{Race, RaceClient};
use race_reads::reads_are_legal;
use race_steps::{steps_are_asked, terms_are};
use std::alloc::Global;
use tn_types::NoMemory;

// Whether what was kept of one client is legal.
fn client_is_legal(
    alloc: Global,
    script: &Script,
    race: &Race,
    course: &Course,
    c: u8,
    client: &RaceClient,
) -> Result<bool, NoMemory>
    requires ranges { HasRanges script.now }
    requires course { IsCourseOf course.now script.now race.now.moves }
    requires few_ticks { length race.now.moves < 2 ^ 32 }
    requires there { c < script.now.head.clients }
    requires word_clients { script.now.head.clients ≤ race.now.words.clients }
    requires word_objects { length race.now.values ≤ race.now.words.objects }
    ensures { IfOk result (λ b. Decides b (IsClientLegal script.now race.now c client.now)) }
{
    // the pair replays: its kept steps tell so
    let _steps = client.pair.steps();
    if !terms_are(&client.pair, &script.head, c) {
        return Ok(false);
    }
    if !reads_are_legal(
        alloc,
        &race.values,
        &race.words,
        c,
        &client.pair,
        &client.objects,
    )? {
        return Ok(false);
    }
    Ok(steps_are_asked(
        script,
        c,
        &client.pair,
        &client.objects,
        client.full,
        course.messages(c),
        &race.moves,
    ))
}

/// Whether what was kept of each client is legal.
pub(crate) fn clients_are_legal(
    alloc: Global,
    script: &Script,
    race: &Race,
    course: &Course,
) -> Result<bool, NoMemory>
    requires ranges { HasRanges script.now }
    requires course { IsCourseOf course.now script.now race.now.moves }
    requires few_ticks { length race.now.moves < 2 ^ 32 }
    requires clients { length race.now.clients ≡ script.now.head.clients }
    requires word_clients { script.now.head.clients ≤ race.now.words.clients }
    requires word_objects { length race.now.values ≤ race.now.words.objects }
    ensures { IfOk result (λ b. Decides b ((c : ℕ) → (client : OneClient) → slice_get race.now.clients c ≡ Some client
        → IsClientLegal script.now race.now c client)) }
{
    let clients = race.clients.as_slice();
    for c in 0..script.head.clients {
        if !client_is_legal(alloc, script, race, course, c, &clients[c as usize])? {
            return Ok(false);
        }
    }
    Ok(true)
}
