//! A race that is made plainly.
ghost use Rattle.std.specs.Prelude.{◌≡◌, ℕ, IfOk, length, slice_get, Some};
ghost use Rattle.match_script.specs.Ranges.{HasRanges};
ghost use Rattle.legal_race.specs.race_course.Course.{IsCourseOf};
ghost use Rattle.legal_race.specs.race_history.declared.race.RaceClient.{RaceClient as OneClient};
ghost use Rattle.legal_race.specs.Legal.{IsLegal};
ghost use Rattle.plain_race.specs.Idle.{idle_in};
ghost use Rattle.plain_race.specs.Done.{IsPlain};

use crate::client::plain_client;
use crate::idle::idle_moves;
use crate::values::values_of;
use crate::words::no_words;
use legal_race::race_course::Course;
use legal_race::race_history::{Race, RaceClients, TickMoves};
use match_script::Script;
use std::alloc::Global;
use tn_types::NoMemory;

// What is kept of each client.
fn plain_clients(alloc: Global, script: &Script, course: &Course) -> Result<RaceClients, NoMemory>
    requires ranges { HasRanges script.now }
    requires course { IsCourseOf course.now script.now (idle_in script.now) }
    ensures count { IfOk result (λ clients. length clients ≡ script.now.head.clients) }
    ensures each { IfOk result (λ clients. (c : ℕ) → (client : OneClient) → slice_get clients c ≡ Some client
        → IsPlain script.now c client) }
{
    let mut clients = RaceClients::new(alloc);
    for c in 0..script.head.clients {
        let client = plain_client(alloc, script, c, course.messages(c))?;
        clients.push(alloc, client)?;
    }
    Ok(clients)
}

/// Makes a race that is legal for the script (docs/threads.md, "A legal race"), on one thread. No tick takes a move. Each client does its
/// own lines and packs first, in the order of the script, so that no pack reads anything, and then takes its messages, so that in the end
/// each field of what is shown is due. `Err` comes for want of memory alone.
pub fn plain_race(alloc: Global, script: &Script) -> Result<Race, NoMemory>
    requires ranges { HasRanges script.now }
    ensures legal { IfOk result (λ race. IsLegal script.now race) }
    ensures idle { IfOk result (λ race. race.moves ≡ idle_in script.now) }
{
    let moves = idle_moves(alloc, script)?;
    let course = Course::new(alloc, script, &moves)?;
    let values = values_of(alloc, &script.head, &moves)?;
    let words = no_words(alloc, script.head.clients)?;
    let clients = plain_clients(alloc, script, &course)?;
    Ok(Race {
        values,
        moves,
        words,
        clients,
    })
}
