//! The text of a race.
ghost use Rattle.std.specs.Prelude.{◌≡◌, ◌<◌, ◌≤◌, ◌^◌, ◌++◌, OnOk, length};
ghost use Rattle.race_text.specs.Text.{of_each};
ghost use Rattle.legal_race.specs.Text.{journal_of, show_of, race_text};

use match_script::Script;
use race_history::Race;
use race_text::{Draft, put_history, put_journal, put_moves, put_show, put_words};
use std::alloc::Global;
use tn_types::NoMemory;

// What each client's connection kept.
fn put_journals(text: &mut Draft, alloc: Global, clients: u8, race: &Race) -> Result<(), NoMemory>
    requires clients { length race.now.clients ≡ clients }
    ensures added { OnOk result (text.new.added ≡ text.old.added ++ of_each clients (journal_of race.now)) }
    ensures before { text.new.before ≡ text.old.before }
{
    let all = race.clients.as_slice();
    for c in 0..clients {
        let client = &all[c as usize];
        put_journal(text, alloc, c, &client.pair, &client.objects, client.full)?;
    }
    Ok(())
}

// What each client has.
fn put_shows(text: &mut Draft, alloc: Global, clients: u8, race: &Race) -> Result<(), NoMemory>
    requires clients { length race.now.clients ≡ clients }
    requires word_clients { clients ≤ race.now.words.clients }
    requires few_ticks { length race.now.moves < 2 ^ 32 }
    ensures added { OnOk result (text.new.added ≡ text.old.added ++ of_each clients (show_of race.now)) }
    ensures before { text.new.before ≡ text.old.before }
{
    let all = race.clients.as_slice();
    for c in 0..clients {
        let client = &all[c as usize];
        put_show(
            text,
            alloc,
            c,
            &client.pair,
            &client.objects,
            &race.words,
            &race.moves,
        )?;
    }
    Ok(())
}

/// The text of a race.
pub(crate) fn put_race(
    text: &mut Draft,
    alloc: Global,
    script: &Script,
    race: &Race,
) -> Result<(), NoMemory>
    requires clients { length race.now.clients ≡ script.now.head.clients }
    requires word_clients { script.now.head.clients ≤ race.now.words.clients }
    requires word_objects { length race.now.values ≤ race.now.words.objects }
    requires few_ticks { length race.now.moves < 2 ^ 32 }
    ensures added { OnOk result (text.new.added ≡ text.old.added ++ race_text script.now race.now) }
    ensures before { text.new.before ≡ text.old.before }
{
    let clients = script.head.clients;
    put_history(text, &race.values)?;
    put_moves(text, &race.moves)?;
    put_journals(text, alloc, clients, race)?;
    put_words(text, &race.words, clients, race.values.objects())?;
    put_shows(text, alloc, clients, race)
}
