//! Writing the demo of a client, line by line of its match.
ghost use Rattle.std.specs.Prelude.{◌≡◌, ◌<◌, ◌≤◌, ◌+◌, ◌∷◌, List, OnOk, OnErr, Ok, Err, true, false, length, reverse};
ghost use Rattle.tn_outside.specs.Causes.{HandsOn};
ghost use Rattle.tn_outside.specs.Totals.{Adds, AddsFront};
ghost use Rattle.match_script.specs.Ranges.{HasRanges};
ghost use Rattle.match_script.specs.declared.types.BodyLine.{BodyLine as OneLine};
ghost use Rattle.match_engine.specs.Match.{StandsFor, IsPlayed};
ghost use Rattle.demo_format.specs.Head.{spell_head};
ghost use Rattle.demo_format.specs.Records.{ending};
ghost use Rattle.demo_record.specs.Recording.{AreRecorded, demo_head, demo_text, place_taken, records_text};
ghost use Rattle.demo_record.specs.Steps.{IsRecorded, Notes, NotesRecords, Records};

use demo_format::{DemoHead, put_ending, put_head, put_record};
use match_engine::Match;
use match_report::{Told, Way};
use match_script::Script;
use std::alloc::Global;
use tn_outside::{RunFault, Sink, write_all};
use tn_types::End;

/// The place of the datagram that a client took, if that is what a line tells.
fn place_taken(told: &Told, client: u8) -> Option<u32>
    ensures { result ≡ place_taken client told.now }
{
    match told {
        Told::Came {
            way: Way::Down,
            client: named,
            k,
            moves: _,
            events: _,
        } => { if *named == client { Some(*k) } else { None } }
        _ => None,
    }
}

/// Writes a piece of a demo. After an error a front of it was written.
fn hand_on<K: Sink>(piece: &[u8], sink: &mut K) -> Result<(), RunFault>
    ensures written { OnOk result (Adds (K.written sink.old) (K.written sink.new) piece.now) }
    ensures front { OnErr result (AddsFront (K.written sink.old) (K.written sink.new) piece.now) }
    ensures cause { HandsOn (K.faults sink.old) (K.faults sink.new) (result ≡ Err RunFault.WriteFault) }
{
    match write_all(sink, piece) {
        Ok(()) => Ok(()),
        Err(_) => Err(RunFault::WriteFault),
    }
}

/// Writes what the last line of a match records of a client. `piece` is only a place for it.
fn note<K: Sink>(
    game: &Match<'_>,
    client: u8,
    piece: &mut Vec<u8>,
    sink: &mut K,
) -> Result<(), RunFault>
    requires stands { (line : OneLine) × (past : List OneLine) × StandsFor game.now (line ∷ past) }
    requires client { client < game.now.script.head.clients }
    ensures written { OnOk result (Notes Adds game.now client (K.written sink.old) (K.written sink.new)) }
    ensures short { OnOk result (NotesRecords game.now client) }
    ensures front { OnErr result (Notes AddsFront game.now client (K.written sink.old) (K.written sink.new)) }
    ensures cause { HandsOn (K.faults sink.old) (K.faults sink.new) (result ≡ Err RunFault.WriteFault) }
{
    let Some(told) = game.told() else {
        unreachable!()
    };
    let Some(k) = place_taken(told, client) else {
        return Ok(());
    };
    let Some(bytes) = game.pair(client).datagram(End::Server, k) else {
        unreachable!()
    };
    piece.clear();
    let Ok(()) = put_record(piece, bytes) else {
        return Err(RunFault::NoMemory);
    };
    hand_on(piece.as_slice(), sink)
}

/// Does the next line of the script and writes what it records; false at the script's end.
fn step<K: Sink>(
    alloc: Global,
    game: &mut Match<'_>,
    client: u8,
    piece: &mut Vec<u8>,
    sink: &mut K,
) -> Result<bool, RunFault>
    requires played { IsPlayed game.old }
    requires ranges { HasRanges game.old.script }
    requires client { client < game.old.script.head.clients }
    ensures end { result ≡ Ok false → (length game.old.script.body ≤ game.old.place) × (game.new ≡ game.old)
        × (K.written sink.new ≡ K.written sink.old) }
    ensures more { result ≡ Ok true → game.old.place < length game.old.script.body }
    ensures played { result ≡ Ok true → IsPlayed game.new }
    ensures script { game.new.script ≡ game.old.script }
    ensures place { result ≡ Ok true → game.new.place ≡ game.old.place + 1 }
    ensures written { result ≡ Ok true → Records Adds game.old client (K.written sink.old) (K.written sink.new) }
    ensures short { result ≡ Ok true → IsRecorded game.old client }
    ensures there { OnErr result (game.old.place < length game.old.script.body) }
    ensures front { OnErr result (Records AddsFront game.old client (K.written sink.old) (K.written sink.new)) }
    ensures cause { HandsOn (K.faults sink.old) (K.faults sink.new) (result ≡ Err RunFault.WriteFault) }
{
    match game.next(alloc) {
        Ok(true) => {}
        Ok(false) => return Ok(false),
        Err(_) => return Err(RunFault::NoMemory),
    }
    note(game, client, piece, sink)?;
    Ok(true)
}

/// Writes the head of a client's demo. `piece` is only a place for it.
fn write_head<K: Sink>(
    script: &Script,
    client: u8,
    piece: &mut Vec<u8>,
    sink: &mut K,
) -> Result<(), RunFault>
    requires ranges { HasRanges script.now }
    requires client { client < script.now.head.clients }
    ensures written { OnOk result (Adds (K.written sink.old) (K.written sink.new) (spell_head (demo_head script.now.head client))) }
    ensures front { OnErr result (AddsFront (K.written sink.old) (K.written sink.new) (spell_head (demo_head script.now.head client))) }
    ensures cause { HandsOn (K.faults sink.old) (K.faults sink.new) (result ≡ Err RunFault.WriteFault) }
{
    let head = DemoHead {
        client,
        version: script.head.version,
        life: script.head.life,
        size: script.head.size,
    };
    piece.clear();
    let Ok(()) = put_head(piece, &head) else {
        return Err(RunFault::NoMemory);
    };
    hand_on(piece.as_slice(), sink)
}

/// Writes the end of a demo. `piece` is only a place for it.
fn write_ending<K: Sink>(piece: &mut Vec<u8>, sink: &mut K) -> Result<(), RunFault>
    ensures written { OnOk result (Adds (K.written sink.old) (K.written sink.new) ending) }
    ensures front { OnErr result (AddsFront (K.written sink.old) (K.written sink.new) ending) }
    ensures cause { HandsOn (K.faults sink.old) (K.faults sink.new) (result ≡ Err RunFault.WriteFault) }
{
    piece.clear();
    let Ok(()) = put_ending(piece) else {
        return Err(RunFault::NoMemory);
    };
    hand_on(piece.as_slice(), sink)
}

/// Writes the records of a client's demo, line by line of its match. `piece` is only a place for them.
fn write_records<K: Sink>(
    alloc: Global,
    script: &Script,
    client: u8,
    piece: &mut Vec<u8>,
    sink: &mut K,
) -> Result<(), RunFault>
    requires ranges { HasRanges script.now }
    requires client { client < script.now.head.clients }
    ensures written { OnOk result (Adds (K.written sink.old) (K.written sink.new) (records_text script.now client)) }
    ensures short { OnOk result (AreRecorded script.now client) }
    ensures front { OnErr result (AddsFront (K.written sink.old) (K.written sink.new) (records_text script.now client)) }
    ensures cause { HandsOn (K.faults sink.old) (K.faults sink.new) (result ≡ Err RunFault.WriteFault) }
{
    let Ok(mut game) = Match::new(alloc, script) else {
        return Err(RunFault::NoMemory);
    };
    'lines: while step(alloc, &mut game, client, piece, sink)? {}
    Ok(())
}

/// Writes the demo of a client: nothing where the match has no such client. After an error a front of it was written. Each datagram in it
/// has 1 to 1,200 bytes, so that it is read back as it was written.
pub fn write_demo_of<K: Sink>(
    alloc: Global,
    script: &Script,
    client: u8,
    sink: &mut K,
) -> Result<(), RunFault>
    requires { HasRanges script.now }
    ensures demo { OnOk result (Adds (K.written sink.old) (K.written sink.new) (demo_text script.now client)) }
    ensures short { OnOk result (client < script.now.head.clients → AreRecorded script.now client) }
    ensures front { OnErr result (AddsFront (K.written sink.old) (K.written sink.new) (demo_text script.now client)) }
    ensures cause { HandsOn (K.faults sink.old) (K.faults sink.new) (result ≡ Err RunFault.WriteFault) }
{
    if client >= script.head.clients {
        return Ok(());
    }
    let mut piece = Vec::new(alloc);
    write_head(script, client, &mut piece, sink)?;
    write_records(alloc, script, client, &mut piece, sink)?;
    write_ending(&mut piece, sink)
}
