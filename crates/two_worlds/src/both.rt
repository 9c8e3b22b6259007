//! A client's server over a script, fed with the client's own list alone.
ghost use Rattle.std.specs.Prelude.{◌≡◌, ◌<◌, OnOk, OnErr, Ok, Err, true, false};
ghost use Rattle.tn_outside.specs.Causes.{HandsOn};
ghost use Rattle.tn_outside.specs.Totals.{Adds, AddsFront};
ghost use Rattle.match_script.specs.Ranges.{HasRanges};
ghost use Rattle.alone_server.specs.own_items.Source.{made, whole_own};
ghost use Rattle.two_worlds.specs.Fed.{IsFed, Moves, Breaks};
ghost use Rattle.two_worlds.specs.Laws.{WritesThePacks, SameListsSameLines};
ghost use Rattle.two_worlds.specs.Text.{alone_text};

use crate::alone::Alone;
use crate::laws::{same_lists_same_lines, writes_the_packs};
use alone_server::AloneHeader;
use alone_server::own_items::{OwnItem, OwnSource, OwnWrites};
use match_script::Script;
use std::alloc::Global;
use tn_outside::{RunFault, Sink};

/// Makes the next item and feeds it; false at the list's end. `item` is only a place for it.
fn feed_next<K: Sink>(
    alloc: Global,
    source: &mut OwnSource,
    server: &mut Alone,
    item: &mut OwnItem,
    sink: &mut K,
) -> Result<bool, RunFault>
    requires { IsFed source.old server.old }
    ensures end { result ≡ Ok false → (made source.old ≡ whole_own source.old.script source.old.client)
        × (K.written sink.new ≡ K.written sink.old) }
    ensures fed { result ≡ Ok true → Moves source.old source.new server.new (K.written sink.old) (K.written sink.new) }
    ensures front { OnErr result (Breaks source.old (K.written sink.old) (K.written sink.new)) }
    ensures cause { HandsOn (K.faults sink.old) (K.faults sink.new) (result ≡ Err RunFault.WriteFault) }
{
    match source.next(alloc, item) {
        Ok(true) => {}
        Ok(false) => return Ok(false),
        Err(_) => return Err(RunFault::NoMemory),
    }
    server.feed(alloc, item, sink)?;
    Ok(true)
}

/// Feeds the server with the whole own list, of which nothing was made yet.
fn feed_rest<K: Sink>(
    alloc: Global,
    source: &mut OwnSource,
    server: &mut Alone,
    sink: &mut K,
) -> Result<(), RunFault>
    requires fed { IsFed source.old server.old }
    requires first { source.old.place ≡ 0 }
    ensures lines { OnOk result (Adds (K.written sink.old) (K.written sink.new) (alone_text source.old.script source.old.client)) }
    ensures front { OnErr result (AddsFront (K.written sink.old) (K.written sink.new) (alone_text source.old.script source.old.client)) }
    ensures cause { HandsOn (K.faults sink.old) (K.faults sink.new) (result ≡ Err RunFault.WriteFault) }
{
    let mut item = OwnItem::Tick {
        writes: OwnWrites::from_vec(Vec::new(alloc)),
        taken: 0,
    };
    'items: while feed_next(alloc, source, server, &mut item, sink)? {}
    Ok(())
}

/// Writes what a server writes that is fed the whole own list of a client of the match.
#[tactic(auto, using(own_lists::proofs::Configs::config_fits))]
fn feed_all<K: Sink>(
    alloc: Global,
    script: &Script,
    client: u8,
    sink: &mut K,
) -> Result<(), RunFault>
    requires ranges { HasRanges script.now }
    requires client { client < script.now.head.clients }
    ensures lines { OnOk result (Adds (K.written sink.old) (K.written sink.new) (alone_text script.now client)) }
    ensures front { OnErr result (AddsFront (K.written sink.old) (K.written sink.new) (alone_text script.now client)) }
    ensures cause { HandsOn (K.faults sink.old) (K.faults sink.new) (result ≡ Err RunFault.WriteFault) }
{
    let Ok(blocks) = script.head.blocks.copy(alloc) else {
        return Err(RunFault::NoMemory);
    };
    let header = AloneHeader {
        client,
        life: script.head.life,
        size: script.head.size,
        version: script.head.version,
        blocks,
    };
    let Ok(mut server) = Alone::new(alloc, &header) else {
        return Err(RunFault::NoMemory);
    };
    let Ok(mut source) = OwnSource::new(alloc, script, client) else {
        return Err(RunFault::NoMemory);
    };
    feed_rest(alloc, &mut source, &mut server, sink)
}

/// Writes what a server writes that serves one client alone: the report's lines of this client's packs, though it is fed with
/// nothing but the client's own list (docs/proofs/match.md, "A server that serves one client alone"). Where the match has no such
/// client, nothing is written. `WriteFault` comes only where the sink failed, `NoMemory` where memory runs out; after either a
/// front of that text was written.
pub fn run_alone<K: Sink>(
    alloc: Global,
    script: &Script,
    client: u8,
    sink: &mut K,
) -> Result<(), RunFault>
    requires { HasRanges script.now }
    ensures lines { OnOk result (Adds (K.written sink.old) (K.written sink.new) (alone_text script.now client)) }
    ensures front { OnErr result (AddsFront (K.written sink.old) (K.written sink.new) (alone_text script.now client)) }
    ensures cause { HandsOn (K.faults sink.old) (K.faults sink.new) (result ≡ Err RunFault.WriteFault) }
    // These are the report's lines of the client's packs.
    ensures packs { WritesThePacks }
    // And the same in any match that tells the client the same.
    ensures same { SameListsSameLines }
{
    writes_the_packs();
    same_lists_same_lines();
    if client >= script.head.clients {
        return Ok(());
    }
    feed_all(alloc, script, client, sink)
}
