//! The whole of serving.
ghost use Rattle.std.specs.Prelude.{◌≡◌, ◌⊎◌, ◌+◌, ◌*◌, ◌<◌, ◌≤◌, ◌∷◌, List, [], ℕ, suc, length, Some, Ok, Err, IfOk, IfErr, OnOk, OnErr};
ghost use Rattle.tn_outside.specs.Links.{answer_at};
ghost use Rattle.tn_outside.specs.Causes.{Rose};
ghost use Rattle.tn_outside.specs.Totals.{Adds, AddsFront};
ghost use Rattle.match_script.specs.Ranges.{HasRanges, HeadFits};
ghost use Rattle.script_maker.specs.Made.{made};
ghost use Rattle.net_rules.specs.Turns.{Event, TurnsAreOne};
ghost use Rattle.net_rules.specs.Places.{IsPlace};
ghost use Rattle.net_rules.specs.Faults.{counts, HandsOnEach, IsDoneOrFull};
ghost use Rattle.net_serve.specs.Laws.{PacksAreSent, RawsAreArrivals, TicksAreTurns, IsReadAgain};
ghost use Rattle.net_serve.specs.Lines.{text_so_far};
ghost use Rattle.net_rules.specs.Runs.{Begun, Begins};
ghost use Rattle.net_serve.specs.Points.{point, Turns, TurnsFront};
ghost use Rattle.net_serve.specs.Stages.{Serves, IsAt, Went, Served, ServedFront, ServedSome};

use crate::laws::{is_read_again, packs_are_sent, raws_are_arrivals, ticks_are_turns};
use crate::listening::{Deadline, listen};
use crate::server::Server;
use crate::watch::Watch;
use match_script::{Body, Head, Script, print_head};
use net_rules::{NetFault, TURN_MILLISECONDS, turns_are_one};
use script_maker::make;
use std::alloc::Global;
use tn_outside::{Clock, Link, Sink, write_all};
use tn_types::{MAX_CLIENTS, NoMemory};

/// The script of a number with no line.
fn header(alloc: Global, seed: u32, clients: u8) -> Result<Script, NoMemory>
    requires clients_least { 1 ≤ clients }
    requires clients { clients ≤ MAX_CLIENTS }
    ensures script { IfOk result (λ s. s ≡ record { head = (made seed clients 0).head; body = [] }) }
    ensures ranges { IfOk result HasRanges }
{
    let Script { head, body: _ } = make(alloc, seed, clients, 0)?;
    Ok(Script {
        head,
        body: Body::from_vec(Vec::new(alloc)),
    })
}

/// Writes the header's lines.
fn write_header<K: Sink>(alloc: Global, head: &Head, sink: &mut K) -> Result<(), NetFault>
    ensures written { OnOk result (Adds (K.written sink.old) (K.written sink.new) (text_so_far head.now [])) }
    ensures front { OnErr result (AddsFront (K.written sink.old) (K.written sink.new) (text_so_far head.now [])) }
    ensures cause { HandsOnEach (counts 0 0 (K.faults sink.old)) (counts 0 0 (K.faults sink.new)) result }
{
    let Ok(text) = print_head(alloc, head) else {
        return Err(NetFault::NoMemory);
    };
    match write_all(sink, text.as_slice()) {
        Ok(()) => Ok(()),
        Err(_) => Err(NetFault::WriteFault),
    }
}

/// A moment of a run, between two turns.
#[derive(Clone, Copy, Debug, PartialEq, Eq)]
struct Moment {
    /// The clock's answer at the start.
    start: u64,
    /// How many turns come before it.
    t: u32,
}

/// One turn: its listening, and then a tick and a datagram for each client.
fn turn<L: Link, C: Clock, K: Sink, W: Watch>(
    alloc: Global,
    server: &mut Server,
    at: Moment,
    link: &mut L,
    clock: &mut C,
    sink: &mut K,
    watch: &mut W,
) -> Result<(), NetFault>
    requires stands { (past : List Event) × Serves server.old past }
    ensures stands { OnOk result ((past : List Event) × Serves server.new past) }
    ensures done { OnOk result (Turns at.start at.t
        (point server.old (L.ahead link.old) (C.ahead clock.old) (K.written sink.old) (L.sent link.old))
        (point server.new (L.ahead link.new) (C.ahead clock.new) (K.written sink.new) (L.sent link.new))) }
    ensures front { OnErr result (TurnsFront at.start at.t
        (point server.old (L.ahead link.old) (C.ahead clock.old) (K.written sink.old) (L.sent link.old))
        (point server.new (L.ahead link.new) (C.ahead clock.new) (K.written sink.new) (L.sent link.new))) }
    ensures went { OnOk result ((o : Begun) (n : ℕ) → Went o server.old (K.written sink.old) (L.sent link.old) n
        → Went o server.new (K.written sink.new) (L.sent link.new) (suc n)) }
    ensures script { server.new.script ≡ server.old.script }
    ensures cause { HandsOnEach (counts (L.faults link.old) (C.faults clock.old) (K.faults sink.old))
        (counts (L.faults link.new) (C.faults clock.new) (K.faults sink.new)) result }
{
    let due = TURN_MILLISECONDS * u64::from(at.t);
    let until = Deadline {
        start: at.start,
        due,
    };
    listen(alloc, server, until, link, clock, sink, watch)?;
    server.end_turn(alloc, link, sink)
}

/// All turns before this moment.
fn serve_turns<L: Link, C: Clock, K: Sink, W: Watch>(
    alloc: Global,
    server: &mut Server,
    end: Moment,
    link: &mut L,
    clock: &mut C,
    sink: &mut K,
    watch: &mut W,
) -> Result<(), NetFault>
    requires stands { (past : List Event) × Serves server.old past }
    ensures done { OnOk result ((o : Begun) → end.start ≡ answer_at o.clock 0
        → IsPlace o.ahead o.clock (L.ahead link.old) (C.ahead clock.old) 0
        → IsAt o server.old (K.written sink.old) (L.sent link.old) []
        → Served server.old.script.head end.t o (K.written sink.new) (L.sent link.new)) }
    ensures front { OnErr result ((o : Begun) → end.start ≡ answer_at o.clock 0
        → IsPlace o.ahead o.clock (L.ahead link.old) (C.ahead clock.old) 0
        → IsAt o server.old (K.written sink.old) (L.sent link.old) []
        → ServedFront server.old.script.head end.t o (K.written sink.new) (L.sent link.new)) }
    ensures went { OnOk result ((o : Begun) → IsAt o server.old (K.written sink.old) (L.sent link.old) []
        → Went o server.new (K.written sink.new) (L.sent link.new) end.t) }
    ensures script { OnOk result (server.new.script ≡ server.old.script) }
    ensures cause { HandsOnEach (counts (L.faults link.old) (C.faults clock.old) (K.faults sink.old))
        (counts (L.faults link.new) (C.faults clock.new) (K.faults sink.new)) result }
{
    'turns: for t in 0..end.t {
        let at = Moment {
            start: end.start,
            t,
        };
        turn(alloc, server, at, link, clock, sink, watch)?;
    }
    Ok(())
}

/// The match of a number, to be served to so many clients in so many turns.
#[derive(Clone, Copy, Debug, PartialEq, Eq)]
pub struct Offer {
    /// The number of which the match is made.
    pub seed: u32,
    /// How many clients it has: 1 to 16.
    pub clients: u8,
    /// How many turns it takes.
    pub turns: u32,
}

/// Serves a match.
fn serve_match<L: Link, C: Clock, K: Sink, W: Watch>(
    alloc: Global,
    offer: Offer,
    link: &mut L,
    clock: &mut C,
    sink: &mut K,
    watch: &mut W,
) -> Result<(), NetFault>
    requires clients_least { 1 ≤ offer.clients }
    requires clients { offer.clients ≤ MAX_CLIENTS }
    ensures done { OnOk result ((o : Begun) → Begins o (L.ahead link.old) (C.ahead clock.old) (K.written sink.old) (L.sent link.old)
        → Served (made offer.seed offer.clients 0).head offer.turns o (K.written sink.new) (L.sent link.new)) }
    ensures front { OnErr result ((o : Begun) → Begins o (L.ahead link.old) (C.ahead clock.old) (K.written sink.old) (L.sent link.old)
        → ServedFront (made offer.seed offer.clients 0).head offer.turns o (K.written sink.new) (L.sent link.new)) }
    ensures heard { OnOk result (ServedSome (made offer.seed offer.clients 0).head offer.turns (K.written sink.old) (K.written sink.new)
        (L.sent link.old) (L.sent link.new)) }
    ensures cause { HandsOnEach (counts (L.faults link.old) (C.faults clock.old) (K.faults sink.old))
        (counts (L.faults link.new) (C.faults clock.new) (K.faults sink.new)) result }
{
    let Ok(script) = header(alloc, offer.seed, offer.clients) else {
        return Err(NetFault::NoMemory);
    };
    let Ok(mut server) = Server::new(alloc, &script) else {
        return Err(NetFault::NoMemory);
    };
    let Ok(start) = clock.now() else {
        return Err(NetFault::ClockFault);
    };
    write_header(alloc, &script.head, sink)?;
    let end = Moment {
        start,
        t: offer.turns,
    };
    serve_turns(alloc, &mut server, end, link, clock, sink, watch)
}

/// Serves a match: what comes over the link is done, the script of it is written line by line, and each client that joined gets its
/// datagrams. Who looks on is told of each arrival.
pub fn serve<L: Link, C: Clock, K: Sink, W: Watch>(
    alloc: Global,
    offer: Offer,
    link: &mut L,
    clock: &mut C,
    sink: &mut K,
    watch: &mut W,
) -> Result<(), NetFault>
    requires clients_least { 1 ≤ offer.clients }
    requires clients { offer.clients ≤ MAX_CLIENTS }
    // Where the link and the clock tell what they have ahead, the script written and the datagrams sent are those that the rules
    // ask for over the two lists; after a fault a front of each.
    ensures done { OnOk result ((o : Begun) → Begins o (L.ahead link.old) (C.ahead clock.old) (K.written sink.old) (L.sent link.old)
        → Served (made offer.seed offer.clients 0).head offer.turns o (K.written sink.new) (L.sent link.new)) }
    ensures front { OnErr result ((o : Begun) → Begins o (L.ahead link.old) (C.ahead clock.old) (K.written sink.old) (L.sent link.old)
        → ServedFront (made offer.seed offer.clients 0).head offer.turns o (K.written sink.new) (L.sent link.new)) }
    // There is one run of so many turns.
    ensures one_run { TurnsAreOne }
    // Whatever the link and the clock tell, the text is the script of some datagrams that were heard in so many turns.
    ensures heard { OnOk result (ServedSome (made offer.seed offer.clients 0).head offer.turns (K.written sink.old) (K.written sink.new)
        (L.sent link.old) (L.sent link.new)) }
    // A fault of link, clock or sink is answered exactly where that count of faults rose in this call; so under `Ok` and `NoMemory` none
    // rose.
    ensures cause { HandsOnEach (counts (L.faults link.old) (C.faults clock.old) (K.faults sink.old))
        (counts (L.faults link.new) (C.faults clock.new) (K.faults sink.new)) result }
    // No fault of link, clock and sink: all was served, or no memory for it.
    ensures complete { (Rose (L.faults link.old) (L.faults link.new) → ⊥) → (Rose (C.faults clock.old) (C.faults clock.new) → ⊥)
        → (Rose (K.faults sink.old) (K.faults sink.new) → ⊥) → IsDoneOrFull result }
    // The datagrams that were sent to a client, welcomes aside, are those of its `pack` lines in the report of the script; its
    // `raw` lines are its arrivals; and there are as many ticks as turns.
    ensures packs_are_sent { PacksAreSent }
    ensures raws_are_arrivals { RawsAreArrivals }
    ensures ticks_are_turns { TicksAreTurns }
    // The text is read as the script, where this is not too long to be one.
    ensures is_read_again { IsReadAgain }
{
    turns_are_one();
    packs_are_sent();
    raws_are_arrivals();
    ticks_are_turns();
    is_read_again();
    serve_match(alloc, offer, link, clock, sink, watch)
}
