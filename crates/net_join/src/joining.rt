//! The whole of joining.
ghost use Rattle.std.specs.Prelude.{◌≡◌, ◌+◌, ◌*◌, ◌<◌, ◌≤◌, ◌∷◌, List, [], ℕ, suc, length, IfErr, OnOk, OnErr};
ghost use Rattle.tn_outside.specs.Links.{answer_at};
ghost use Rattle.tn_outside.specs.Causes.{Rose};
ghost use Rattle.tn_outside.specs.Totals.{Adds, AddsFront};
ghost use Rattle.net_rules.specs.declared.limits.TheConstants.{MAX_RECEIVED_BYTES};
ghost use Rattle.net_rules.specs.Faults.{counts, HandsOnEach, IsDoneOrFull};
ghost use Rattle.net_rules.specs.Runs.{Begun, Begins};
ghost use Rattle.net_rules.specs.Turns.{Event, turned, total, AreTurns, events, TurnsAreOne};
ghost use Rattle.net_rules.specs.Places.{IsPlace};
ghost use Rattle.net_join.specs.Joining.{ending};
ghost use Rattle.net_join.specs.Playing.{Joins};
ghost use Rattle.net_join.specs.Points.{point, Turns};
ghost use Rattle.net_join.specs.Stages.{IsAt, Went, Sent, SentFront, Joined, JoinedFront, JoinedSome};

use crate::joiner::Joiner;
use crate::listening::listen;
use net_rules::{MAX_RECEIVED_BYTES, NetFault, TURN_MILLISECONDS, turns_are_one};
use std::alloc::Global;
use tn_outside::{Clock, Link, Sink, write_all};

/// One turn: its listening, and then a hello or the client's own turn.
fn turn<L: Link, C: Clock>(
    alloc: Global,
    joiner: &mut Joiner,
    buf: &mut [u8],
    start: u64,
    t: u32,
    link: &mut L,
    clock: &mut C,
) -> Result<(), NetFault>
    requires buffer { length buf.old ≡ MAX_RECEIVED_BYTES }
    ensures done { OnOk result (Turns start t
        (point joiner.old (L.ahead link.old) (C.ahead clock.old) (L.sent link.old))
        (point joiner.new (L.ahead link.new) (C.ahead clock.new) (L.sent link.new))) }
    ensures went { OnOk result (Went joiner.old (L.sent link.old) joiner.new (L.sent link.new)) }
    ensures unsent { OnErr result (L.sent link.new ≡ L.sent link.old) }
    ensures nonce { joiner.new.nonce ≡ joiner.old.nonce }
    ensures cause { HandsOnEach (counts (L.faults link.old) (C.faults clock.old) 0)
        (counts (L.faults link.new) (C.faults clock.new) 0) result }
{
    let due = TURN_MILLISECONDS * u64::from(t);
    listen(alloc, joiner, buf, start, due, link, clock)?;
    joiner.end_turn(link)
}

/// All turns.
fn join_turns<L: Link, C: Clock>(
    alloc: Global,
    joiner: &mut Joiner,
    start: u64,
    turns: u32,
    link: &mut L,
    clock: &mut C,
) -> Result<(), NetFault>
    requires begins { Joins joiner.old [] }
    ensures done { OnOk result ((o : Begun) → start ≡ answer_at o.clock 0 → IsPlace o.ahead o.clock (L.ahead link.old) (C.ahead clock.old) 0
        → L.sent link.old ≡ o.sent → Sent o turns joiner.new (L.sent link.new)) }
    ensures front { OnErr result ((o : Begun) → start ≡ answer_at o.clock 0
        → IsPlace o.ahead o.clock (L.ahead link.old) (C.ahead clock.old) 0
        → L.sent link.old ≡ o.sent → SentFront o turns joiner.old.nonce (L.sent link.new)) }
    ensures went { OnOk result ((past : List Event) × (turned past ≡ turns) × IsAt (L.sent link.old) joiner.new (L.sent link.new) past) }
    ensures nonce { joiner.new.nonce ≡ joiner.old.nonce }
    ensures cause { HandsOnEach (counts (L.faults link.old) (C.faults clock.old) 0)
        (counts (L.faults link.new) (C.faults clock.new) 0) result }
{
    let mut buf = [0u8; MAX_RECEIVED_BYTES];
    'turns: for t in 0..turns {
        turn(alloc, joiner, &mut buf, start, t, link, clock)?;
    }
    Ok(())
}

/// Writes the ending.
fn write_ending<K: Sink>(alloc: Global, joiner: &Joiner, sink: &mut K) -> Result<(), NetFault>
    ensures written { OnOk result ((past : List Event) → Joins joiner.now past
        → Adds (K.written sink.old) (K.written sink.new) (ending joiner.now.nonce past)) }
    ensures front { OnErr result ((past : List Event) → Joins joiner.now past
        → AddsFront (K.written sink.old) (K.written sink.new) (ending joiner.now.nonce past)) }
    ensures cause { HandsOnEach (counts 0 0 (K.faults sink.old)) (counts 0 0 (K.faults sink.new)) result }
{
    let Ok(text) = joiner.ending(alloc) else {
        return Err(NetFault::NoMemory);
    };
    match write_all(sink, text.as_slice()) {
        Ok(()) => Ok(()),
        Err(_) => Err(NetFault::WriteFault),
    }
}

/// Joins a match in so many turns: says hello until a welcome comes, and from then on takes what comes, samples a move and sends the
/// client's datagram each turn. At the end the copies are written, or that there was no welcome.
pub fn join<L: Link, C: Clock, K: Sink>(
    alloc: Global,
    turns: u32,
    link: &mut L,
    clock: &mut C,
    sink: &mut K,
) -> Result<(), NetFault>
    // Where the link and the clock tell what they have ahead, the datagrams sent and the text written are those that the rules ask
    // for over the two lists; after a fault a front of each.
    ensures done { OnOk result ((o : Begun) → Begins o (L.ahead link.old) (C.ahead clock.old) (K.written sink.old) (L.sent link.old)
        → Joined turns o (K.written sink.new) (L.sent link.new)) }
    ensures front { OnErr result ((o : Begun) → Begins o (L.ahead link.old) (C.ahead clock.old) (K.written sink.old) (L.sent link.old)
        → JoinedFront turns o (K.written sink.new) (L.sent link.new)) }
    // There is one run of so many turns.
    ensures one_run { TurnsAreOne }
    // Whatever the link and the clock tell, this is so for some datagrams that were heard in so many turns.
    ensures heard { OnOk result (JoinedSome turns (K.written sink.old) (K.written sink.new) (L.sent link.old) (L.sent link.new)) }
    // A fault of link, clock or sink is answered exactly where that count of faults rose in this call; so under `Ok` and `NoMemory` none
    // rose.
    ensures cause { HandsOnEach (counts (L.faults link.old) (C.faults clock.old) (K.faults sink.old))
        (counts (L.faults link.new) (C.faults clock.new) (K.faults sink.new)) result }
    // No fault of link, clock and sink: all was done, or no memory for it.
    ensures complete { (Rose (L.faults link.old) (L.faults link.new) → ⊥) → (Rose (C.faults clock.old) (C.faults clock.new) → ⊥)
        → (Rose (K.faults sink.old) (K.faults sink.new) → ⊥) → IsDoneOrFull result }
{
    turns_are_one();
    let Ok(start) = clock.now() else {
        return Err(NetFault::ClockFault);
    };
    let mut joiner = Joiner::new((start % 4_294_967_296) as u32);
    join_turns(alloc, &mut joiner, start, turns, link, clock)?;
    write_ending(alloc, &joiner, sink)
}
