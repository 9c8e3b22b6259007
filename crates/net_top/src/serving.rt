//! The commands over a link.
ghost use Rattle.std.specs.Prelude.{◌≡◌, ◌≤◌, []};
ghost use Rattle.tn_types.specs.declared.limits.TheConstants.{MAX_CLIENTS};
ghost use Rattle.net_top.specs.Outcome.{told, met, serving, joining, NetServes, NetLaws, status_of};

use crate::laws::laws_of_links;
use net_join::join;
use net_rules::NetFault;
use net_serve::{Nobody, Offer, serve};
use script_input::Status;
use std::alloc::Global;
use tn_outside::{Clock, Link, Sink};

/// The same fault, as an answer.
fn status_of(fault: NetFault) -> Status
    ensures { result ≡ status_of fault }
{
    match fault {
        NetFault::NoMemory => Status::NoMemory,
        NetFault::LinkFault => Status::LinkFault,
        NetFault::ClockFault => Status::ClockFault,
        NetFault::WriteFault => Status::WriteFault,
    }
}

/// Serves `serve SEED CLIENTS TURNS`: serves a match that is made of the seed to those who say hello, and writes its script. What the sink
/// gathers is handed on after the last line.
pub fn top_serve<L: Link, C: Clock, K: Sink>(
    alloc: Global,
    offer: Offer,
    link: &mut L,
    clock: &mut C,
    sink: &mut K,
) -> Status
    requires clients_least { 1 ≤ offer.clients }
    requires clients { offer.clients ≤ MAX_CLIENTS }
    // What each answer says of the link, of the clock and of the sink, what holds after every answer, and which answer it is.
    ensures serves { NetServes (serving offer.seed offer.clients offer.turns)
        (met (told (L.ahead link.old) (L.ahead link.new) (L.faults link.old) (L.faults link.new))
        (told (C.ahead clock.old) (C.ahead clock.new) (C.faults clock.old) (C.faults clock.new))
        (told (K.written sink.old) (K.written sink.new) (K.faults sink.old) (K.faults sink.new))
        (L.sent link.old) (L.sent link.new)) result }
    // Where all was done, the sink keeps nothing of the text back.
    ensures handed { result ≡ Status.Done → K.gathered sink.new ≡ [] }
    ensures laws { NetLaws }
{
    laws_of_links();
    match serve(alloc, offer, link, clock, sink, &mut Nobody) {
        Ok(()) => match sink.flush() {
            Ok(()) => Status::Done,
            Err(_) => Status::WriteFault,
        },
        Err(fault) => status_of(fault),
    }
}

/// Serves `join TURNS`: joins a match, and writes at its end what who joined was shown. What the sink gathers is handed on after the last
/// line.
pub fn top_join<L: Link, C: Clock, K: Sink>(
    alloc: Global,
    turns: u32,
    link: &mut L,
    clock: &mut C,
    sink: &mut K,
) -> Status
    ensures serves { NetServes (joining turns)
        (met (told (L.ahead link.old) (L.ahead link.new) (L.faults link.old) (L.faults link.new))
        (told (C.ahead clock.old) (C.ahead clock.new) (C.faults clock.old) (C.faults clock.new))
        (told (K.written sink.old) (K.written sink.new) (K.faults sink.old) (K.faults sink.new))
        (L.sent link.old) (L.sent link.new)) result }
    ensures handed { result ≡ Status.Done → K.gathered sink.new ≡ [] }
    ensures laws { NetLaws }
{
    laws_of_links();
    match join(alloc, turns, link, clock, sink) {
        Ok(()) => match sink.flush() {
            Ok(()) => Status::Done,
            Err(_) => Status::WriteFault,
        },
        Err(fault) => status_of(fault),
    }
}
