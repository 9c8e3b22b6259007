//! The first step of a turn: datagrams are received until the turn is due.
ghost use Rattle.std.specs.Prelude.{◌≡◌, ◌+◌, ◌<◌, ◌≤◌, ◌↔◌, List, ℕ, suc, length, true, IfOk, IfErr, OnOk};
ghost use Rattle.tn_outside.specs.Links.{found};
ghost use Rattle.net_rules.specs.declared.limits.TheConstants.{MAX_RECEIVES, MAX_RECEIVED_BYTES};
ghost use Rattle.net_rules.specs.Faults.{counts, HandsOnEach};
ghost use Rattle.net_rules.specs.Runs.{Begun};
ghost use Rattle.net_rules.specs.Turns.{Event, IsDue, IsTurn, with_found, heard};
ghost use Rattle.net_rules.specs.Places.{IsPlace, IsDueAt};
ghost use Rattle.net_join.specs.Playing.{Joins};
ghost use Rattle.net_join.specs.Stages.{HeardMore};

use crate::joiner::Joiner;
use net_rules::{MAX_RECEIVES, NetFault, Rest};
use std::alloc::Global;
use tn_outside::{Clock, Link};

/// Makes one call of `receive`, and hears what comes; true if the turn is due, which is asked if nothing comes.
fn receive<L: Link, C: Clock>(
    alloc: Global,
    joiner: &mut Joiner,
    buf: &mut [u8],
    start: u64,
    due: u64,
    rest: &mut Rest,
    link: &mut L,
    clock: &mut C,
) -> Result<bool, NetFault>
    requires buffer { length buf.old ≡ MAX_RECEIVED_BYTES }
    ensures done { OnOk result ((o : Begun) (k : ℕ) (past : List Event) → IsPlace o.ahead o.clock (L.ahead link.old) (C.ahead clock.old) k
        → Joins joiner.old past
        → IsPlace o.ahead o.clock (L.ahead link.new) (C.ahead clock.new) (suc k) × Joins joiner.new (with_found (found o.ahead k) past)) }
    ensures due { IfOk result (λ over. (o : Begun) (k t : ℕ) → IsPlace o.ahead o.clock (L.ahead link.old) (C.ahead clock.old) k
        → IsDueAt o.clock start due t → (over ≡ true) ↔ IsDue o.ahead o.clock t k) }
    ensures more { OnOk result (HeardMore joiner.old joiner.new) }
    ensures nonce { joiner.new.nonce ≡ joiner.old.nonce }
    ensures unsent { L.sent link.new ≡ L.sent link.old }
    ensures cause { HandsOnEach (counts (L.faults link.old) (C.faults clock.old) 0)
        (counts (L.faults link.new) (C.faults clock.new) 0) result }
{
    match link.receive(buf, rest.milliseconds) {
        Ok(Some((peer, count))) => {
            rest.datagram();
            let (bytes, _) = buf.split_at(count);
            match joiner.hear(alloc, peer, bytes) {
                Ok(()) => Ok(false),
                Err(_) => Err(NetFault::NoMemory),
            }
        }
        Ok(None) => match clock.now() {
            Ok(now) => {
                let elapsed = now.saturating_sub(start);
                rest.silence(due.saturating_sub(elapsed));
                Ok(elapsed >= due)
            }
            Err(_) => Err(NetFault::ClockFault),
        },
        Err(_) => Err(NetFault::LinkFault),
    }
}

/// Receives until the turn is due, or as often as a turn may. Nothing is sent.
pub(crate) fn listen<L: Link, C: Clock>(
    alloc: Global,
    joiner: &mut Joiner,
    buf: &mut [u8],
    start: u64,
    due: u64,
    link: &mut L,
    clock: &mut C,
) -> Result<(), NetFault>
    requires buffer { length buf.old ≡ MAX_RECEIVED_BYTES }
    ensures done { OnOk result ((o : Begun) (behind t : ℕ) (past : List Event)
        → IsPlace o.ahead o.clock (L.ahead link.old) (C.ahead clock.old) behind
        → IsDueAt o.clock start due t → Joins joiner.old past
        → (n : ℕ) × IsTurn o.ahead o.clock t behind n × IsPlace o.ahead o.clock (L.ahead link.new) (C.ahead clock.new) (behind + n)
        × Joins joiner.new (heard o.ahead behind n past)) }
    ensures more { OnOk result (HeardMore joiner.old joiner.new) }
    ensures nonce { joiner.new.nonce ≡ joiner.old.nonce }
    ensures unsent { L.sent link.new ≡ L.sent link.old }
    ensures cause { HandsOnEach (counts (L.faults link.old) (C.faults clock.old) 0)
        (counts (L.faults link.new) (C.faults clock.new) 0) result }
{
    let mut rest = Rest::new();
    'calls: for _call in 0..MAX_RECEIVES {
        if receive(alloc, joiner, buf, start, due, &mut rest, link, clock)? {
            return Ok(());
        }
    }
    Ok(())
}
