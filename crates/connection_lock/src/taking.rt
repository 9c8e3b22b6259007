//! Messages from the simulation.
ghost use Rattle.std.specs.Prelude.{◌≡◌, ◌<◌, ◌≤◌, ◌++◌, List, [], true, false, IsTrue, ◌↔◌, IfOk, OnOk, OnErr, length};
ghost use Rattle.rtrb.specs.Ring.{received, known_items};
ghost use Rattle.kept_pair.specs.pair_core.History.{Show, Hide, Near};
ghost use Rattle.kept_pair.specs.Kept.{MayStep, terms_in};
ghost use Rattle.race_messages.specs.declared.message.Message.{Message as OneMessage};
ghost use Rattle.connection_lock.specs.Taking.{Takes, TakesAll};
ghost use Rattle.connection_lock.specs.Rule.{progress_of, AreLocked};
ghost use Rattle.lane_periods.specs.Periods.{has_object};
ghost use Rattle.connection_lock.specs.Turns.{FaultAt, TakesLocked};

use crate::limits::MAX_TAKEN_MESSAGES;
use dirty_lanes::{LaneName, Lanes, PackSeat};
use kept_pair::pair_core::PairStep;
use kept_pair::{KeepFault, KeptPair};
use lane_periods::Periods;
use race_messages::Message;
use rtrb::Consumer;
use std::alloc::Global;
use tn_types::{Class, Payload};

/// What a show says of its period.
#[derive(Clone, Copy)]
struct Shown {
    object: u32,
    kind: u8,
    block: u8,
    level: u8,
    control: bool,
}

/// Whether a show is taken: a period may begin so, and its object is one of the lanes that no period has which is shown and not
/// hidden.
fn may_take_show(pair: &KeptPair, periods: &Periods, objects: u32, show: Shown) -> bool
    ensures { IsTrue result ↔ (MayStep pair.now (Show show.kind show.block show.level show.control) × (show.object < objects)
        × (has_object periods.now.objects periods.now.up show.object ≡ false)) }
{
    show.object < objects
        && !periods.has_object(show.object)
        && pair.may_show(show.kind, show.block, show.level, show.control)
}

/// Takes a show.
fn take_show<N: LaneName>(
    pair: &mut KeptPair,
    seat: &mut PackSeat<N>,
    lanes: &Lanes<N>,
    periods: &mut Periods,
    show: Shown,
)
    requires locked { AreLocked N.objects pair.old seat.old periods.old }
    requires prepared { pair.old.prepared ≡ true }
    requires room { periods.old.has_room ≡ true }
    ensures { TakesLocked N.objects pair.old seat.old periods.old
        (OneMessage.Show show.object show.kind show.block show.level show.control) pair.new seat.new periods.new }
{
    // for its clauses
    let _steps = pair.steps();
    periods.are_periods();
    let objects = lanes.objects();
    let may = may_take_show(pair, periods, objects, show);
    if may {
        let _discarded = seat.drain(lanes, show.object);
        let _answer = pair.step(PairStep::Show {
            kind: show.kind,
            block: show.block,
            level: show.level,
            control: show.control,
        });
        periods.show(show.object, show.kind);
    }
}

/// Takes a hide.
fn take_hide<N: LaneName>(pair: &mut KeptPair, seat: &PackSeat<N>, periods: &mut Periods, n: u32)
    requires locked { AreLocked N.objects pair.old seat.now periods.old }
    requires prepared { pair.old.prepared ≡ true }
    ensures { TakesLocked N.objects pair.old seat.now periods.old (OneMessage.Hide n) pair.new seat.now periods.new }
{
    // for its clauses
    let _client = seat.client();
    let may = pair.may_hide(n);
    if may {
        let _answer = pair.step(PairStep::Hide { n });
        periods.hide(n);
    }
}

/// Takes a change of level.
fn take_near<N: LaneName>(
    pair: &mut KeptPair,
    seat: &PackSeat<N>,
    periods: &Periods,
    n: u32,
    level: u8,
)
    requires locked { AreLocked N.objects pair.old seat.now periods.now }
    requires prepared { pair.old.prepared ≡ true }
    ensures { TakesLocked N.objects pair.old seat.now periods.now (OneMessage.Near n level) pair.new seat.now periods.now }
{
    // for its clauses
    let _client = seat.client();
    let _up = periods.up();
    let may = pair.may_come_near(n, level);
    if may {
        let _answer = pair.step(PairStep::Near { n, level });
    }
}

/// Takes a post.
fn take_post<N: LaneName>(
    pair: &mut KeptPair,
    seat: &PackSeat<N>,
    periods: &Periods,
    class: Class,
    payload: Payload,
)
    requires locked { AreLocked N.objects pair.old seat.now periods.now }
    requires prepared { pair.old.prepared ≡ true }
    ensures { TakesLocked N.objects pair.old seat.now periods.now (OneMessage.Post class payload) pair.new seat.now periods.now }
{
    // for its clauses
    let _client = seat.client();
    let _up = periods.up();
    let _answer = pair.step(PairStep::Post { class, payload });
}

/// Makes the step of a message, if it may be made.
fn take<N: LaneName>(
    pair: &mut KeptPair,
    seat: &mut PackSeat<N>,
    lanes: &Lanes<N>,
    periods: &mut Periods,
    message: Message,
)
    requires locked { AreLocked N.objects pair.old seat.old periods.old }
    requires prepared { pair.old.prepared ≡ true }
    requires room { periods.old.has_room ≡ true }
    ensures { TakesLocked N.objects pair.old seat.old periods.old message pair.new seat.new periods.new }
{
    match message {
        Message::Show {
            object,
            kind,
            block,
            level,
            control,
        } => {
            let show = Shown {
                object,
                kind,
                block,
                level,
                control,
            };
            take_show(pair, seat, lanes, periods, show)
        }
        Message::Hide { n } => take_hide(pair, seat, periods, n),
        Message::Near { n, level } => take_near(pair, seat, periods, n, level),
        Message::Post { class, payload } => take_post(pair, seat, periods, class, payload),
    }
}

/// Makes room for the step of one message, whatever it is.
fn prepare(alloc: Global, pair: &mut KeptPair, periods: &mut Periods) -> Result<(), KeepFault>
    ensures prepared { OnOk result ((pair.new.prepared ≡ true) × (periods.new.has_room ≡ true)) }
    ensures steps { pair.new.steps ≡ pair.old.steps }
    ensures conn { pair.new.pair.conn ≡ pair.old.pair.conn }
    ensures client { pair.new.pair.client ≡ pair.old.pair.client }
    ensures same { periods.new ≡ record periods.old { has_room = periods.new.has_room } }
    ensures fault { FaultAt (length pair.old.steps) result }
{
    pair.prepare(alloc)?;
    if periods.prepare().is_err() {
        return Err(KeepFault::NoMemory);
    }
    Ok(())
}

/// Takes messages until the ring shows none, or as many as may be taken. Whether it shows none.
pub(crate) fn take_messages<N: LaneName>(
    alloc: Global,
    pair: &mut KeptPair,
    seat: &mut PackSeat<N>,
    lanes: &Lanes<N>,
    periods: &mut Periods,
    inbox: &mut Consumer<Message>,
) -> Result<(), KeepFault>
    requires locked { AreLocked N.objects pair.old seat.old periods.old }
    ensures taken { (ms : List OneMessage) × (received inbox.new ≡ received inbox.old ++ ms) × (length ms ≤ MAX_TAKEN_MESSAGES)
        × TakesAll (terms_in pair.old) N.objects (progress_of pair.old seat.old periods.old.objects) ms
        (progress_of pair.new seat.new periods.new.objects)
        × OnOk result (length ms < MAX_TAKEN_MESSAGES → known_items inbox.new ≡ []) }
    ensures locked { AreLocked N.objects pair.new seat.new periods.new }
    ensures terms { terms_in pair.new ≡ terms_in pair.old }
    ensures client { seat.new.client ≡ seat.old.client }
    ensures fault { FaultAt (length pair.new.steps) result }
{
    for _ in 0..MAX_TAKEN_MESSAGES {
        prepare(alloc, pair, periods)?;
        match inbox.pop() {
            Ok(message) => take(pair, seat, lanes, periods, message),
            Err(_) => return Ok(()),
        }
    }
    Ok(())
}

/// Takes one message. Where it is refused, there is room for what there was before, and no step was made.
pub(crate) fn take_one<N: LaneName>(
    alloc: Global,
    pair: &mut KeptPair,
    seat: &mut PackSeat<N>,
    lanes: &Lanes<N>,
    periods: &mut Periods,
    message: Message,
) -> Result<(), KeepFault>
    requires locked { AreLocked N.objects pair.old seat.old periods.old }
    ensures taken { OnOk result (Takes (terms_in pair.old) N.objects (progress_of pair.old seat.old periods.old.objects) message
        (progress_of pair.new seat.new periods.new.objects)) }
    ensures left { OnErr result (progress_of pair.new seat.new periods.new.objects
        ≡ progress_of pair.old seat.old periods.old.objects) }
    ensures locked { AreLocked N.objects pair.new seat.new periods.new }
    ensures terms { terms_in pair.new ≡ terms_in pair.old }
    ensures client { seat.new.client ≡ seat.old.client }
    ensures fault { FaultAt (length pair.old.steps) result }
{
    prepare(alloc, pair, periods)?;
    take(pair, seat, lanes, periods, message);
    Ok(())
}
