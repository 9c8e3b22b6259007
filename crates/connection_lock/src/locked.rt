//! What lies under the lock.
ghost use Rattle.std.specs.Prelude.{◌≡◌, ◌+◌, ◌<◌, ◌++◌, ◌∷◌, [], length, IfOk, OnOk, OnErr};
ghost use Rattle.rtrb.specs.Ring.{received, sent};

use crate::line::make;
use crate::net_line::NetLine;
use crate::packing::{make_room, pack};
use crate::taking::{take_messages, take_one};
use dirty_lanes::{LaneName, Lanes, PackSeat};
use kept_pair::pair_core::Answer;
use kept_pair::{KeepFault, KeptPair};
use lane_periods::{Objects, Periods};
use match_script::MAX_BODY_LINES;
use race_messages::Message;
use rtrb::{Consumer, Producer};
use std::alloc::Global;
use std::marker::Model;
use std::snapshot::Snapshot;
use std::sync::ledger::Ledger;
use tn_types::{Drain, MoveBits, NoMemory, Steps};

/// The lines of the client that were done at a connection, as an activity lists them, the oldest first. A line in it takes no bytes, and
/// `Locked::net_turn` alone adds one.
#[derive(Drop)]
pub struct DoneLines {
    lines: Vec<Snapshot<NetLine>>,
}

impl Model for DoneLines {
    ghost use Rattle.std.specs.Prelude.{List, map, vec_capacity, ◌≤◌};
    ghost use Rattle.match_script.specs.declared.limits.TheConstants.{MAX_BODY_LINES};
    ghost use Rattle.connection_lock.specs.declared.net_line.NetLine.{NetLine};

    ghost Value = { List NetLine };

    ghost view = { λ d. map (λ s. s.value) d.lines.items };

    ghost invariant = { λ d. MAX_BODY_LINES ≤ vec_capacity d.lines };
}

impl DoneLines {
    /// No line.
    pub fn new(alloc: Global) -> Result<DoneLines, NoMemory>
        ensures { IfOk result (λ d. d ≡ []) }
    {
        match Vec::with_capacity(alloc, MAX_BODY_LINES as usize) {
            Ok(lines) => Ok(DoneLines { lines }),
            Err(_) => Err(NoMemory),
        }
    }

    // The line was done.
    fn add(&mut self, line: &NetLine)
        requires { length self.old < MAX_BODY_LINES }
        ensures { self.new ≡ self.old ++ line.now ∷ [] }
    {
        let Ok(()) = self.lines.push(Snapshot::of(line)) else {
            unreachable!()
        };
    }
}

/// One connection that keeps its steps, with the seat through which it reads the lanes, and the ends of the rings from and to the
/// simulation.
///
/// A clause sees `LockedState`. The lock rule holds of it whenever no call is at work.
#[derive(Drop)]
pub struct Locked<N: LaneName> {
    pair: KeptPair,
    seat: PackSeat<N>,
    inbox: Consumer<Message>,
    outbox: Producer<MoveBits>,
    periods: Periods,
    // what the last pack drained
    drains: Vec<Drain>,
}

impl<N: LaneName> Model for Locked<N> {
    ghost use Rattle.rtrb.specs.Ring.{received, sent, known_items, known_free};
    ghost use Rattle.connection_lock.specs.Rule.{LockedState, AreLocked};

    ghost Value = { LockedState };

    ghost view = { λ l. record {
      kept = l.pair;
      seat = l.seat;
      objects = l.periods.objects;
      received = received l.inbox;
      known = known_items l.inbox;
      sent = sent l.outbox;
      free = known_free l.outbox;
    } };

    ghost invariant = { λ l. AreLocked N.objects l.pair l.seat l.periods };
}

/// What is left of a connection when it has ended: with the object of each of its periods.
#[derive(Drop)]
pub struct Ended<N: LaneName> {
    pub pair: KeptPair,
    pub seat: PackSeat<N>,
    pub inbox: Consumer<Message>,
    pub outbox: Producer<MoveBits>,
    pub objects: Objects,
}

impl<N: LaneName> Locked<N> {
    ghost use Rattle.rtrb.specs.Ring.{known_items, known_free};
    ghost use Rattle.connection_lock.specs.Rule.{LockHolds};
    ghost use Rattle.connection_lock.specs.Turns.{PackTurn, NetTurn, RestTurn, MessageTurn};

    /// A connection with no kept step, at its start. For want of memory all that was handed in is dropped.
    pub fn new(
        alloc: Global,
        pair: KeptPair,
        seat: PackSeat<N>,
        inbox: Consumer<Message>,
        outbox: Producer<MoveBits>,
    ) -> Result<Locked<N>, NoMemory>
        requires no_steps { pair.steps ≡ [] }
        requires no_seat_steps { seat.steps ≡ [] }
        requires none_received { received inbox ≡ [] }
        requires none_sent { sent outbox ≡ [] }
        ensures pair { IfOk result (λ l. l.kept ≡ pair) }
        ensures seat { IfOk result (λ l. l.seat ≡ seat) }
        ensures objects { IfOk result (λ l. l.objects ≡ []) }
        ensures received { IfOk result (λ l. l.received ≡ []) }
        ensures sent { IfOk result (λ l. l.sent ≡ []) }
        ensures holds { IfOk result LockHolds }
    {
        // for its clauses
        let _steps = pair.steps();
        let periods = Periods::new(alloc, pair.pair().conn().kinds());
        let locked = Locked {
            pair,
            seat,
            inbox,
            outbox,
            periods,
            drains: Vec::new(alloc),
        };
        // for its clauses
        let _holds = locked.pair();
        Ok(locked)
    }

    /// The pair with its steps. The lock rule holds: the pair is what these make of a new one, each read in them stands in the
    /// seat's view of the lanes, and each owed field of a period that is shown and not hidden is due.
    pub fn pair(&self) -> &KeptPair
        ensures value { result.now ≡ self.now.kept }
        ensures holds { LockHolds self.now }
    {
        // for its clauses
        let _steps = self.pair.steps();
        self.periods.are_periods();
        &self.pair
    }

    /// Takes messages from the simulation, and packs. A message that doesn't meet the condition of its step is passed over. Where
    /// the pack is refused, no message and no bit is lost, and the messages that were taken stay taken. `packs` counts the calls, and
    /// no other call counts there.
    pub fn pack<L: Ledger>(
        &mut self,
        alloc: Global,
        lanes: &Lanes<N>,
        packs: &mut Steps<L>,
    ) -> Result<Answer, KeepFault>
        ensures turn { PackTurn N.objects self.old self.new result }
        ensures counted { packs.new ≡ packs.old + 1 }
        ensures holds { LockHolds self.new }
    {
        packs.tick();
        let result = self.take_and_pack(alloc, lanes);
        // for its clauses
        let _holds = self.pair();
        result
    }

    /// Makes one line of the client, and adds it to those that were done. Accepted moves go into the ring to the simulation, whose free
    /// places are the room; events that a delivery hands out are dropped. After a refusal nothing has changed, and the line is dropped.
    pub fn net_turn(
        &mut self,
        alloc: Global,
        line: NetLine,
        done: &mut DoneLines,
    ) -> Result<Answer, KeepFault>
        requires room { length done.old < MAX_BODY_LINES }
        ensures turn { NetTurn self.old line self.new result }
        ensures done { OnOk result (done.new ≡ done.old ++ line ∷ []) }
        ensures refused { OnErr result (done.new ≡ done.old) }
        ensures holds { LockHolds self.new }
    {
        let result = self.make_line(alloc, line, done);
        // for its clauses
        let _holds = self.pair();
        result
    }

    /// Takes what the ring still has, as a pack does before it is made, when the activities have ended. Where a message finds no
    /// room, it stays in the ring, and so does what is behind it.
    pub fn take_rest(&mut self, alloc: Global, lanes: &Lanes<N>) -> Result<(), KeepFault>
        ensures turn { RestTurn N.objects self.old self.new result }
        ensures holds { LockHolds self.new }
    {
        let result = self.empty_ring(alloc, lanes);
        // for its clauses
        let _holds = self.pair();
        result
    }

    /// Takes one message more, for which the ring had no place. Where it finds no room it is dropped, and no step was made.
    pub fn take_one(
        &mut self,
        alloc: Global,
        lanes: &Lanes<N>,
        message: Message,
    ) -> Result<(), KeepFault>
        ensures turn { MessageTurn N.objects self.old message self.new result }
        ensures holds { LockHolds self.new }
    {
        let result = self.make_step(alloc, lanes, message);
        // for its clauses
        let _holds = self.pair();
        result
    }

    // What the ring still has.
    fn empty_ring(&mut self, alloc: Global, lanes: &Lanes<N>) -> Result<(), KeepFault>
        ensures { RestTurn N.objects self.old self.new result }
    {
        take_messages(
            alloc,
            &mut self.pair,
            &mut self.seat,
            lanes,
            &mut self.periods,
            &mut self.inbox,
        )
    }

    // What one message does.
    fn make_step(
        &mut self,
        alloc: Global,
        lanes: &Lanes<N>,
        message: Message,
    ) -> Result<(), KeepFault>
        ensures { MessageTurn N.objects self.old message self.new result }
    {
        take_one(
            alloc,
            &mut self.pair,
            &mut self.seat,
            lanes,
            &mut self.periods,
            message,
        )
    }

    // What a pack does.
    fn take_and_pack(&mut self, alloc: Global, lanes: &Lanes<N>) -> Result<Answer, KeepFault>
        ensures { PackTurn N.objects self.old self.new result }
    {
        match take_messages(
            alloc,
            &mut self.pair,
            &mut self.seat,
            lanes,
            &mut self.periods,
            &mut self.inbox,
        ) {
            Err(fault) => Err(fault),
            Ok(()) => match make_room(alloc, &mut self.pair, &self.periods, &mut self.drains) {
                Err(fault) => Err(fault),
                Ok(()) => Ok(pack(
                    &mut self.pair,
                    &mut self.seat,
                    lanes,
                    &self.periods,
                    &mut self.drains,
                )),
            },
        }
    }

    // What a line does.
    fn make_line(
        &mut self,
        alloc: Global,
        line: NetLine,
        done: &mut DoneLines,
    ) -> Result<Answer, KeepFault>
        requires room { length done.old < MAX_BODY_LINES }
        ensures turn { NetTurn self.old line self.new result }
        ensures done { OnOk result (done.new ≡ done.old ++ line ∷ []) }
        ensures refused { OnErr result (done.new ≡ done.old) }
    {
        match self.pair.prepare(alloc) {
            Err(fault) => Err(fault),
            Ok(()) => {
                done.add(&line);
                Ok(make(&mut self.pair, &mut self.outbox, line))
            }
        }
    }

    /// Ends it.
    pub fn finish(self) -> Ended<N>
        ensures pair { result.pair ≡ self.kept }
        ensures seat { result.seat ≡ self.seat }
        ensures objects { result.objects ≡ self.objects }
        ensures received { received result.inbox ≡ self.received }
        ensures sent { sent result.outbox ≡ self.sent }
        ensures holds { LockHolds self }
    {
        // for its clauses
        let _holds = self.pair();
        let Locked {
            pair,
            seat,
            inbox,
            outbox,
            periods,
            drains: _,
        } = self;
        Ended {
            pair,
            seat,
            inbox,
            outbox,
            objects: periods.into_objects(),
        }
    }
}
