//! The lock.
ghost use Rattle.std.specs.Prelude.{◌≡◌, ◌+◌, ◌<◌, ◌++◌, ◌∷◌, [], length, IfOk, OnOk, OnErr};
ghost use Rattle.rtrb.specs.Ring.{received, sent};
ghost use Rattle.connection_lock.specs.Rule.{LockHolds};

use crate::locked::{DoneLines, Locked};
use crate::net_line::NetLine;
use dirty_lanes::{LaneName, Lanes, PackSeat};
use kept_pair::pair_core::Answer;
use kept_pair::{KeepFault, KeptPair};
use match_script::MAX_BODY_LINES;
use race_messages::Message;
use rtrb::{Consumer, Producer};
use std::alloc::Global;
use std::marker::Model;
use std::sync::ledger::Ledger;
use std::sync::{Mutex, Wait};
use tn_types::{MoveBits, NoMemory, Steps};

/// A lock round one connection. One thread packs it, and another feeds it. Contracts see whose it is: the client of the seat that lies
/// under the lock.
#[derive(Drop)]
pub struct SharedPair<N: LaneName> {
    client: u8,
    locked: Mutex<Locked<N>>,
}

impl<N: LaneName> Model for SharedPair<N> {
    ghost use Rattle.std.specs.Prelude.{ℕ};

    ghost Value = { ℕ };

    ghost view = { λ s. s.client };
}

impl<N: LaneName> SharedPair<N> {
    /// A connection with no kept step, at its start. For want of memory all that was handed in is dropped.
    pub fn new(
        alloc: Global,
        pair: KeptPair,
        seat: PackSeat<N>,
        inbox: Consumer<Message>,
        outbox: Producer<MoveBits>,
    ) -> Result<SharedPair<N>, NoMemory>
        requires no_steps { pair.steps ≡ [] }
        requires no_seat_steps { seat.steps ≡ [] }
        requires none_received { received inbox ≡ [] }
        requires none_sent { sent outbox ≡ [] }
        ensures { IfOk result (λ s. s ≡ seat.client) }
    {
        let client = seat.client();
        Ok(SharedPair {
            client,
            locked: Mutex::new(Locked::new(alloc, pair, seat, inbox, outbox)?),
        })
    }

    /// Whose it is.
    pub fn client(&self) -> u8
        ensures { result ≡ self.now }
    {
        self.client
    }

    /// Waits for the lock, and makes the call of the same name, which is the one that `packs` counts.
    pub fn pack<R: Wait, L: Ledger>(
        &self,
        rt: &R,
        alloc: Global,
        lanes: &Lanes<N>,
        packs: &mut Steps<L>,
    ) -> Result<Answer, KeepFault>
        ensures counted { packs.new ≡ packs.old + 1 }
    {
        self.locked.lock(rt).pack(alloc, lanes, packs)
    }

    /// Waits for the lock, and makes the call of the same name, which adds the line to those that were done.
    pub fn net_turn<R: Wait>(
        &self,
        rt: &R,
        alloc: Global,
        line: NetLine,
        done: &mut DoneLines,
    ) -> Result<Answer, KeepFault>
        requires room { length done.old < MAX_BODY_LINES }
        ensures done { OnOk result (done.new ≡ done.old ++ line ∷ []) }
        ensures refused { OnErr result (done.new ≡ done.old) }
    {
        self.locked.lock(rt).net_turn(alloc, line, done)
    }

    /// What lay under the lock, once no thread has it any more. The lock rule held when the lock was last free, so it holds.
    pub fn open(self) -> Locked<N>
        ensures { LockHolds result }
    {
        let SharedPair { client: _, locked } = self;
        let locked = locked.into_inner();
        // for its clauses
        let _holds = locked.pair();
        locked
    }
}
