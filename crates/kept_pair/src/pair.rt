//! A pair, and the steps that were made on it.
ghost use Rattle.std.specs.Prelude.{◌≡◌, true, ◌≤◌, ◌<◌, List, [], ◌∷◌, ◌++◌, OnOk, OnErr, length, take, slice_get};
ghost use Rattle.tn_types.specs.declared.choices.Read.{Read};

use crate::fault::KeepFault;
use crate::given::{add_moves, brought, learn_payload};
use crate::limits::MAX_KEPT_STEPS;
use crate::step_list::StepList;
use pair_core::conn_packing::{MAX_PACKET_VALUES, Noting};
use pair_core::{Answer, Pair, PairStep};
use std::alloc::Global;
use std::marker::Model;
use tn_types::{
    Class, Drain, MAX_PACKET_MOVES, MAX_SHOWN_PERIODS, MoveBits, NoMemory, Payload, Read, Values,
};

/// A pair that keeps the steps that are made on it.
///
/// A clause sees the pair, the steps, whether there is room for one more, and for how many drains of it. The pair is what these
/// steps make of a new one.
pub struct KeptPair {
    pair: Pair,
    steps: StepList,
    // the moves that the server accepted, and how many there were before each step
    moves: Vec<MoveBits>,
    befores: Vec<u32>,
    // what the last pack read
    noted: Vec<Read>,
    // how many drains the next pack may have
    drains: usize,
}

// Written out, so that a function above that lets a pair go calls this, and doesn't prove again how its parts are let go.
impl Drop for KeptPair {
    fn drop(self) {
        let KeptPair {
            pair: _pair,
            steps: _steps,
            moves: _moves,
            befores: _befores,
            noted: _noted,
            drains: _drains,
        } = self;
    }
}

impl Model for KeptPair {
    ghost use Rattle.std.specs.Prelude.{◌+◌, ◌≤◌, nat_le, nat_lt, ◌&&◌, vec_len, vec_capacity};
    ghost use Rattle.tn_types.specs.declared.limits.TheConstants.{MAX_PACKET_MOVES};
    ghost use Rattle.pair_core.specs.conn_packing.declared.asking.TheConstants.{MAX_PACKET_VALUES};
    ghost use Rattle.kept_pair.specs.Kept.{KeptState, AreKept};

    ghost Value = { KeptState };

    ghost view = { λ k. record {
      pair = k.pair;
      steps = k.steps.list;
      prepared = k.pair.prepared && (k.steps.has_room && (nat_lt (vec_len k.befores) (vec_capacity k.befores)
          && (nat_le (vec_len k.moves + MAX_PACKET_MOVES) (vec_capacity k.moves) && nat_le MAX_PACKET_VALUES (vec_capacity k.noted))));
      drains = k.drains;
    } };

    ghost invariant = { λ k. AreKept k.pair k.steps.list k.moves.items k.befores.items × (k.drains ≤ k.steps.drain_room) };
}

impl KeptPair {
    ghost use Rattle.pair_core.specs.stream_manager.EndCalls.{popped};
    ghost use Rattle.pair_core.specs.History.{Pack};
    ghost use Rattle.pair_core.specs.Calls.{step_of, Hands, Accepts, Keeps, KeepsAtServer, Unchanged};
    ghost use Rattle.kept_pair.specs.Kept.{KeptState, IsFresh, Replays, MayStep, IsReady, MayPack, HasCause, Prepares, terms_in, answer_after, accepted_by};

    /// A pair that keeps its steps from now on. None was made before.
    pub fn new(alloc: Global, pair: Pair) -> KeptPair
        requires fresh { IsFresh pair }
        ensures pair { result.pair ≡ pair }
        ensures none { result.steps ≡ [] }
        ensures no_drains { result.drains ≡ 0 }
    {
        KeptPair {
            pair,
            steps: StepList::new(alloc),
            moves: Vec::new(alloc),
            befores: Vec::new(alloc),
            noted: Vec::new(alloc),
            drains: 0,
        }
    }

    /// Makes room for one more step, whatever it sends, reads and accepts, with a drain for each period that can be shown. There
    /// is none exactly where `MAX_KEPT_STEPS` are kept. After a fault nothing has changed.
    pub fn prepare(&mut self, alloc: Global) -> Result<(), KeepFault>
        ensures cause { HasCause (length self.old.steps) result }
        ensures prepared { OnOk result (Prepares MAX_SHOWN_PERIODS self.old self.new) }
        ensures unchanged { OnErr result (self.new ≡ self.old) }
    {
        self.prepare_for(alloc, MAX_SHOWN_PERIODS)
    }

    /// The same for a step with so many drains. No list of drains that may be absorbed is too long, since a period may be named
    /// again and again; so whoever gives more than there are periods says how many.
    pub fn prepare_for(&mut self, alloc: Global, drains: usize) -> Result<(), KeepFault>
        ensures cause { HasCause (length self.old.steps) result }
        ensures prepared { OnOk result (Prepares drains self.old self.new) }
        ensures unchanged { OnErr result (self.new ≡ self.old) }
    {
        let kept = self.steps.len();
        if kept == MAX_KEPT_STEPS {
            return Err(KeepFault::NoRoom { kept });
        }
        if self.reserve(alloc, drains).is_err() {
            return Err(KeepFault::NoMemory);
        }
        Ok(())
    }

    /// Makes that room.
    fn reserve(&mut self, alloc: Global, drains: usize) -> Result<(), NoMemory>
        requires few { length self.old.steps < MAX_KEPT_STEPS }
        ensures prepared { OnOk result (Prepares drains self.old self.new) }
        ensures unchanged { OnErr result (self.new ≡ self.old) }
    {
        self.steps.prepare(drains)?;
        if self.befores.reserve(1).is_err() {
            return Err(NoMemory);
        }
        if self.moves.reserve(MAX_PACKET_MOVES).is_err() {
            return Err(NoMemory);
        }
        self.noted.clear();
        if self.noted.reserve(MAX_PACKET_VALUES).is_err() {
            return Err(NoMemory);
        }
        if !self.pair.is_prepared() {
            self.pair.prepare(alloc)?;
        }
        self.drains = drains;
        Ok(())
    }

    /// Whether there is room for one more step.
    pub fn is_prepared(&self) -> bool
        ensures { result ≡ self.now.prepared }
    {
        self.pair.is_prepared()
            && self.steps.has_room()
            && self.befores.len() < self.befores.capacity()
            && self.moves.capacity() - self.moves.len() >= MAX_PACKET_MOVES
            && self.noted.capacity() >= MAX_PACKET_VALUES
    }

    /// Makes one step, keeps it and gives its answer; a step that is refused is kept like any other. It takes no memory, since
    /// the caller gives the step away. It has the condition of the call of an end that the step names.
    pub fn step(&mut self, step: PairStep) -> Answer
        requires prepared { self.old.prepared ≡ true }
        requires may { MayStep self.old (step_of step) }
        requires ready { IsReady self.old.pair step }
        ensures answer { result ≡ answer_after self.old (step_of step) }
        ensures kept { self.new.steps ≡ self.old.steps ++ step_of step ∷ [] }
        ensures handed { Hands self.old.pair (step_of step) self.new.pair }
        ensures moves { Accepts self.old.pair (step_of step) result self.new.pair }
        ensures keeps { Keeps self.old.pair (step_of step) self.new.pair }
        ensures unchanged { Unchanged self.old.pair result self.new.pair }
        ensures terms { terms_in self.new ≡ terms_in self.old }
    {
        learn_payload(&step);
        self.befores.push_reserved(self.moves.len() as u32);
        let answer = self.pair.step(&step);
        add_moves(&mut self.moves, brought(&step, &answer, self.pair.conn()));
        self.steps.push(step, &[], &[]);
        answer
    }

    /// The server makes its next datagram, as `Pair::pack` does. The step is kept with these drains, for which there is room, and
    /// with what was read.
    pub fn pack<V: Values>(&mut self, drains: &[Drain], values: &mut V) -> Answer
        requires prepared { self.old.prepared ≡ true }
        requires room { length drains.now ≤ self.old.drains }
        requires may { MayPack self.old drains.now (V.ranges values.old) }
        ensures answer { result ≡ answer_after self.old (Pack drains.now []) }
        ensures told { (reads : List Read) × (self.new.steps ≡ self.old.steps ++ Pack drains.now reads ∷ [])
            × V.asks values.old reads values.new }
        ensures keeps { KeepsAtServer self.old.pair self.new.pair }
        ensures terms { terms_in self.new ≡ terms_in self.old }
    {
        self.befores.push_reserved(self.moves.len() as u32);
        self.noted.clear();
        let mut noting = Noting {
            values,
            noted: &mut self.noted,
        };
        let answer = self.pair.pack(drains, &mut noting);
        self.steps
            .push(PairStep::Pack, drains, self.noted.as_slice());
        self.drains -= drains.len();
        answer
    }

    /// The pair.
    pub fn pair(&self) -> &Pair
        ensures { result.now ≡ self.now.pair }
    {
        &self.pair
    }

    /// The kept steps. The pair is what they make of a new one, and each might be made after those before it.
    pub fn steps(&self) -> &StepList
        ensures steps { result.now.list ≡ self.now.steps }
        ensures replays { Replays self.now.pair self.now.steps }
    {
        &self.steps
    }

    /// The moves that the server accepted in these steps, in order.
    pub fn accepted_moves(&self) -> &[MoveBits]
        ensures { result.now ≡ accepted_by self.now self.now.steps }
    {
        self.moves.as_slice()
    }

    /// How many of them were accepted before the step of place `i`, or in all steps where there is none.
    pub fn accepted_before(&self, i: u32) -> u32
        requires { i ≤ length self.now.steps }
        ensures { result ≡ length (accepted_by self.now (take i self.now.steps)) }
    {
        let i = i as usize;
        if i == self.befores.len() {
            return self.moves.len() as u32;
        }
        self.befores[i]
    }

    /// Hands out the oldest event that waits at the client; `None` exactly where none does.
    pub fn pop_client_event(&mut self) -> Option<(Class, Payload)>
        ensures first { result ≡ slice_get self.old.pair.client.common.receiver.ready 0 }
        ensures rest { self.new ≡ record self.old {
          pair = record self.old.pair {
            client = record self.old.pair.client { common = popped self.old.pair.client.common };
          };
        } }
    {
        self.pair.pop_client_event()
    }

    /// Hands out the oldest event that waits at the server; `None` exactly where none does.
    pub fn pop_server_event(&mut self) -> Option<(Class, Payload)>
        ensures first { result ≡ slice_get self.old.pair.conn.common.receiver.ready 0 }
        ensures rest { self.new ≡ record self.old {
          pair = record self.old.pair {
            conn = record self.old.pair.conn { common = popped self.old.pair.conn.common };
          };
        } }
    {
        self.pair.pop_server_event()
    }
}
