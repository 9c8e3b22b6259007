//! The server's side: each move is accepted once, in order, however often its packets come.
ghost use Rattle.std.specs.Prelude.{◌≡◌, [], ◌+◌, ◌≤◌, length, IfOk, OnOk, OnErr};
ghost use Rattle.tn_types.specs.Histories.{Does, Answers};

use crate::faults::MoveGap;
use std::marker::Model;
use tn_types::MAX_LIFE;
use wire_format::MoveList;

/// How many moves of a client the server accepted. No call takes memory.
#[derive(Drop)]
pub struct MoveReceiver {
    life: u32,
    accepted: u32,
}

impl Model for MoveReceiver {
    ghost use Rattle.std.specs.Prelude.{◌≤◌};
    ghost use Rattle.tn_types.specs.declared.limits.TheConstants.{MAX_LIFE};
    ghost use Rattle.move_manager.specs.Accepting.{Receiver};

    ghost Value = { Receiver };

    ghost view = { λ r. record { life = r.life; accepted = r.accepted } };

    ghost invariant = { λ r. (r.accepted ≤ r.life) × (r.life ≤ MAX_LIFE) };
}

impl MoveReceiver {
    ghost use Rattle.move_manager.specs.Accepting.{Took, accepted_of, take_answer, StandsFor};

    /// No move yet. `life` is 1 to 16,777,215.
    pub fn new(life: u32) -> MoveReceiver
        requires least { 1 ≤ life }
        requires most { life ≤ MAX_LIFE }
        ensures value { result ≡ record { life = life; accepted = 0 } }
        ensures log { StandsFor result [] }
    {
        MoveReceiver { life, accepted: 0 }
    }

    /// Takes the moves of a packet, of which `first` is the number of the first, where `room` further ones have a
    /// place. The answer is how many are newly accepted: those from the number of moves accepted before on.
    /// `MoveGap` comes exactly where `first` is above that number, and nothing changes then
    /// (docs/connection.md, "Moves").
    #[tactic(auto, using(crate::proofs::Logs::accepted_more))]
    pub fn take(&mut self, first: u32, list: &MoveList, room: u32) -> Result<u32, MoveGap>
        ensures answer { result ≡ take_answer self.old (record { first = first; moves = list.now }) room }
        ensures accepted { IfOk result (λ n. self.new ≡ record self.old { accepted = self.old.accepted + n }) }
        ensures refused { OnErr result (self.new ≡ self.old) }
        ensures log { OnOk result (Does StandsFor self.old (Took (record { first = first; moves = list.now }) room) self.new) }
    {
        if first > self.accepted {
            return Err(MoveGap {
                first,
                accepted: self.accepted,
            });
        }
        let behind = first + list.len() as u32;
        let new = behind
            .saturating_sub(self.accepted)
            .min(room)
            .min(self.life - self.accepted);
        self.accepted += new;
        Ok(new)
    }

    /// How many moves were accepted so far, which is the number of the next one.
    pub fn accepted(&self) -> u32
        ensures value { result ≡ self.now.accepted }
        ensures within { result ≤ self.now.life }
        ensures log { Answers StandsFor self.now (λ log. length (accepted_of self.now.life log)) result }
    {
        self.accepted
    }
}
