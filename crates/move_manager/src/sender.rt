//! The client's side: moves wait until the server tells that it has them.
ghost use Rattle.std.specs.Prelude.{◌≡◌, [], ◌∷◌, ◌++◌, ◌+◌, ◌≤◌, length, OnOk, OnErr};
ghost use Rattle.std.specs.List.{AllByRecursion};
ghost use Rattle.tn_types.specs.Histories.{Does, Answers};
ghost use Rattle.wire_format.specs.Moves.{IsMove};
ghost use Rattle.bit_stream.specs.WorldMoves.{bits_of};

use crate::faults::{MoveAhead, MoveFault};
use bit_stream::bits_of_move;
use std::marker::Model;
use tn_types::{MAX_LIFE, MAX_PACKET_MOVES, MAX_UNACKNOWLEDGED_MOVES, Move, MoveBits};
use wire_format::{MoveList, Wire, is_move, move_width};

/// The moves of a client that the server may lack. Each packet carries all of them, so a lost packet costs nothing.
/// No call takes memory.
#[derive(Drop)]
pub struct MoveSender {
    wire: Wire,
    life: u32,
    first: u32,
    waiting: MoveList,
}

impl Model for MoveSender {
    ghost use Rattle.std.specs.Prelude.{◌≤◌, ◌+◌, length};
    ghost use Rattle.std.specs.List.{AllByRecursion};
    ghost use Rattle.wire_format.specs.Moves.{IsMove};
    ghost use Rattle.tn_types.specs.declared.limits.TheConstants.{MAX_LIFE};
    ghost use Rattle.move_manager.specs.Sending.{Sender};

    ghost Value = { Sender };

    ghost view = { λ s. record { wire = s.wire; life = s.life; first = s.first; waiting = s.waiting } };

    ghost invariant = { λ s. record {
      within : s.first + length s.waiting ≤ s.life;
      life : s.life ≤ MAX_LIFE;
      fits : AllByRecursion (IsMove s.wire) s.waiting;
    } };
}

impl MoveSender {
    ghost use Rattle.move_manager.specs.Sending.{Sampled, Acked, sampled_of, pending_of, sample_answer, acked_answer, after_acked, StandsFor};

    /// No move yet, on a connection whose datagrams are of this wire. `life` is 1 to 16,777,215.
    pub fn new(wire: Wire, life: u32) -> MoveSender
        requires least { 1 ≤ life }
        requires most { life ≤ MAX_LIFE }
        ensures value { result ≡ record { wire = wire; life = life; first = 0; waiting = [] } }
        ensures log { StandsFor result [] }
    {
        MoveSender {
            wire,
            life,
            first: 0,
            waiting: MoveList::new(),
        }
    }

    /// Takes a move of the player and gives its number. `TooWide` comes exactly where a bit is set that is not written, else `Worn`
    /// exactly where `life` moves were sampled, else `Full` exactly where 32 wait; nothing changes then (docs/connection.md, "Moves").
    #[tactic(auto, using(crate::proofs::Logs::sampled_more, crate::proofs::Logs::count_sampled, crate::proofs::Logs::fits_more))]
    pub fn sample_bits(&mut self, m: MoveBits) -> Result<u32, MoveFault>
        ensures answer { result ≡ sample_answer m self.old }
        ensures sampled { OnOk result (self.new ≡ record self.old { waiting = self.old.waiting ++ m ∷ [] }) }
        ensures refused { OnErr result (self.new ≡ self.old) }
        ensures log { OnOk result (Does StandsFor self.old (Sampled m) self.new) }
    {
        if !is_move(self.wire, m) {
            return Err(MoveFault::TooWide {
                width: move_width(self.wire),
            });
        }
        let number = self.first + self.waiting.len() as u32;
        if number == self.life {
            return Err(MoveFault::Worn { life: self.life });
        }
        if self.waiting.len() == MAX_UNACKNOWLEDGED_MOVES {
            return Err(MoveFault::Full {
                first: self.first,
                last: number - 1,
            });
        }
        self.waiting.push(m);
        Ok(number)
    }

    /// The same for a move of this project's own world, which is a number of ten bits.
    pub fn sample(&mut self, m: Move) -> Result<u32, MoveFault>
        ensures answer { result ≡ sample_answer (bits_of m) self.old }
        ensures sampled { OnOk result (self.new ≡ record self.old { waiting = self.old.waiting ++ bits_of m ∷ [] }) }
        ensures refused { OnErr result (self.new ≡ self.old) }
        ensures log { OnOk result (Does StandsFor self.old (Sampled (bits_of m)) self.new) }
    {
        self.sample_bits(bits_of_move(&m))
    }

    /// The server told that it has the first `count` moves. A lower count than before changes nothing;
    /// `MoveAhead` comes exactly where the count is above the moves sampled, and nothing changes then.
    #[tactic(auto, using(crate::proofs::Logs::acked_more, crate::proofs::Logs::count_sampled, crate::proofs::Logs::fits_less))]
    pub fn acked(&mut self, count: u32) -> Result<(), MoveAhead>
        ensures answer { result ≡ acked_answer count self.old }
        ensures acked { OnOk result (self.new ≡ after_acked count self.old) }
        ensures refused { OnErr result (self.new ≡ self.old) }
        ensures log { OnOk result (Does StandsFor self.old (Acked count) self.new) }
    {
        let sampled = self.first + self.waiting.len() as u32;
        if count > sampled {
            return Err(MoveAhead { count, sampled });
        }
        if count > self.first {
            let (_, rest) = self
                .waiting
                .as_slice()
                .split_at((count - self.first) as usize);
            self.waiting = listed(rest);
            self.first = count;
        }
        Ok(())
    }

    /// The number of the first move that the server may lack, and all moves from it on, lent: what a packet carries.
    pub fn pending(&self) -> (u32, &MoveList)
        ensures first { result.0 ≡ self.now.first }
        ensures moves { result.1.now ≡ self.now.waiting }
        ensures within { result.0 ≤ self.now.life }
        ensures fits { AllByRecursion (IsMove self.now.wire) result.1.now }
        ensures log { Answers StandsFor self.now pending_of (result.0, result.1.now) }
    {
        (self.first, &self.waiting)
    }

    /// How many moves were sampled so far.
    #[tactic(auto, using(crate::proofs::Logs::count_sampled))]
    pub fn sampled(&self) -> u32
        ensures value { result ≡ self.now.first + length self.now.waiting }
        ensures within { result ≤ self.now.life }
        ensures log { Answers StandsFor self.now (λ log. length (sampled_of log)) result }
    {
        self.first + self.waiting.len() as u32
    }
}

// These moves as a list.
fn listed(moves: &[MoveBits]) -> MoveList
    requires { length moves.now ≤ MAX_PACKET_MOVES }
    ensures { result ≡ moves.now }
{
    let mut list = MoveList::new();
    for m in moves {
        list.push(*m);
    }
    list
}
