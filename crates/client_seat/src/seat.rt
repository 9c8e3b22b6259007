//! A client's connection in a match, with its accepted moves.
ghost use Rattle.std.specs.Prelude.{◌≡◌, true, false, ◌<◌, ◌≤◌, ◌-◌, ◌^◌, [], List, IfOk, length, slice_get};
ghost use Rattle.notify_window.specs.declared.SendState.{SendState as State};
ghost use Rattle.stream_manager.specs.Limits.{IsConfig};
ghost use Rattle.stream_manager.specs.Server.{server_state};
ghost use Rattle.own_lists.specs.pair_core.History.{history};

use circular_buffer::HeapCircularBuffer;
use notify_window::SendState;
use own_lists::pair_core::Pair;
use quantised_fields::KindTable;
use std::alloc::Global;
use std::marker::Model;
use stream_manager::Config;
use tn_types::{BlockBytes, MAX_BLOCKS, MAX_WAITING_MOVES, MoveBits, NoMemory, RawBytes};

/// A client's connection, and its accepted moves that wait for a tick, at most 32. No event waits between two calls.
pub struct Seat {
    pub(crate) pair: Pair,
    // the oldest first
    pub(crate) waiting: HeapCircularBuffer<MoveBits>,
    // accepted moves that ticks took
    pub(crate) taken: u32,
    // the bytes of a datagram that was told and is told no more: the next one is told in their room
    pub(crate) spare: Option<RawBytes>,
}

// Written out, so that a function above that lets a seat go calls this, and doesn't prove again how each of its parts is let go.
impl Drop for Seat {
    fn drop(self) {
        let Seat {
            pair: _pair,
            waiting: _waiting,
            taken: _taken,
            spare: _spare,
        } = self;
    }
}

impl Model for Seat {
    ghost use Rattle.std.specs.Prelude.{◌≡◌};
    ghost use Rattle.tn_types.specs.declared.limits.TheConstants.{MAX_WAITING_MOVES};
    ghost use Rattle.client_seat.specs.Stands.{SeatState};

    ghost Value = { SeatState };

    ghost view = { λ s. record { pair = s.pair; waiting = s.waiting.items; taken = s.taken } };

    ghost invariant = { λ s. s.waiting.capacity ≡ MAX_WAITING_MOVES };
}

// Places for the moves that wait.
fn places(alloc: Global) -> Result<HeapCircularBuffer<MoveBits>, NoMemory>
    ensures none { IfOk result (λ b. b.items ≡ []) }
    ensures places { IfOk result (λ b. b.capacity ≡ MAX_WAITING_MOVES) }
{
    match HeapCircularBuffer::with_capacity(alloc, MAX_WAITING_MOVES) {
        Ok(waiting) => Ok(waiting),
        Err(_) => Err(NoMemory),
    }
}

impl Seat {
    ghost use Rattle.own_lists.specs.Course.{beginning};
    ghost use Rattle.client_seat.specs.Stands.{StandsFor, Answers, without_first};

    /// A connection of which nothing happened, in a match of these kinds and blocks, at most 64. It keeps each datagram that its server
    /// sends, for `down`.
    pub fn new(
        alloc: Global,
        config: Config,
        kinds: &KindTable,
        blocks: &[BlockBytes],
    ) -> Result<Seat, NoMemory>
        requires config { IsConfig config }
        requires few { length blocks.now ≤ MAX_BLOCKS }
        ensures stands { IfOk result (λ s. StandsFor s (record { config = config; kinds = kinds.now; blocks = blocks.now }) beginning) }
        ensures keeps_all { IfOk result (λ s. s.pair.keeps_all ≡ true) }
    {
        let pair = Pair::new(alloc, config, kinds, blocks)?;
        let waiting = places(alloc)?;
        Ok(Seat {
            pair,
            waiting,
            taken: 0,
            spare: None,
        })
    }

    /// The same, but it hands each datagram of its server on, and keeps the newest alone.
    pub fn passing(
        alloc: Global,
        config: Config,
        kinds: &KindTable,
        blocks: &[BlockBytes],
    ) -> Result<Seat, NoMemory>
        requires config { IsConfig config }
        requires few { length blocks.now ≤ MAX_BLOCKS }
        ensures stands { IfOk result (λ s. StandsFor s (record { config = config; kinds = kinds.now; blocks = blocks.now }) beginning) }
        ensures passes { IfOk result (λ s. s.pair.keeps_all ≡ false) }
    {
        let pair = Pair::passing(alloc, config, kinds, blocks)?;
        let waiting = places(alloc)?;
        Ok(Seat {
            pair,
            waiting,
            taken: 0,
            spare: None,
        })
    }

    /// The connection.
    pub fn pair(&self) -> &Pair
        ensures { result.now ≡ self.now.pair }
    {
        &self.pair
    }

    /// How many accepted moves wait for a tick, at most 32.
    pub fn waiting(&self) -> u32
        ensures count { result ≡ length self.now.waiting }
    {
        self.waiting.len() as u32
    }

    /// What a pack would make.
    pub fn pack_state(&self) -> SendState
        ensures { Answers self.now (λ t k. server_state t.config (history t k.steps).server) result }
    {
        self.pair.conn().pack_state()
    }

    /// Gives back the bytes of a datagram of this connection that is told no more, so that the next one needs no memory.
    pub fn give_back(&mut self, bytes: RawBytes)
        ensures { self.new ≡ self.old }
    {
        self.spare = Some(bytes);
    }

    /// The oldest move that waits, which a tick takes.
    pub fn take_move(&mut self) -> Option<MoveBits>
        requires { self.old.taken < 2 ^ 32 - 1 }
        ensures value { result ≡ slice_get self.old.waiting 0 }
        ensures rest { self.new ≡ without_first self.old }
    {
        let first = self.waiting.pop_front();
        if first.is_some() {
            self.taken += 1;
        }
        first
    }
}
