//! The moves that ticks took.
ghost use Rattle.std.specs.Prelude.{◌≡◌, ◌<◌, ◌≤◌, ◌^◌, ◌++◌, ◌∷◌, [], ◌↔◌, length, slice_get, Some, IfOk, IfSome, IsNone, OnOk, OnErr};
ghost use Rattle.std.specs.List.{AllByRecursion};
ghost use Rattle.race_history.specs.Deciding.{Decides};
ghost use Rattle.race_history.specs.Moves.{HasClients, MovesFit, move_taken};

use std::alloc::{AllocError, Global};
use std::marker::Model;
use tn_types::{MoveBits, NoMemory};

// What one tick took: a move or none of each client.
#[derive(Drop)]
struct Row {
    moves: Vec<Option<MoveBits>>,
}

impl Model for Row {
    ghost use Rattle.std.specs.Prelude.{List, Option};
    ghost use Rattle.tn_types.specs.declared.moves.MoveBits.{MoveBits};

    ghost Value = { List (Option MoveBits) };

    ghost view = { λ t. t.moves.items };
}

/// The moves that ticks took, by tick and client. A clause sees them as a list of lists.
#[derive(Drop)]
pub struct TickMoves {
    rows: Vec<Row>,
}

impl Model for TickMoves {
    ghost use Rattle.std.specs.Prelude.{List, Option};
    ghost use Rattle.tn_types.specs.declared.moves.MoveBits.{MoveBits};

    ghost Value = { List (List (Option MoveBits)) };

    ghost view = { λ t. t.rows.items };
}

impl TickMoves {
    /// Those of no tick.
    pub fn new(alloc: Global) -> TickMoves
        ensures { result ≡ [] }
    {
        TickMoves {
            rows: Vec::new(alloc),
        }
    }

    /// Adds what one more tick took. For want of memory nothing changes.
    pub fn push(&mut self, alloc: Global, moves: &[Option<MoveBits>]) -> Result<(), NoMemory>
        ensures added { OnOk result (self.new ≡ self.old ++ moves.now ∷ []) }
        ensures unchanged { OnErr result (self.new ≡ self.old) }
    {
        let Ok(row) = row_of(alloc, moves) else {
            return Err(NoMemory);
        };
        if self.rows.reserve(1).is_err() {
            return Err(NoMemory);
        }
        self.rows.push_reserved(row);
        Ok(())
    }

    /// How many ticks these are.
    pub fn len(&self) -> u32
        requires { length self.now < 2 ^ 32 }
        ensures { result ≡ length self.now }
    {
        self.rows.len() as u32
    }

    /// What a tick took, by client; `None` exactly where there is no such tick. Ticks are numbered from 0.
    pub fn get(&self, tick: u32) -> Option<&[Option<MoveBits>]>
        ensures none { IsNone result ↔ (length self.now ≤ tick) }
        ensures value { IfSome result (λ row. slice_get self.now tick ≡ Some row.now) }
    {
        match self.rows.get(tick as usize) {
            Some(row) => Some(row.moves.as_slice()),
            None => None,
        }
    }

    /// The move that a tick took from a client, if any; `None` too where there is no such client.
    pub fn taken(&self, tick: u32, client: u8) -> Option<MoveBits>
        requires { tick < length self.now }
        ensures { IfSome (slice_get self.now tick) (λ row. result ≡ move_taken client row) }
    {
        let row = &self.rows[tick as usize];
        match row.moves.get(client as usize) {
            Some(taken) => *taken,
            None => None,
        }
    }

    /// Whether there are moves for so many ticks, in each one or none of so many clients.
    pub fn fits(&self, ticks: usize, clients: u8) -> bool
        ensures { Decides result (MovesFit ticks clients self.now) }
    {
        if self.rows.len() != ticks {
            return false;
        }
        each_has(&self.rows, clients as usize)
    }
}

fn row_of(alloc: Global, moves: &[Option<MoveBits>]) -> Result<Row, AllocError>
    ensures { IfOk result (λ row. row ≡ moves.now) }
{
    Ok(Row {
        moves: Vec::from_slice(alloc, moves)?,
    })
}

fn each_has(rows: &[Row], clients: usize) -> bool
    ensures { Decides result (AllByRecursion (HasClients clients) rows.now) }
{
    for row in rows {
        if row.moves.len() != clients {
            return false;
        }
    }
    true
}
