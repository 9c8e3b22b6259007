//! What a match in threads leaves.
ghost use Rattle.std.specs.Prelude.{◌≡◌, [], ◌∷◌, ◌++◌, ◌<◌, ◌^◌, OnOk, OnErr, length, slice_get};
ghost use Rattle.std.specs.Option.{option_copied};

use crate::history::History;
use crate::moves::TickMoves;
use dirty_lanes::FinalWords;
use kept_pair::KeptPair;
use lane_periods::Objects;
use std::alloc::Global;
use std::marker::Model;
use tn_types::NoMemory;

/// What is left of one client.
#[derive(Drop)]
pub struct RaceClient {
    /// Its connection, with the steps that were made on it.
    pub pair: KeptPair,
    /// The object of each of its periods.
    pub objects: Objects,
    /// Whether a step had no room, as so many are kept as can be.
    pub full: bool,
}

/// What is left of each client, by its number. A clause sees them as a list.
#[derive(Drop)]
pub struct RaceClients {
    clients: Vec<RaceClient>,
}

impl Model for RaceClients {
    ghost use Rattle.std.specs.Prelude.{List};
    ghost use Rattle.race_history.specs.declared.race.RaceClient.{RaceClient};

    ghost Value = { List RaceClient };

    ghost view = { λ r. r.clients.items };
}

/// What a match in threads leaves.
#[derive(Drop)]
pub struct Race {
    /// The values that each field of each object had, by version.
    pub values: History,
    /// The moves that each tick took.
    pub moves: TickMoves,
    /// The words of the lanes at the end.
    pub words: FinalWords,
    /// The clients.
    pub clients: RaceClients,
}

impl RaceClients {
    /// None.
    pub fn new(alloc: Global) -> RaceClients
        ensures { result ≡ [] }
    {
        RaceClients {
            clients: Vec::new(alloc),
        }
    }

    /// Adds the next client. For want of memory it is dropped.
    pub fn push(&mut self, _alloc: Global, client: RaceClient) -> Result<(), NoMemory>
        ensures added { OnOk result (self.new ≡ self.old ++ client ∷ []) }
        ensures unchanged { OnErr result (self.new ≡ self.old) }
    {
        if self.clients.reserve(1).is_err() {
            return Err(NoMemory);
        }
        self.clients.push_reserved(client);
        Ok(())
    }

    /// How many clients these are.
    pub fn len(&self) -> usize
        ensures { result ≡ length self.now }
    {
        self.clients.len()
    }

    /// The clients, lent.
    pub fn as_slice(&self) -> &[RaceClient]
        ensures { result.now ≡ self.now }
    {
        self.clients.as_slice()
    }
}
