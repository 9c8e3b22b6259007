//! What a match starts with.
ghost use Rattle.std.specs.Prelude.{◌≡◌, ◌++◌, ◌∷◌, [], OnOk, OnErr, IfOk, length};

use crate::kinds::{DRONE, FLAG, MINE};
use crate::object::{Clock, Drone, Flag, MAX_AMMO, MAX_HP, Mine, Object, Place, Player, State};
use crate::places::clamp;
use std::alloc::Global;
use std::marker::Model;
use tn_types::NoMemory;

/// An object that is there from the start.
#[derive(Clone, Copy, Debug, PartialEq, Eq)]
pub struct Spawn {
    /// The number of its kind: 0 for a player, and else 2 to 5.
    pub kind: u8,
    /// The block that it refers to.
    pub block: u8,
    /// 0 or 1.
    pub team: u8,
    /// Where it starts, in centimetres: 0 to 65,535.
    pub x: i64,
    pub y: i64,
    /// The client of a player, `None` for all else.
    pub owner: Option<u8>,
}

/// The objects that are there from the start, players first; contracts see them as a list.
#[derive(Drop)]
pub struct Spawns {
    spawns: Vec<Spawn>,
}

impl Model for Spawns {
    ghost use Rattle.std.specs.Prelude.{List};
    ghost use Rattle.world_rules.specs.declared.setup.Spawn.{Spawn};

    ghost Value = { List Spawn };

    ghost view = { λ s. s.spawns.items };
}

impl Spawns {
    /// None yet.
    pub fn new(alloc: Global) -> Spawns
        ensures { result ≡ [] }
    {
        Spawns {
            spawns: Vec::new(alloc),
        }
    }

    /// One more, after the others. Nothing changes for want of memory.
    pub fn push(&mut self, _alloc: Global, spawn: Spawn) -> Result<(), NoMemory>
        ensures ok { OnOk result (self.new ≡ self.old ++ spawn ∷ []) }
        ensures err { OnErr result (self.new ≡ self.old) }
    {
        match self.spawns.push(spawn) {
            Ok(()) => Ok(()),
            Err(_) => Err(NoMemory),
        }
    }

    /// The spawns, lent.
    pub fn as_slice(&self) -> &[Spawn]
        ensures { result.now ≡ self.now }
    {
        self.spawns.as_slice()
    }

    /// The same spawns again.
    pub fn copy(&self, alloc: Global) -> Result<Spawns, NoMemory>
        ensures { IfOk result (λ s. s ≡ self.now) }
    {
        match self.spawns.as_slice().to_vec(alloc) {
            Ok(spawns) => Ok(Spawns { spawns }),
            Err(_) => Err(NoMemory),
        }
    }
}

/// The clients of a match, how far their players see in centimetres, and what is there from the start.
#[derive(Drop)]
pub struct Setup {
    pub clients: u8,
    pub radius: u32,
    pub spawns: Spawns,
}

impl Setup {
    /// The same setup again.
    pub fn copy(&self, alloc: Global) -> Result<Setup, NoMemory>
        ensures { IfOk result (λ s. s ≡ self.now) }
    {
        let spawns = self.spawns.copy(alloc)?;
        Ok(Setup {
            clients: self.clients,
            radius: self.radius,
            spawns,
        })
    }
}

impl Spawn {
    ghost use Rattle.world_rules.specs.Spawning.{spawned, state_at_first};

    /// The object that stands there at the start, with this number.
    pub fn object(&self, number: u32) -> Object
        ensures { result ≡ spawned number self.now }
    {
        let place = Place {
            x: clamp(self.x),
            y: clamp(self.y),
        };
        Object {
            block: self.block,
            team: self.team,
            home: place,
            alive: true,
            place,
            state: self.state(number),
        }
    }

    fn state(&self, number: u32) -> State
        ensures { result ≡ state_at_first number self.now.kind self.now.owner }
    {
        if let Some(client) = self.owner {
            return State::Player(Player {
                client,
                hp: MAX_HP,
                ammo: MAX_AMMO,
                score: 0,
            });
        }
        if self.kind == MINE {
            State::Mine(Mine {
                armed: false,
                age: 0,
            })
        } else if self.kind == DRONE {
            State::Drone(Drone { number, hp: MAX_HP })
        } else if self.kind == FLAG {
            State::Flag(Flag { holder: None })
        } else {
            State::Clock(Clock {
                tick: 0,
                red: 0,
                blue: 0,
            })
        }
    }
}
