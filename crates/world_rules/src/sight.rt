//! Who is what to whom: targets, enemies and what is near.
ghost use Rattle.std.specs.Prelude.{◌≡◌, ◌&&◌};
ghost use Rattle.world_rules.specs.Kinds.{kind_of};
ghost use Rattle.world_rules.specs.Near.{is_standing, is_other_near, is_target, is_drone_part};
ghost use Rattle.world_rules.specs.Discs.{is_flying, is_of};
ghost use Rattle.world_rules.specs.Mines.{is_armed};

use crate::kinds::{CLOCK, DISC, DRONE, FLAG, MINE, PLAYER};
use crate::object::{Object, State};
use crate::places::is_within;

impl Object {
    /// A player whose hp is above 0.
    pub fn is_standing(&self) -> bool
        ensures { result ≡ is_standing self.now }
    {
        match &self.state {
            State::Player(player) => player.hp > 0,
            _ => false,
        }
    }

    /// Whether the other object is of the other team and within this reach.
    pub fn is_other_near(&self, reach: u32, other: &Object) -> bool
        ensures { result ≡ is_other_near reach self.now other.now }
    {
        other.team != self.team && is_within(reach, &other.place, &self.place)
    }

    /// A living disc.
    pub fn is_flying(&self) -> bool
        ensures { result ≡ is_flying self.now }
    {
        self.alive && matches!(self.state, State::Disc(_))
    }

    /// A living mine that is armed.
    pub fn is_armed(&self) -> bool
        ensures { result ≡ is_armed self.now }
    {
        match &self.state {
            State::Mine(mine) => self.alive && mine.armed,
            _ => false,
        }
    }

    // A living drone.
    fn is_living_drone(&self) -> bool
        ensures { result ≡ (self.now.alive && is_drone_part self.now.state) }
    {
        self.alive && matches!(self.state, State::Drone(_))
    }

    /// What discs hit: a standing player or a living drone.
    pub fn is_target(&self) -> bool
        ensures { result ≡ is_target self.now }
    {
        self.is_standing() || self.is_living_drone()
    }

    /// The number of its kind.
    pub fn kind(&self) -> u8
        ensures { result ≡ kind_of self.now.state }
    {
        match self.state {
            State::Player(_) => PLAYER,
            State::Disc(_) => DISC,
            State::Mine(_) => MINE,
            State::Drone(_) => DRONE,
            State::Flag(_) => FLAG,
            State::Clock(_) => CLOCK,
        }
    }

    /// A disc of this client.
    pub fn is_of(&self, client: u8) -> bool
        ensures { result ≡ is_of client self.now.state }
    {
        match &self.state {
            State::Disc(disc) => disc.owner == client,
            _ => false,
        }
    }
}
