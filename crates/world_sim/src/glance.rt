//! What is asked of every object again and again, kept in little room beside the objects.
ghost use Rattle.std.specs.Prelude.{◌≡◌, true, false, length};
ghost use Rattle.world_rules.specs.declared.object.Object.{Object};
ghost use Rattle.world_sim.specs.Glances.{mine_role, role_of, glance_of, is_armed_role, may_matter};
ghost use Rattle.world_sim.specs.Found.{is_players};
ghost use Rattle.world_sim.specs.Turns.{is_quiet, is_over};

use crate::watch::{PLOTS, is_watched};
use world_rules::object::MAX_AGE;
use world_rules::{Mine, Object, Place, State};

/// What an object is to those that look at it. Those that may be hidden and those that are always seen stand last, so that one
/// comparison tells that an object is neither.
#[derive(Clone, Copy, Debug, PartialEq, Eq)]
pub enum Role {
    /// The player of this client.
    Player(u8),
    Disc,
    /// A mine that is not armed.
    YoungMine,
    Drone,
    /// An armed mine that still grows older.
    ArmedMine,
    /// An armed mine that is as old as it gets.
    OldMine,
    Flag,
    Clock,
}

/// What a glance at an object tells.
#[derive(Clone, Copy, Debug, PartialEq, Eq)]
pub struct Glance {
    /// 0 or 1.
    pub team: u8,
    pub alive: bool,
    pub role: Role,
}

fn mine_role(m: &Mine) -> Role
    ensures { result ≡ mine_role m.now }
{
    if !m.armed {
        Role::YoungMine
    } else if m.age == MAX_AGE {
        Role::OldMine
    } else {
        Role::ArmedMine
    }
}

fn role_of(o: &Object) -> Role
    ensures { result ≡ role_of o.now.state }
{
    match &o.state {
        State::Player(p) => Role::Player(p.client),
        State::Disc(_) => Role::Disc,
        State::Mine(m) => mine_role(m),
        State::Drone(_) => Role::Drone,
        State::Flag(_) => Role::Flag,
        State::Clock(_) => Role::Clock,
    }
}

/// A glance at an object.
pub fn glance_of(o: &Object) -> Glance
    ensures { result ≡ glance_of o.now }
{
    Glance {
        team: o.team,
        alive: o.alive,
        role: role_of(o),
    }
}

impl Glance {
    // Whether this is anybody's player.
    pub(crate) fn is_player(&self) -> bool
        ensures { (o : Object) → self.now ≡ glance_of o → result ≡ is_players o }
    {
        matches!(self.role, Role::Player(_))
    }

    // What no tick changes, as long as nothing triggers it: an old mine, and what is dead.
    pub(crate) fn is_still(&self) -> bool
        ensures { (o : Object) → self.now ≡ glance_of o → result ≡ true → is_quiet false o ≡ true }
    {
        if matches!(self.role, Role::OldMine) {
            return true;
        }
        !self.alive
            && matches!(
                self.role,
                Role::Disc | Role::YoungMine | Role::ArmedMine | Role::Drone
            )
    }

    // Whether it is dead and of a kind that no tick brings back.
    pub(crate) fn is_over(&self) -> bool
        ensures { (o : Object) → self.now ≡ glance_of o → result ≡ true → is_over o ≡ true }
    {
        if self.alive {
            return false;
        }
        matches!(
            self.role,
            Role::Disc | Role::YoungMine | Role::ArmedMine | Role::OldMine | Role::Drone
        )
    }

    // Whether it is an armed mine.
    fn is_armed_mine(&self) -> bool
        ensures { result ≡ is_armed_role self.now.role }
    {
        matches!(self.role, Role::ArmedMine | Role::OldMine)
    }

    // Whether it may be a disc that hits, a mine that is triggered, or a flag. Only an armed mine's place is looked at.
    pub(crate) fn may_matter(&self, watched: &[bool], place: &Place) -> bool
        requires { length watched.now ≡ PLOTS }
        ensures { result ≡ may_matter watched.now place.now self.now }
    {
        if matches!(self.role, Role::Drone) {
            return false;
        }
        if self.is_armed_mine() {
            return is_watched(watched, place);
        }
        if !matches!(self.role, Role::Disc | Role::Flag) {
            return false;
        }
        self.alive || matches!(self.role, Role::Flag)
    }
}
