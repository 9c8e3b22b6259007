//! What a world is made of: objects of six kinds.

/// What a player or a drone has at the start.
pub const MAX_HP: u32 = 100;

/// What a player has to fire at the start.
pub const MAX_AMMO: u32 = 20;

/// Where scores and captures stop.
pub const MAX_SCORE: u32 = 255;

/// Where a clock stops.
pub const MAX_TICK: u32 = 16_777_215;

/// The age from which nothing depends on it, at which a disc ends.
pub const MAX_AGE: u32 = 20;

/// Where an object is, in centimetres: 0 to 65,535 each way.
#[derive(Clone, Copy, Debug, PartialEq, Eq)]
pub struct Place {
    pub x: u32,
    pub y: u32,
}

/// A client's player. It stands where its hp is above 0.
#[derive(Clone, Copy, Debug, PartialEq, Eq)]
pub struct Player {
    pub client: u8,
    /// 0 to 100.
    pub hp: u32,
    /// 0 to 20.
    pub ammo: u32,
    /// 0 to 255.
    pub score: u32,
}

/// A disc that a player fired.
#[derive(Clone, Copy, Debug, PartialEq, Eq)]
pub struct Disc {
    /// The client whose player fired it.
    pub owner: u8,
    /// Centimetres per tick.
    pub vx: i32,
    pub vy: i32,
    /// Ticks, at most 20.
    pub age: u32,
}

/// A mine, which arms itself.
#[derive(Clone, Copy, Debug, PartialEq, Eq)]
pub struct Mine {
    pub armed: bool,
    /// Ticks, at most 20.
    pub age: u32,
}

/// A drone, which drifts by chance.
#[derive(Clone, Copy, Debug, PartialEq, Eq)]
pub struct Drone {
    /// The object's number, from which its chances are drawn.
    pub number: u32,
    /// 0 to 100.
    pub hp: u32,
}

/// A flag, and the client that carries it.
#[derive(Clone, Copy, Debug, PartialEq, Eq)]
pub struct Flag {
    pub holder: Option<u8>,
}

/// The match's clock and the captures of both teams.
#[derive(Clone, Copy, Debug, PartialEq, Eq)]
pub struct Clock {
    /// 0 to 16,777,215.
    pub tick: u32,
    /// Captures of team 0, 0 to 255.
    pub red: u32,
    /// Captures of team 1, 0 to 255.
    pub blue: u32,
}

/// What objects of one kind have beside a place.
#[derive(Clone, Copy, Debug, PartialEq, Eq)]
pub enum State {
    Player(Player),
    Disc(Disc),
    Mine(Mine),
    Drone(Drone),
    Flag(Flag),
    Clock(Clock),
}

/// An object of the world, dead ones too. Its number is its place in the world's list.
#[derive(Clone, Copy, Debug, PartialEq, Eq)]
pub struct Object {
    pub block: u8,
    /// 0 or 1.
    pub team: u8,
    /// Where it was spawned.
    pub home: Place,
    pub alive: bool,
    pub place: Place,
    pub state: State,
}
