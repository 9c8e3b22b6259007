//! The numbers of the rules: reaches and speeds in centimetres, harm in hp, ages in ticks (docs/world.md).

/// How far a player goes in a tick for each unit of its move.
pub const PLAYER_STEP: i64 = 25;

/// How near a disc hits and harms.
pub const DISC_REACH: u32 = 200;

/// How near a mine is triggered and harms.
pub const MINE_REACH: u32 = 300;

/// How near a flag is taken, and how near home it is captured.
pub const FLAG_REACH: u32 = 300;

/// What a disc takes from a player or a drone.
pub const DISC_HARM: u32 = 25;

/// What a mine takes from a player.
pub const MINE_HARM: u32 = 50;

/// How far a disc flies in a tick for each unit of the move that fired it.
pub const DISC_SPEED: i32 = 100;

/// How far a disc flies in a tick that was fired with no step.
pub const STILL_DISC_SPEED: i32 = 800;

/// The age from which a mine is armed.
pub const ARMING_AGE: u32 = 10;

/// How far a drone drifts in a tick at the most, each way.
pub const DRONE_DRIFT: u32 = 50;

/// How many ways a drone may drift: none, and up to `DRONE_DRIFT` to either side.
pub const DRONE_WAYS: u32 = 2 * DRONE_DRIFT + 1;

/// What the number of a drone is multiplied by in its chance.
pub const CHANCE_BY_NUMBER: u64 = 7_919;

/// What the number of the tick is multiplied by in the chance of a drone.
pub const CHANCE_BY_TICK: u64 = 104_729;

/// What spreads the chances of drones.
pub const CHANCE_SPREAD: u64 = 2_654_435_761;
