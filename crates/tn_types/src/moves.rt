//! A player's move, as this project's own world has it.
ghost use Rattle.std.specs.Prelude.{◌≡◌, true, false, pos};
ghost use Rattle.tn_types.specs.Steps.{is_step};

/// What a player does in one tick, as the number that travels. The game that samples it and the game that takes it read it as
/// they like: fields side by side are a number. How many bits it has is one of the terms of a connection, 1 to 64.
#[derive(Clone, Copy, Debug, PartialEq, Eq)]
pub struct MoveBits {
    /// The number: its lowest bits are those that the terms count.
    pub bits: u64,
}

impl Default for MoveBits {
    /// No bit is set.
    fn default() -> Self
        ensures { result ≡ record { bits = 0 } }
    {
        MoveBits { bits: 0 }
    }
}

/// What a player of this project's own world does in one tick: a step of `MIN_STEP` to `MAX_STEP` units each way, whether he
/// fires, and whether he uses. It travels as a number of `WORLD_MOVE_BITS` bits.
#[derive(Clone, Copy, Debug, PartialEq, Eq)]
pub struct Move {
    /// The step along x.
    pub dx: i8,
    /// The step along y.
    pub dy: i8,
    /// Whether he fires.
    pub fire: bool,
    /// Whether he uses: the script's USE.
    pub act: bool,
    pub ghost dx_range: { is_step dx ≡ true },
    pub ghost dy_range: { is_step dy ≡ true },
}

impl Default for Move {
    /// No step, no shot, no use.
    fn default() -> Self
        ensures { (result.dx ≡ pos 0) × (result.dy ≡ pos 0) × (result.fire ≡ false) × (result.act ≡ false) }
    {
        Move {
            dx: 0,
            dy: 0,
            fire: false,
            act: false,
        }
    }
}
