//! The move of this project's own world as the number that travels.
ghost use Rattle.std.specs.Prelude.{◌≡◌, ◌<◌, ◌^◌, true};
ghost use Rattle.tn_types.specs.Steps.{is_step};
ghost use Rattle.bit_stream.specs.WorldMoves.{raised, step_of, move_from, bits_of, move_of, MovesAreNumbers};

use tn_types::{MIN_STEP, Move, MoveBits, WORLD_MOVE_BITS};

/// What a step is raised by, so that it is a number from 0 on.
const RAISED_BY: i8 = 0 - MIN_STEP;

/// How many steps there are each way.
const STEPS: u32 = 16;

/// A step from -8 to 7 as a number.
#[tactic(auto, using(crate::proofs::MovesAsNumbers::step_range, crate::proofs::MovesAsNumbers::raised_below))]
fn raise(step: i8) -> u32
    requires { is_step step ≡ true }
    ensures value { result ≡ raised step }
    ensures fits { result < STEPS }
{
    (step + RAISED_BY) as u32
}

/// The step that was raised to this number.
fn lower(number: u32) -> i8
    requires { number < STEPS }
    ensures { result ≡ step_of number }
{
    number as i8 - RAISED_BY
}

/// The move of these four numbers.
fn moved(dx: u32, dy: u32, fire: u32, act: u32) -> Move
    requires dx { dx < STEPS }
    requires dy { dy < STEPS }
    ensures { result ≡ move_from dx dy fire act }
{
    Move {
        dx: lower(dx),
        dy: lower(dy),
        fire: fire == 1,
        act: act == 1,
    }
}

/// The number that a move of this project's own world travels as.
pub fn bits_of_move(m: &Move) -> MoveBits
    ensures value { result ≡ bits_of m.now }
    ensures few { result.bits < 2 ^ WORLD_MOVE_BITS }
{
    let flags = 2 * u32::from(m.act) + u32::from(m.fire);
    let bits = raise(m.dx) + STEPS * (raise(m.dy) + STEPS * flags);
    MoveBits {
        bits: u64::from(bits),
    }
}

/// The move that this project's own world reads out of a number: its lowest ten bits.
pub fn move_of_bits(m: MoveBits) -> Move
    ensures { result ≡ move_of m }
{
    let bits = (m.bits % (1 << WORLD_MOVE_BITS)) as u32;
    let after_x = bits / STEPS;
    let flags = after_x / STEPS;
    moved(bits % STEPS, after_x % STEPS, flags % 2, flags / 2)
}

/// A move comes back from its number, and a number of ten bits from its move.
pub fn moves_are_numbers()
    ensures { MovesAreNumbers }
{}
