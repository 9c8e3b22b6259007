//! Moves of a tick, and the discs that they make.
ghost use Rattle.std.specs.Prelude.{◌≡◌, ◌*ℤ◌, pos};
ghost use Rattle.world_rules.specs.Moves.{move_of, still};
ghost use Rattle.world_rules.specs.Players.{is_firing, fired_by, fired, speed, is_still};

use crate::measures::{DISC_SPEED, STILL_DISC_SPEED};
use crate::object::{Disc, Object, Player, State};
use crate::places::stepped;
use bit_stream::move_of_bits;
use tn_types::{Move, MoveBits};

/// The move of this client in this tick, read out of its number: none has no step, no shot and no use.
pub fn move_of(moves: &[Option<MoveBits>], client: u8) -> Move
    ensures { result ≡ move_of moves.now client }
{
    if let Some(Some(m)) = moves.get(client as usize) {
        return move_of_bits(*m);
    }
    no_move()
}

// No step, no shot and no use.
fn no_move() -> Move
    ensures { result ≡ still }
{
    Move {
        dx: 0,
        dy: 0,
        fire: false,
        act: false,
    }
}

// Whether a move has no step.
fn is_still(m: &Move) -> bool
    ensures { result ≡ is_still m.now }
{
    m.dx == 0 && m.dy == 0
}

// The velocity of a disc that is fired with this move.
fn speed_of(m: &Move) -> (i32, i32)
    ensures { result ≡ speed m.now }
{
    if is_still(m) {
        (STILL_DISC_SPEED, 0)
    } else {
        (scaled_speed(m.dx), scaled_speed(m.dy))
    }
}

fn scaled_speed(d: i8) -> i32
    ensures { result ≡ DISC_SPEED *ℤ d }
{
    DISC_SPEED * i32::from(d)
}

fn is_firing(p: &Player, m: &Move) -> bool
    ensures { result ≡ is_firing p.now m.now }
{
    p.hp > 0 && m.fire && p.ammo > 0
}

// The disc that a player makes with this move.
#[tactic(auto, unfolding(crate::specs::Players::fired_by))]
fn fired_by(o: &Object, p: &Player, m: &Move) -> Option<Object>
    ensures { result ≡ fired_by o.now p.now m.now }
{
    if is_firing(p, m) {
        let place = stepped(&o.place, m);
        let speed = speed_of(m);
        Some(Object {
            block: o.block,
            team: o.team,
            home: place,
            alive: true,
            place,
            state: State::Disc(Disc {
                owner: p.client,
                vx: speed.0,
                vy: speed.1,
                age: 0,
            }),
        })
    } else {
        None
    }
}

/// The disc that an object makes in the tick.
pub fn fired(moves: &[Option<MoveBits>], o: &Object) -> Option<Object>
    ensures { result ≡ fired moves.now o.now }
{
    match &o.state {
        State::Player(p) => {
            let m = move_of(moves, p.client);
            fired_by(o, p, &m)
        }
        _ => None,
    }
}
