//! Flags and the clock, each after one tick.
ghost use Rattle.std.specs.Prelude.{◌≡◌, filter, find};
ghost use Rattle.std.specs.Option.{option_copied};
ghost use Rattle.world_rules.specs.Near.{is_standing};
ghost use Rattle.world_rules.specs.Flags.{is_player, taking, using_part, taker, is_home, went_home, carried, flag_next, is_capturing, is_captured};
ghost use Rattle.world_rules.specs.Clocks.{clock_next};

use crate::fire::move_of;
use crate::measures::FLAG_REACH;
use crate::object::{Clock, Flag, MAX_SCORE, MAX_TICK, Object, State};
use crate::places::{is_within, stepped};
use tn_types::MoveBits;

/// Whether this is the client's player.
pub fn is_player(client: u8, o: &Object) -> bool
    ensures { result ≡ is_player client o.now }
{
    match &o.state {
        State::Player(p) => p.client == client,
        _ => false,
    }
}

// The client's player.
fn player_of(client: u8, objects: &[Object]) -> Option<&Object>
    ensures { option_copied result ≡ find (is_player client) objects.now }
{
    objects.iter().find(|o| is_player(client, o))
}

// The client that takes the flag, if this is its player.
fn taking(moves: &[Option<MoveBits>], o: &Object, p: &Object) -> Option<u8>
    ensures { result ≡ taking moves.now o.now p.now }
{
    if p.is_standing() && o.is_other_near(FLAG_REACH, p) {
        using(moves, &p.state)
    } else {
        None
    }
}

// The client of a player, whose move uses.
fn using(moves: &[Option<MoveBits>], state: &State) -> Option<u8>
    ensures { result ≡ using_part moves.now state.now }
{
    match state {
        State::Player(p) => {
            if move_of(moves, p.client).act {
                Some(p.client)
            } else {
                None
            }
        }
        _ => None,
    }
}

#[tactic(auto, using(crate::proofs::Taker::taker_passes, crate::proofs::Taker::taker_stops, crate::proofs::Taker::taker_none))]
fn taker(objects: &[Object], moves: &[Option<MoveBits>], o: &Object) -> Option<u8>
    ensures { result ≡ taker objects.now moves.now o.now }
{
    for p in objects {
        if let Some(client) = taking(moves, o, p) {
            return Some(client);
        }
    }
    None
}

// Whether a player is within reach of its own home.
fn is_home(p: &Object) -> bool
    ensures { result ≡ is_home p.now }
{
    is_within(FLAG_REACH, &p.place, &p.home)
}

// The flag, back at home.
fn went_home(o: &Object) -> Object
    ensures { result ≡ went_home o.now }
{
    Object {
        place: o.home,
        state: State::Flag(Flag { holder: None }),
        ..*o
    }
}

// A flag that a client holds.
fn carried(moves: &[Option<MoveBits>], o: &Object, client: u8, player: Option<&Object>) -> Object
    ensures { result ≡ carried moves.now o.now client (option_copied player.entry) }
{
    match player {
        None => went_home(o),
        Some(p) => {
            if !p.is_standing() {
                went_home(o)
            } else if is_home(p) {
                went_home(o)
            } else {
                Object {
                    place: stepped(&p.place, &move_of(moves, client)),
                    ..*o
                }
            }
        }
    }
}

/// A flag after the tick, where these are the standing ones of all objects.
#[tactic(auto, using(crate::proofs::Taker::taker_standing), unfolding(crate::specs::Flags::flag_next))]
pub fn flag_next(
    objects: &[Object],
    standing: &[Object],
    moves: &[Option<MoveBits>],
    o: &Object,
    holder: Option<u8>,
) -> Object
    requires { standing.now ≡ filter is_standing objects.now }
    ensures { result ≡ flag_next objects.now moves.now o.now holder }
{
    match holder {
        None => Object {
            state: State::Flag(Flag {
                holder: taker(standing, moves, o),
            }),
            ..*o
        },
        Some(client) => carried(moves, o, client, player_of(client, objects)),
    }
}

// Whether this player captures for the team.
fn is_capturing(team: u8, player: Option<&Object>) -> bool
    ensures { result ≡ is_capturing team (option_copied player.entry) }
{
    match player {
        None => false,
        Some(p) => p.is_standing() && is_home(p) && p.team == team,
    }
}

/// Whether the team captures this flag.
pub fn is_captured(objects: &[Object], team: u8, f: &Object) -> bool
    ensures { result ≡ is_captured objects.now team f.now }
{
    match &f.state {
        State::Flag(flag) => match flag.holder {
            None => false,
            Some(client) => is_capturing(team, player_of(client, objects)),
        },
        _ => false,
    }
}

/// The clock after the tick, with the captures of both teams.
#[tactic(auto, unfolding(crate::specs::Clocks::clock_next))]
pub fn clock_next(red: u32, blue: u32, o: &Object, c: &Clock) -> Object
    ensures { result ≡ clock_next red blue o.now c.now }
{
    Object {
        state: State::Clock(Clock {
            tick: c.tick.saturating_add(1).min(MAX_TICK),
            red: c.red.saturating_add(red).min(MAX_SCORE),
            blue: c.blue.saturating_add(blue).min(MAX_SCORE),
        }),
        ..*o
    }
}
