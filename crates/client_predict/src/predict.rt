//! The prediction, one step for each sampled move.
ghost use Rattle.std.specs.Prelude.{◌≡◌, ◌≤◌, ◌≤ℤ◌, pos, [], IfSome, option_map};
ghost use Rattle.std.specs.Int.RustNames.{unsigned_abs};
ghost use Rattle.client_predict.specs.Standing.{IsStanding, stepped_by, moved_by, played};
ghost use Rattle.client_predict.specs.Offsets.{decayed, seen_from, passes, kept, corrected, IsOffset};

use bit_stream::move_of_bits;
use std::marker::Model;
use tn_types::{Move, MoveBits};
use wire_format::MoveList;
use world_rules::{MAX_COORDINATE, step_player};

/// The greatest part of an offset, in centimetres: a correction that would pass it either way is shown at once.
pub const MAX_OFFSET: u64 = 1000;

/// What a client predicts of its player, and how far from there it is still shown. No call takes memory.
///
/// A clause sees `Prediction`, and what it means by the list of what was told and sampled.
#[derive(Drop)]
pub struct Predict {
    value: Option<(i64, i64, i64)>,
    offset: (i64, i64),
}

impl Model for Predict {
    ghost use Rattle.std.specs.Option.{ForSome};
    ghost use Rattle.client_predict.specs.Standing.{IsStanding};
    ghost use Rattle.client_predict.specs.Offsets.{IsOffset};
    ghost use Rattle.client_predict.specs.Predicting.{Prediction};

    ghost Value = { Prediction };

    ghost view = { λ p. record { value = p.value; offset = p.offset } };

    ghost invariant = { λ p. ForSome p.value IsStanding × IsOffset p.offset };
}

impl Predict {
    ghost use Rattle.client_predict.specs.Predicting.{StandsFor, Told, Sampled, value_of, offset_of, Does, Answers};

    /// Nothing was told yet, so nothing is predicted.
    pub fn new() -> Predict
        ensures { StandsFor result [] }
    {
        Predict {
            value: None,
            offset: (0, 0),
        }
    }

    /// x, y and ammo of the player after all moves that are pending: the base that was told last, and on it one step for each of
    /// them. `None` exactly where none was told, or no base with the last packet.
    pub fn value(&self) -> Option<(i64, i64, i64)>
        ensures value { result ≡ self.now.value }
        ensures log { Answers self.now value_of result }
    {
        self.value
    }

    /// How far from there the player is shown, each way: what is left of corrections.
    pub fn offset(&self) -> (i64, i64)
        ensures value { result ≡ self.now.offset }
        ensures within { IsOffset result }
        ensures log { Answers self.now offset_of result }
    {
        self.offset
    }

    /// A packet was processed: x, y and ammo as it tells them, or `None` where it tells of no player, and the moves that are
    /// pending after it. x and y are 0 to 65,535, ammo 0 to 20.
    #[tactic(auto, using(crate::proofs::PredictLogs::told_more, crate::proofs::OffsetParts::corrected_within))]
    pub fn told(&mut self, base: Option<(i64, i64, i64)>, pending: &MoveList)
        requires { IfSome base IsStanding }
        ensures { Does self.old (Told base pending.now) self.new }
    {
        let value = played_from(base, pending.as_slice());
        self.offset = corrected(self.value, value, self.offset);
        self.value = value;
    }

    /// The player's move was sampled, and is pending from now on.
    #[tactic(auto, using(crate::proofs::PredictLogs::sampled_more, crate::proofs::PredictLogs::sampled_within))]
    pub fn sampled(&mut self, m: MoveBits)
        ensures { Does self.old (Sampled m) self.new }
    {
        self.value = stepped(self.value, m);
        self.offset = (decayed(self.offset.0), decayed(self.offset.1));
    }
}

// One step on.
fn step(at: (i64, i64, i64), m: Move) -> (i64, i64, i64)
    requires { IsStanding at }
    ensures value { result ≡ stepped_by at m }
    ensures stands { IsStanding result }
{
    let (x, y, ammo) = at;
    step_player(x, y, ammo, m)
}

// One step on by a move's number.
fn moved(at: (i64, i64, i64), m: MoveBits) -> (i64, i64, i64)
    requires { IsStanding at }
    ensures value { result ≡ moved_by at m }
    ensures stands { IsStanding result }
{
    step(at, move_of_bits(m))
}

// One step on, where there is a value.
fn stepped(value: Option<(i64, i64, i64)>, m: MoveBits) -> Option<(i64, i64, i64)>
    requires { IfSome value IsStanding }
    ensures value { result ≡ option_map (λ at. moved_by at m) value }
    ensures stands { IfSome result IsStanding }
{
    match value {
        Some(at) => Some(moved(at, m)),
        None => None,
    }
}

// One step on for each move.
fn played(base: (i64, i64, i64), moves: &[MoveBits]) -> (i64, i64, i64)
    requires { IsStanding base }
    ensures value { result ≡ played base moves.now }
    ensures stands { IsStanding result }
{
    let mut at = base;
    'moves: for m in moves {
        at = moved(at, *m);
    }
    at
}

// The same, where there is a base.
fn played_from(base: Option<(i64, i64, i64)>, moves: &[MoveBits]) -> Option<(i64, i64, i64)>
    requires { IfSome base IsStanding }
    ensures value { result ≡ option_map (λ at. played at moves.now) base }
    ensures stands { IfSome result IsStanding }
{
    match base {
        Some(at) => Some(played(at, moves)),
        None => None,
    }
}

// What is left of a part of an offset after a sampled move: three quarters, cut towards 0.
fn decayed(part: i64) -> i64
    requires { unsigned_abs part ≤ MAX_OFFSET }
    ensures value { result ≡ decayed part }
    ensures within { unsigned_abs result ≤ MAX_OFFSET }
{
    3 * part / 4
}

// A part of the offset, from the new value.
fn seen_from(old: i64, offset: i64, new: i64) -> i64
    requires old_least { pos 0 ≤ℤ old }
    requires old_most { old ≤ℤ pos MAX_COORDINATE }
    requires new_least { pos 0 ≤ℤ new }
    requires new_most { new ≤ℤ pos MAX_COORDINATE }
    requires offset { unsigned_abs offset ≤ MAX_OFFSET }
    ensures { result ≡ seen_from old offset new }
{
    old + offset - new
}

// Whether a part passes the greatest one, either way.
fn passes(part: i64) -> bool
    ensures { result ≡ passes part }
{
    part.unsigned_abs() > MAX_OFFSET
}

// The offset, or none where a part of it passes the greatest one.
fn kept(offset: (i64, i64)) -> (i64, i64)
    ensures { result ≡ kept offset }
{
    if passes(offset.0) || passes(offset.1) {
        (0, 0)
    } else {
        offset
    }
}

// The offset after a correction from the old value to the new one.
fn corrected(
    old: Option<(i64, i64, i64)>,
    new: Option<(i64, i64, i64)>,
    offset: (i64, i64),
) -> (i64, i64)
    requires old { IfSome old IsStanding }
    requires new { IfSome new IsStanding }
    requires offset { IsOffset offset }
    ensures { result ≡ corrected old new offset }
{
    let Some(old) = old else {
        return (0, 0);
    };
    let Some(new) = new else {
        return (0, 0);
    };
    let x = seen_from(old.0, offset.0, new.0);
    let y = seen_from(old.1, offset.1, new.1);
    kept((x, y))
}
