//! A line of a client.
ghost use Rattle.std.specs.Prelude.{◌≡◌, ◌≤◌, ◌++◌, true, drop, length};
ghost use Rattle.rtrb.specs.Ring.{sent, known_free};
ghost use Rattle.kept_pair.specs.Kept.{terms_in};
ghost use Rattle.connection_lock.specs.Rule.{IsQuiet};
ghost use Rattle.connection_lock.specs.Turns.{line_given, StepsLine, MadeLine};

use crate::net_line::NetLine;
use kept_pair::KeptPair;
use kept_pair::pair_core::{Answer, PairStep};
use rtrb::Producer;
use tn_types::MoveBits;

/// The step of a line, where so many further moves have a place.
fn step_of(line: NetLine, room: u32) -> PairStep
    ensures { result ≡ line_given room line }
{
    match line {
        NetLine::ClientPost { class, payload } => PairStep::ClientPost { class, payload },
        NetLine::Down { k } => PairStep::Down { k },
        NetLine::Move { m } => PairStep::Sample { m },
        NetLine::ClientPack => PairStep::ClientPack,
        NetLine::Up { k } => PairStep::Up { k, room },
        NetLine::Raw { bytes } => PairStep::Raw { bytes, room },
    }
}

/// Hands moves on, each of which has a place.
fn hand_on(outbox: &mut Producer<MoveBits>, moves: &[MoveBits])
    requires room { length moves.now ≤ known_free outbox.old }
    ensures sent { sent outbox.new ≡ sent outbox.old ++ moves.now }
{
    for i in 0..moves.len() {
        outbox.push_reserved(moves[i]);
    }
}

/// The moves from this place on.
fn newer(moves: &[MoveBits], before: usize) -> &[MoveBits]
    requires { before ≤ length moves.now }
    ensures { result.now ≡ drop before moves.now }
{
    &moves[before..]
}

/// Makes the step of a line, where so many further moves have a place, and drops the events that it hands out.
fn step_line(pair: &mut KeptPair, line: NetLine, room: u32) -> Answer
    requires prepared { pair.old.prepared ≡ true }
    requires quiet { IsQuiet pair.old }
    ensures step { StepsLine pair.old line room result pair.new }
    ensures quiet { IsQuiet pair.new }
    ensures terms { terms_in pair.new ≡ terms_in pair.old }
{
    let answer = pair.step(step_of(line, room));
    pair.drop_events();
    answer
}

/// Makes the step of a line. The moves that are accepted in it go into the ring, whose free places are the room.
pub(crate) fn make(pair: &mut KeptPair, outbox: &mut Producer<MoveBits>, line: NetLine) -> Answer
    requires prepared { pair.old.prepared ≡ true }
    requires quiet { IsQuiet pair.old }
    ensures made { MadeLine pair.old (sent outbox.old) (known_free outbox.old) line result pair.new (sent outbox.new) }
    ensures quiet { IsQuiet pair.new }
    ensures terms { terms_in pair.new ≡ terms_in pair.old }
{
    let room = outbox.slots().min(u32::MAX as usize) as u32;
    let before = pair.accepted_moves().len();
    let answer = step_line(pair, line, room);
    hand_on(outbox, newer(pair.accepted_moves(), before));
    answer
}
