//! What a step that is given says of itself.
ghost use Rattle.std.specs.Prelude.{◌≡◌, ◌+◌, ◌≤◌, ◌++◌, length, vec_len, vec_capacity};
ghost use Rattle.pair_core.specs.Calls.{step_of};
ghost use Rattle.pair_core.specs.Conditions.{StepFits};
ghost use Rattle.kept_pair.specs.Bringing.{brings, brought};

use pair_core::stream_manager::Conn;
use pair_core::{Answer, PairStep};
use tn_types::MoveBits;

/// Its payload is one of an event, as every payload is.
pub(crate) fn learn_payload(step: &PairStep)
    ensures { StepFits (step_of step.now) }
{
    match step {
        PairStep::Post { class: _, payload } => {
            // for its clauses
            let _bytes = payload.as_slice();
        }
        PairStep::ClientPost { class: _, payload } => {
            // for its clauses
            let _bytes = payload.as_slice();
        }
        _ => {}
    }
}

/// Whether it brought the server a datagram that was taken, and so the moves which the server lends now.
fn brought_moves(step: &PairStep, answer: &Answer) -> bool
    ensures { result ≡ brings step.now answer.now }
{
    match step {
        PairStep::Up { k: _, room: _ } => matches!(answer, Answer::Came { moves: _ }),
        PairStep::Raw { bytes: _, room: _ } => matches!(answer, Answer::Came { moves: _ }),
        _ => false,
    }
}

/// The moves that it brought.
pub(crate) fn brought<'a>(step: &PairStep, answer: &Answer, conn: &'a Conn) -> &'a [MoveBits]
    ensures { result.now ≡ brought step.now answer.now conn.now.taken }
{
    if brought_moves(step, answer) {
        return conn.taken_bits();
    }
    &[]
}

/// Adds moves, for which there is room.
pub(crate) fn add_moves(moves: &mut Vec<MoveBits>, more: &[MoveBits])
    requires { vec_len moves.old + length more.now ≤ vec_capacity moves.old }
    ensures { moves.new.items ≡ moves.old.items ++ more.now }
{
    if moves.extend_from_slice(more).is_err() {
        unreachable!()
    }
}
