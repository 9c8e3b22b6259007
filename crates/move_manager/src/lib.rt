//! A player's moves on their way to the server: numbered from 0, sent until the server has them, and accepted
//! once and in order. The rules stand in docs/connection.md, "Moves".
#![tactic(auto)]

ghost use Rattle.std.specs.Prelude.{ℕ, List};
ghost use Rattle.move_manager.specs.InOrder.{Step, history, AcceptsInOrder, LeavesNoGap, TellsNoneAhead};

mod faults;
mod receiver;
mod said;
mod sender;

pub use faults::{MoveAhead, MoveFault, MoveGap};
pub use receiver::MoveReceiver;
pub use sender::MoveSender;

/// A law of the two ends over a network that repeats, loses and delays: after any steps the accepted moves are a
/// prefix of those sampled, no packet that was sent leaves a gap, and no count that was told is ahead.
pub fn moves_in_order()
    ensures prefix { (life : ℕ) (steps : List Step) → AcceptsInOrder life (history life steps) }
    ensures no_gap { (life : ℕ) (steps : List Step) → LeavesNoGap life (history life steps) }
    ensures not_ahead { (life : ℕ) (steps : List Step) → TellsNoneAhead (history life steps) }
{}
