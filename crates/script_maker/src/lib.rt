//! A large match from a number: `make` draws a script of any length. The rules stand in docs/maker.md.
#![tactic(auto)]

mod draws;
mod header;
mod lines;
mod making;
mod numbers;

pub use draws::generator;
pub use lines::draw_move;
pub use making::make;
