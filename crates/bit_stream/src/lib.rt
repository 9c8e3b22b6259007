//! Numbers of a few bits each, written into a datagram and read from one.
//!
//! Bit `k` of a datagram is bit `k mod 8` of its byte `k div 8`, and a number is written with its
//! least bit first (docs/wire.md, "Datagrams"). Both ends keep pending bits in a 64-bit word beside
//! whole bytes, so that a number costs a few shifts.
#![tactic(auto)]

mod accumulator;
mod laws;
mod reader;
mod said;
mod world_moves;
mod writer;

pub use accumulator::joined;
pub use laws::{bit_of_bytes, bits_come_back, number_comes_back};
pub use reader::{BitReader, PaddingFault, Short};
pub use world_moves::{bits_of_move, move_of_bits, moves_are_numbers};
pub use writer::BitWriter;
