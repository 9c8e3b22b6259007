//! What a server's rules ask for of the answers of a link and of a clock: when a turn's listening ends, and who has a client.
#![tactic(auto)]

mod fault;
mod hello;
mod laws;
mod limits;
mod peers;
mod rest;

pub use fault::NetFault;
pub use hello::{Hello, WelcomeTold, hello_of, hello_with, is_arrival, welcome, welcome_of};
pub use laws::turns_are_one;
pub use limits::{
    HELLO, HELLO_BYTES, LARGE_BATCH, MAX_RECEIVED_BYTES, MAX_RECEIVES, MAX_TURNS,
    TURN_MILLISECONDS, WELCOME, WELCOME_BYTES,
};
pub use peers::Peers;
pub use rest::Rest;
