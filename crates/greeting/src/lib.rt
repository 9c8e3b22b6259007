//! How a server and a client greet each other: no client without an address that reads what is sent to it, and no datagrams for anybody else.
#![tactic(auto)]

mod datagrams;
mod door;
mod knock;
mod laws;
mod words;

pub use datagrams::{
    GreetingBytes, MAX_GREETING_BYTES, MAX_TOKEN_BYTES, PROTOCOL_BYTES, Reason, TERMS_BYTES,
};
pub use door::{AcceptFault, Door, Guest, Heard};
pub use knock::{Knock, Reached};
pub use laws::{answer_is_right, challenge_is_taken, hello_is_challenged};
pub use words::{Address, SECRET_BYTES, Sixteen};
