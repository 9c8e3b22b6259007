//! Those with whom a server on the net speaks: their seats by number, how much may go to each, and under a key the tag of each datagram.
#![tactic(auto)]

mod entrance;
mod guests;
mod keys;
mod socket;

pub use entrance::{Entrance, Knock, MAX_SENT_BYTES, Sent};
pub use greeting::{Address, PROTOCOL_BYTES, SECRET_BYTES, TERMS_BYTES};
pub use guests::{Guests, Heard, Rules, is_greeting};
pub use keys::{GREETING_NUMBER, KEY_BYTES, TAG_BYTES, append, carried};
pub use socket::Socket;
