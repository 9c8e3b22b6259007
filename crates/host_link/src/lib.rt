//! What a hosted server has of the outside: a socket at any address of IPv4, a clock that sees which turns are late, and a line of
//! text each ten seconds that tells what was counted.
#![tactic(auto)]

mod clock;
mod counters;
mod link;
mod socket;

pub use clock::HostClock;
pub use counters::Counters;
pub use host_guests::{KEY_BYTES, PROTOCOL_BYTES, Rules, SECRET_BYTES, TERMS_BYTES};
pub use link::HostLink;
pub use net_serve;
pub use socket::OpenSocket;
