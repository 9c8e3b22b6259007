//! What no clause says of joining, and of how a connection goes: `keyed_digest`, `datagram_tags`, `greeting`, `presence`, `protocol_number`,
//! `link_quality`, `pace`. It has no code but its tests, and nothing stands on it.
#![tactic(auto)]

#[cfg(test)]
mod codes;
#[cfg(test)]
mod ends;
#[cfg(test)]
mod greetings;
#[cfg(test)]
mod paces;
#[cfg(test)]
mod qualities;
#[cfg(test)]
mod traffics;
