//! What no clause says of serving and joining over real sockets: a match between two of them, and both ends in two threads. It has no
//! code but its tests, and nothing stands on it.
#![tactic(auto)]

#[cfg(test)]
mod both;
#[cfg(test)]
mod carried;
#[cfg(test)]
mod sockets;
