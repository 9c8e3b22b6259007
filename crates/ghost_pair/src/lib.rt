//! What ties the server's ghosts to the client's copies, packet by packet. It has no code: its definitions and lemmas are
//! what the laws of a connection stand on.
#![tactic(auto)]
