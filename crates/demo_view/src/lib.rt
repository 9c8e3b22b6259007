//! A client that sends nothing: it is given the server's datagrams, from a demo or from the network, and shows what a client
//! would show.
#![tactic(auto)]

mod checks;
mod fault;
mod kept;
mod laws;
mod numbers;
mod viewer;

pub use fault::ViewFault;
pub use ghost_client;
pub use kept::KeptViewer;
pub use laws::client_packets_are_viewed;
pub use stream_manager;
pub use viewer::Viewer;
