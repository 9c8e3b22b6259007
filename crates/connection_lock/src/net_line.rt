//! What a client's net activity does.

use tn_types::{Class, MoveBits, Payload, RawBytes};

/// One line of a client, or of the net between it and the server.
#[derive(Drop)]
pub enum NetLine {
    /// The client posts an event.
    ClientPost { class: Class, payload: Payload },
    /// The client gets the server's datagram of place `k`.
    Down { k: u32 },
    /// The client takes up a move of its player.
    Move { m: MoveBits },
    /// The client makes its next datagram.
    ClientPack,
    /// The server gets the client's datagram of place `k`.
    Up { k: u32 },
    /// The server gets these bytes, which nobody need have made.
    Raw { bytes: RawBytes },
}
