//! A message to a connection.

use tn_types::{Class, Payload};

/// What the simulation tells a connection.
#[derive(Drop)]
pub enum Message {
    /// A period of the object of this number begins: with this kind and datablock, at this level of distance, with or without
    /// control.
    Show {
        object: u32,
        kind: u8,
        block: u8,
        level: u8,
        control: bool,
    },
    /// Period `n` ends.
    Hide {
        n: u32,
    },
    /// The object of period `n` is at this level of distance now.
    Near {
        n: u32,
        level: u8,
    },
    /// The server posts an event.
    Post {
        class: Class,
        payload: Payload,
    },
}
