//! What is done to a pair, and what it answers.

use conn_packing::stream_manager::{ArriveFault, ClientFault};
use event_manager::PostFault;
use move_manager::MoveFault;
use tn_types::{Class, MoveBits, PacketKind, Payload, RawBytes};

/// One step of a pair. Each has the condition of the call of an end that it names (docs/connection.md).
#[derive(Drop)]
pub enum PairStep {
    /// A period of an object begins at the server: of this kind, with this datablock, at this level of distance from 0 to 3,
    /// with or without control. It answers `Period`.
    Show {
        kind: u8,
        block: u8,
        level: u8,
        control: bool,
    },
    /// Period `n` ends. It answers `Done`.
    Hide {
        n: u32,
    },
    /// The object of period `n` is at this level of distance now. It answers `Done`.
    Near {
        n: u32,
        level: u8,
    },
    /// The server posts an event. It answers `Posted` or `PostRefused` where it is guaranteed, else `Loose`.
    Post {
        class: Class,
        payload: Payload,
    },
    /// The client posts one. The same answers.
    ClientPost {
        class: Class,
        payload: Payload,
    },
    /// The client takes up a move of its player. It answers `Sampled` or `MoveRefused`.
    Sample {
        m: MoveBits,
    },
    /// The server makes its next datagram. It is made by `Pair::pack`, which knows the values; no step of this kind is given.
    Pack,
    /// The client makes its next datagram. It answers `Packed` or `Worn`.
    ClientPack,
    /// The client gets the server's datagram of place `k`, counted from 0. It answers `NotSent`, `ClientRefused` or `Came`.
    Down {
        k: u32,
    },
    /// The server gets the client's datagram of place `k`, where `room` further moves have a place. It answers `NotSent`,
    /// `ServerRefused` or `Came`.
    Up {
        k: u32,
        room: u32,
    },
    /// The server gets bytes that nobody need have sent. It answers `ServerRefused` or `Came`.
    Raw {
        bytes: RawBytes,
        room: u32,
    },
}

/// What a step answers.
#[derive(Drop)]
pub enum Answer {
    /// It was done.
    Done,
    /// The object is shown in the period of this number: how many were shown before.
    Period { n: u32 },
    /// The guaranteed event got this number.
    Posted { number: u32 },
    /// The unguaranteed event waits, and this one, the oldest, was dropped for it, where 64 waited.
    Loose { dropped: Option<Payload> },
    /// The event was not posted, and nothing changed.
    PostRefused(PostFault),
    /// The move got this number.
    Sampled { number: u32 },
    /// The move was not taken up, and nothing changed.
    MoveRefused(MoveFault),
    /// A datagram was made, of this place that way, counted from 0.
    Packed { kind: PacketKind, place: u32 },
    /// Nothing was made: as many data packets as the connection's life were sent.
    Worn { life: u32 },
    /// The datagram was taken, and so many moves are newly accepted.
    Came { moves: u32 },
    /// The server refused it, and nothing changed.
    ServerRefused(ArriveFault),
    /// The client refused it, and nothing changed.
    ClientRefused(ClientFault),
    /// Nothing of place `k` was sent; so many were.
    NotSent { k: u32, sent: u32 },
}
