//! What a packet did, and what was read, drained and chosen for it.

/// Memory was not to be had.
#[derive(Clone, Copy, Debug, PartialEq, Eq)]
pub struct NoMemory;

/// What a packet is.
#[derive(Clone, Copy, Debug, PartialEq, Eq)]
pub enum PacketKind {
    /// A header alone, which tells what came and is not acknowledged itself.
    Ping,
    /// A data packet: it has a number of its own, and a body after the header.
    Body,
}

/// What a ghost item of a packet does to a slot.
#[derive(Clone, Copy, Debug, PartialEq, Eq)]
pub enum Op {
    /// The object left the client's scope.
    Kill,
    /// The object came into scope, with all its fields.
    Create,
    /// Some fields of the object have new values.
    Update,
}

/// What became of a packet: said once for each, and for good.
#[derive(Clone, Copy, Debug, PartialEq, Eq)]
pub enum Verdict {
    /// The other end processed it.
    Received,
    /// The other end did not process it and never will.
    Lost,
}

/// How an event is sent.
#[derive(Clone, Copy, Debug, PartialEq, Eq)]
pub enum Class {
    /// Numbered, sent again until it is received, delivered in order.
    Guaranteed,
    /// Sent once, delivered as it comes.
    Loose,
}

/// An end of a connection.
#[derive(Clone, Copy, Debug, PartialEq, Eq)]
pub enum End {
    /// It shows objects, and sends what they are.
    Server,
    /// It has copies of what it was sent, and sends moves.
    Client,
}

/// The dirty fields of period `n` that a pack took: bit f for field f.
#[derive(Clone, Copy, Debug, PartialEq, Eq)]
pub struct Drain {
    /// The period's number.
    pub n: u32,
    /// The fields.
    pub bits: u32,
}

/// A value that a pack read of a field of period `n`, with the number of writes that came before it.
#[derive(Clone, Copy, Debug, PartialEq, Eq)]
pub struct Read {
    /// The period's number.
    pub n: u32,
    /// The field's place among those of the object.
    pub field: u8,
    /// How many writes came before it.
    pub version: u32,
    /// What was read.
    pub value: i64,
}

/// A ghost item that a plan chose: period `n` in its slot, and the fields that it carries (bit f for field f).
#[derive(Clone, Copy, Debug, PartialEq, Eq)]
pub struct Choice {
    /// The period's number.
    pub n: u32,
    /// The slot that it holds.
    pub slot: u8,
    /// What the item does to the slot.
    pub op: Op,
    /// The fields.
    pub mask: u32,
}
