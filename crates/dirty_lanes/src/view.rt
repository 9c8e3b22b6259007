//! What a seat knows, as plain data: its own steps, the newest first.
//!
//! Contracts alone speak of these types. No value of them is made.

use std::collections::LinkedList;

/// The simulation wrote a value.
pub struct WrittenField {
    pub object: u32,
    pub field: u8,
    pub value: u32,
}

/// The simulation raised bits for one client.
pub struct RaisedBits {
    pub client: u8,
    pub object: u32,
    pub bits: u32,
}

/// A step of the simulation.
pub enum SimStep {
    Write(WrittenField),
    Raise(RaisedBits),
}

/// A packer took the bits of an object.
pub struct DrainedBits {
    pub object: u32,
    pub bits: u32,
}

/// A packer read a field.
pub struct ReadField {
    pub object: u32,
    pub field: u8,
    pub version: u32,
    pub value: u32,
}

/// A step of a packer.
pub enum PackStep {
    Drain(DrainedBits),
    Read(ReadField),
}

/// What the packer of a client knows.
pub struct PackView {
    pub client: u8,
    pub steps: LinkedList<PackStep>,
}

/// What the simulation knows. Clients below `left` have no seat yet; `joined` are the packers that were joined at
/// the end.
pub struct SimView {
    pub left: u32,
    pub joined: LinkedList<PackView>,
    pub steps: LinkedList<SimStep>,
}

/// What a seat of the table knows. A seat that was joined is spent.
pub enum View {
    Spent,
    Sim(SimView),
    Packer(PackView),
}

/// How many seats were given, of how many.
pub struct GivenSeats {
    pub next: u8,
    pub clients: u32,
}
