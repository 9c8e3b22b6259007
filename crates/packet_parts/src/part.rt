//! What a part of a datagram is.
ghost use Rattle.std.specs.Prelude.{◌≡◌, ◌++◌, ◌∷◌, [], OnOk, OnErr};

use std::alloc::Global;
use std::marker::Model;
use tn_types::NoMemory;

/// What a part is (docs/wire.md, "Datagrams").
#[derive(Clone, Copy, Debug, PartialEq, Eq)]
pub enum PartName {
    /// Whether the packet is data or a ping.
    Kind,
    /// The client of the connection.
    Client,
    /// The packet's number.
    Seq,
    /// The greatest number of the other side that the sender processed or skipped.
    Horizon,
    /// Which packets up to the horizon the sender processed.
    Mask,
    /// How many moves the server accepted.
    Accepted,
    /// Whether the slot of the client's own player follows.
    ControlFlag,
    /// The slot of the client's own player.
    ControlSlot,
    /// How many datablocks follow.
    BlockCount,
    /// The number of a datablock.
    BlockNumber,
    /// How many bytes a datablock has.
    BlockLength,
    /// A byte of a datablock.
    BlockByte,
    /// How many events follow.
    EventCount,
    /// Whether the number of an event follows.
    EventFlag,
    /// The number of an event, from version 2 on its lowest bits.
    EventNumber,
    /// How many bytes an event has.
    EventLength,
    /// A byte of an event.
    EventByte,
    /// How many ghosts follow.
    GhostCount,
    /// The slot of a ghost.
    Slot,
    /// What is done to the slot.
    Op,
    /// The number of a ghost's kind.
    GhostKind,
    /// The datablock of a created ghost.
    GhostBlock,
    /// Which fields of this kind follow.
    FieldMask { kind: u8 },
    /// The level of a field of this kind.
    Level { kind: u8, field: u8 },
    /// The number of the first move.
    FirstMove,
    /// How many moves follow.
    MoveCount,
    /// A step to the right, raised by 8.
    StepX,
    /// A step up, raised by 8.
    StepY,
    /// Whether a move fires.
    Fire,
    /// Whether a move uses.
    Use,
    /// In version 3 the lowest bits of a move, at most 32.
    MoveLow,
    /// In version 3 the further bits of a move that has more than 32.
    MoveHigh,
}

/// A number of a datagram: where it begins, how many bits it has, what it is, and the number itself.
#[derive(Clone, Copy, Debug, PartialEq, Eq)]
pub struct Part {
    /// The bit at which it begins, counted from 0.
    pub bit: u32,
    /// How many bits it has.
    pub width: u32,
    pub name: PartName,
    /// The number as it stands in the bits: of a level the level.
    pub value: u32,
}

/// Parts one after the other, which contracts see as their list.
#[derive(Drop)]
pub struct PartList {
    parts: Vec<Part>,
}

impl Model for PartList {
    ghost use Rattle.std.specs.Prelude.{List};
    ghost use Rattle.packet_parts.specs.declared.part.Part.{Part};

    ghost Value = { List Part };

    ghost view = { λ l. l.parts.items };
}

impl PartList {
    /// No part. Takes no memory.
    pub fn new(alloc: Global) -> PartList
        ensures { result ≡ [] }
    {
        PartList {
            parts: Vec::new(alloc),
        }
    }

    /// Adds a part at the end; for want of memory nothing is added.
    pub fn push(&mut self, part: Part) -> Result<(), NoMemory>
        ensures ok { OnOk result (self.new ≡ self.old ++ part ∷ []) }
        ensures err { OnErr result (self.new ≡ self.old) }
    {
        match self.parts.push(part) {
            Ok(()) => Ok(()),
            Err(_) => Err(NoMemory),
        }
    }

    /// The parts, lent.
    pub fn as_slice(&self) -> &[Part]
        ensures { result.now ≡ self.now }
    {
        self.parts.as_slice()
    }
}
