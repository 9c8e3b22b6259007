//! Why a call did nothing.

use event_manager::PostFault;
use move_manager::MoveFault;
use quantised_fields::KindFault;
use stream_manager::{ArriveFault, ClientFault};
use tn_types::NoMemory;

/// Why a call did nothing, the first of its tests that failed.
#[derive(Clone, Copy, Debug, PartialEq, Eq)]
pub enum Refusal {
    /// Memory was not to be had.
    NoMemory,
    /// The call is for the other end.
    WrongEnd,
    /// The client's number is above 15.
    BadClient { client: u32 },
    /// The life is 0, or above 16,777,215.
    BadLife { life: u32 },
    /// The version is none of 1 to 3.
    BadVersion { version: u32 },
    /// A move's bits are none of 1 to 64, or not the ten of versions 1 and 2.
    BadMoveBits { move_bits: u32 },
    /// The size is above 1,200, below 128, or below what 32 moves and an event need.
    BadSize { size: u32 },
    /// The kinds make no table.
    BadKinds(KindFault),
    /// The counts of fields of the kinds are not those of the fields.
    BadFieldCounts,
    /// There are more than 64 blocks, one has more than 40 bytes, or their lengths are not those of the bytes.
    BadBlocks,
    /// More bytes than there may be: at most `most`.
    TooLong { most: u32 },
    /// The place for an answer is too small: it has to have `needed`.
    NoRoom { needed: u32 },
    /// The table has no kind of this number.
    NoKind { kind: u32 },
    /// The connection has no block of this number.
    NoBlock { block: u32 },
    /// The level of distance is above 3.
    NoLevel { level: u32 },
    /// As many objects are shown as may be.
    TooManyShown,
    /// As many periods were shown as a connection has in its life.
    ShowsWorn,
    /// An object that is shown has control already.
    HasControl,
    /// No period of this number is shown.
    NotShown { n: u32 },
    /// A bit is of no field of the period's kind.
    NoField { n: u32 },
    /// Nothing is planned, or something changed since.
    NotPlanned,
    /// The values are not as many as were asked for, or one is out of its field's range.
    BadValues,
    /// So many events that came in wait to be handed out first.
    EventsWait { count: u32 },
    /// No copy is in the slot.
    NoCopy { slot: u32 },
    /// As many events were posted as a connection has in its life.
    EventsWorn { life: u32 },
    /// These events are unacknowledged, as many as may be.
    EventsFull { first: u32, last: u32 },
    /// A bit of the move is set above those that are written, of which there are so many.
    MoveTooWide { width: u32 },
    /// As many moves were sampled as a connection has in its life.
    MovesWorn { life: u32 },
    /// These moves are unacknowledged, as many as may be.
    MovesFull { first: u32, last: u32 },
    /// The server's end refused a datagram.
    AtServer(ArriveFault),
    /// The client's end refused a datagram.
    AtClient(ClientFault),
}

impl From<NoMemory> for Refusal {
    ghost use Rattle.std.specs.Prelude.{◌≡◌};
    ghost use Rattle.tribes_ends.specs.declared.refusal.Refusal.TheVariants as refused;

    ghost from_gives = { λ fault refusal. refusal ≡ refused.NoMemory };

    fn from(_: NoMemory) -> Refusal {
        Refusal::NoMemory
    }
}

impl From<PostFault> for Refusal {
    ghost use Rattle.std.specs.Prelude.{◌≡◌};
    ghost use Rattle.tribes_ends.specs.Codes.{post_refusal};

    ghost from_gives = { λ fault refusal. refusal ≡ post_refusal fault };

    fn from(fault: PostFault) -> Refusal {
        match fault {
            PostFault::Worn { life } => Refusal::EventsWorn { life },
            PostFault::Full { first, last } => Refusal::EventsFull { first, last },
        }
    }
}

impl From<MoveFault> for Refusal {
    ghost use Rattle.std.specs.Prelude.{◌≡◌};
    ghost use Rattle.tribes_ends.specs.Codes.{move_refusal};

    ghost from_gives = { λ fault refusal. refusal ≡ move_refusal fault };

    fn from(fault: MoveFault) -> Refusal {
        match fault {
            MoveFault::TooWide { width } => Refusal::MoveTooWide { width },
            MoveFault::Worn { life } => Refusal::MovesWorn { life },
            MoveFault::Full { first, last } => Refusal::MovesFull { first, last },
        }
    }
}
