//! A refusal as numbers.
ghost use Rattle.std.specs.Prelude.{◌≡◌, true};
ghost use Rattle.tribes_ends.specs.Codes.{is_refusal, kinds_why, bits_why, ghost_why, server_why, client_why, why_of};

use crate::refusal::Refusal;
use event_manager::PostFault;
use ghost_client::GhostFault;
use move_manager::MoveFault;
use quantised_fields::KindFault;
use stream_manager::{ArriveFault, ClientFault};
use wire_format::{BitsCause, BitsFault};

/// A refusal as three numbers: what it is, and up to two that it names.
#[repr(C)]
#[derive(Clone, Copy, Debug, PartialEq, Eq)]
pub struct Why {
    /// One number for each refusal, below 0; 0 stands for none.
    pub code: i32,
    pub first: u32,
    pub second: u32,
}

fn told(code: i32, first: u32, second: u32) -> Why
    ensures { result ≡ record { code = code; first = first; second = second } }
{
    Why {
        code,
        first,
        second,
    }
}

fn kinds_why(fault: KindFault) -> Why
    ensures { result ≡ kinds_why fault }
{
    match fault {
        KindFault::TooManyKinds => told(-20, 0, 0),
        KindFault::NoKind => told(-21, 0, 0),
        KindFault::TooMany { kind } => told(-22, u32::from(kind), 0),
        KindFault::Empty { kind } => told(-23, u32::from(kind), 0),
        KindFault::BadRange { kind, field } => told(-24, u32::from(kind), u32::from(field)),
        KindFault::TooWide { kind } => told(-25, u32::from(kind), 0),
    }
}

fn bits_why(fault: BitsFault) -> Why
    ensures { result ≡ bits_why fault }
{
    match fault.cause {
        BitsCause::Short => told(-40, fault.place, 0),
        BitsCause::Padding => told(-41, fault.place, 0),
        BitsCause::KindBits => told(-42, fault.place, 0),
        BitsCause::OpBits => told(-43, fault.place, 0),
        BitsCause::CountBits => told(-44, fault.place, 0),
        BitsCause::LengthBits => told(-45, fault.place, 0),
        BitsCause::UnknownKind => told(-46, fault.place, 0),
        BitsCause::EmptyMask => told(-47, fault.place, 0),
        BitsCause::ZeroSeq => told(-48, fault.place, 0),
        BitsCause::UnknownSlot => told(-49, fault.place, 0),
    }
}

fn ghost_why(fault: GhostFault) -> Why
    ensures { result ≡ ghost_why fault }
{
    match fault {
        GhostFault::Twice { slot } => told(-60, u32::from(slot), 0),
        GhostFault::Unknown { slot } => told(-61, u32::from(slot), 0),
        GhostFault::Taken { slot } => told(-62, u32::from(slot), 0),
        GhostFault::KindDiffers { slot, held } => told(-63, u32::from(slot), u32::from(held)),
        GhostFault::BlockMissing { slot, block } => told(-64, u32::from(slot), u32::from(block)),
    }
}

fn server_why(fault: ArriveFault) -> Why
    ensures { result ≡ server_why fault }
{
    match fault {
        ArriveFault::Bits(fault) => bits_why(fault),
        ArriveFault::WrongClient { client } => told(-50, u32::from(client), 0),
        ArriveFault::Old { seq, horizon } => told(-51, seq, horizon),
        ArriveFault::AckAhead { horizon, last } => told(-52, horizon, last),
        ArriveFault::MoveGap { first, accepted } => told(-53, first, accepted),
        ArriveFault::EventAhead { number, delivered } => told(-56, number, delivered),
    }
}

fn client_why(fault: ClientFault) -> Why
    ensures { result ≡ client_why fault }
{
    match fault {
        ClientFault::Bits(fault) => bits_why(fault),
        ClientFault::WrongClient { client } => told(-50, u32::from(client), 0),
        ClientFault::Old { seq, horizon } => told(-51, seq, horizon),
        ClientFault::AckAhead { horizon, last } => told(-52, horizon, last),
        ClientFault::MoveAhead { count, sampled } => told(-54, count, sampled),
        ClientFault::BlockDiffers { number } => told(-55, u32::from(number), 0),
        ClientFault::EventAhead { number, delivered } => told(-56, number, delivered),
        ClientFault::Ghost(fault) => ghost_why(fault),
    }
}

impl Refusal {
    /// The refusal as numbers.
    pub fn why(&self) -> Why
        ensures below { is_refusal result.code ≡ true }
        ensures value { result ≡ why_of self.now }
    {
        match *self {
            Refusal::NoMemory => told(-3, 0, 0),
            Refusal::WrongEnd => told(-4, 0, 0),
            Refusal::BadClient { client } => told(-5, client, 0),
            Refusal::BadLife { life } => told(-16, life, 0),
            Refusal::BadVersion { version } => told(-18, version, 0),
            Refusal::BadMoveBits { move_bits } => told(-19, move_bits, 0),
            Refusal::BadSize { size } => told(-17, size, 0),
            Refusal::BadFieldCounts => told(-6, 0, 0),
            Refusal::BadBlocks => told(-7, 0, 0),
            Refusal::TooLong { most } => told(-8, most, 0),
            Refusal::NoRoom { needed } => told(-9, needed, 0),
            Refusal::NotPlanned => told(-10, 0, 0),
            Refusal::BadValues => told(-11, 0, 0),
            Refusal::EventsWait { count } => told(-12, count, 0),
            Refusal::NoCopy { slot } => told(-14, slot, 0),
            Refusal::BadKinds(fault) => kinds_why(fault),
            Refusal::NoKind { kind } => told(-30, kind, 0),
            Refusal::NoBlock { block } => told(-31, block, 0),
            Refusal::NoLevel { level } => told(-32, level, 0),
            Refusal::TooManyShown => told(-33, 0, 0),
            Refusal::ShowsWorn => told(-34, 0, 0),
            Refusal::HasControl => told(-35, 0, 0),
            Refusal::NotShown { n } => told(-36, n, 0),
            Refusal::NoField { n } => told(-37, n, 0),
            Refusal::AtServer(fault) => server_why(fault),
            Refusal::AtClient(fault) => client_why(fault),
            Refusal::EventsWorn { life } => told(-70, life, 0),
            Refusal::EventsFull { first, last } => told(-71, first, last),
            Refusal::MovesWorn { life } => told(-72, life, 0),
            Refusal::MovesFull { first, last } => told(-73, first, last),
            Refusal::MoveTooWide { width } => told(-74, width, 0),
        }
    }
}
