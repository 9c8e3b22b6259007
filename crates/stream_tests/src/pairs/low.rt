//! The same of version 2 of the datagrams, whose updates have no kind and are read by what the slot holds.
use super::Step;
use tn_types::Drain;

/// Field 0 of period 0 changed: the tick of a clock, or where a player stands.
const FIRST_FIELD: Option<Drain> = Some(Drain { n: 0, bits: 1 });

/// Block 0 alone in the server's first packet, and the client's first, which tells that it came.
const BLOCK: &[u8] = &[
    0x40, 0, 0, 0, 0, 0, 0, 0, 0, 0, 0, 0, 0, 0x80, 0, 0x82, 0x30, 0, 0,
];

const BLOCK_CAME: &[u8] = &[0x40, 0, 0, 0x40, 0, 0, 0x40, 0, 0, 0, 0, 0, 0, 0, 0, 0];

const SECOND_CAME: &[u8] = &[0x80, 0, 0, 0x80, 0, 0, 0xc0, 0, 0, 0, 0, 0, 0, 0, 0, 0];

/// A guaranteed event, `hi`, whose number has seven bits.
pub(super) const EVENT: [Step; 8] = [
    Step::Pack(None, &[], BLOCK),
    Step::Down(0),
    Step::ClientPack(BLOCK_CAME),
    Step::Up(0, 0),
    Step::Post(b"hi"),
    Step::Pack(
        None,
        &[],
        &[
            0x80, 0, 0, 0x40, 0, 0, 0x40, 0, 0, 0, 0, 0, 0, 0, 8, 1, 2, 0x2d, 0x0d, 0,
        ],
    ),
    Step::Down(1),
    Step::Handed(b"hi"),
];

/// The third packet is lost after the fourth, which carries the same field, was sent.
pub(super) const LOW_SUPERSEDED: [Step; 19] = [
    Step::Show(5, false),
    Step::Pack(None, &[], BLOCK),
    Step::Down(0),
    Step::ClientPack(BLOCK_CAME),
    Step::Up(0, 0),
    Step::Pack(
        None,
        &[0, 0, 0],
        &[
            0x80, 0, 0, 0x40, 0, 0, 0x40, 0, 0, 0, 0, 0, 0, 0, 0, 1, 0, 0x15, 0, 0, 0, 0, 0, 0,
        ],
    ),
    Step::Down(1),
    Step::ClientPack(SECOND_CAME),
    Step::Up(1, 0),
    Step::Copy(0, Some((5, &[0, 0, 0]))),
    Step::Pack(
        FIRST_FIELD,
        &[1],
        &[
            0xc0, 0, 0, 0x80, 0, 0, 0xc0, 0, 0, 0, 0, 0, 0, 0, 0, 1, 0, 0x26, 0, 0, 0,
        ],
    ),
    Step::Pack(
        FIRST_FIELD,
        &[2],
        &[
            0, 1, 0, 0x80, 0, 0, 0xc0, 0, 0, 0, 0, 0, 0, 0, 0, 1, 0, 0x46, 0, 0, 0,
        ],
    ),
    Step::Settled(0, 0, false),
    Step::Down(3),
    Step::ClientPack(&[0xc0, 0, 0, 0, 1, 0, 0x40, 3, 0, 0, 0, 0, 0, 0, 0, 0]),
    Step::Up(2, 0),
    Step::Settled(0, 0, true),
    Step::Pack(
        None,
        &[],
        &[0x40, 1, 0, 0xc0, 0, 0, 0xc0, 1, 0, 0, 0, 0, 0, 0, 0, 0],
    ),
    Step::Copy(0, Some((5, &[2, 0, 0]))),
];

/// A mine is hidden and shown again in another slot, and the datagram that brought it comes once more, when its slots have changed:
/// it is refused as old by its head.
pub(super) const OLD_BY_ITS_HEAD: [Step; 32] = [
    Step::Show(0, true),
    Step::Show(2, false),
    Step::Pack(None, &[], BLOCK),
    Step::Down(0),
    Step::ClientPack(BLOCK_CAME),
    Step::Up(0, 0),
    Step::Pack(
        None,
        &[1_000, 1_000, 100, 20, 0, 1_100, 1_000, 0],
        &[
            0x80, 0, 0, 0x40, 0, 0, 0x40, 0, 0, 0, 0, 0, 0, 0, 0, 2, 0, 1, 0x80, 0x3e, 0x80, 0x3e,
            0xf0, 0xff, 0, 1, 9, 0xc0, 0x44, 0x80, 0x3e, 0,
        ],
    ),
    Step::Down(1),
    Step::ClientPack(SECOND_CAME),
    Step::Up(1, 0),
    Step::West,
    Step::ClientPack(&[
        0xc0, 0, 0, 0x80, 0, 0, 0xc0, 0, 0, 0, 0, 0, 0, 0x40, 0x70, 8, 0,
    ]),
    Step::Up(2, 1),
    Step::Hide(1),
    Step::Pack(
        FIRST_FIELD,
        &[975],
        &[
            0xc0, 0, 0, 0xc0, 0, 0, 0xc0, 1, 0, 0, 0x40, 0, 0, 0x40, 0, 0, 2, 1, 0, 0x18, 0x9e, 7,
            0,
        ],
    ),
    Step::East,
    Step::ClientPack(&[
        0, 1, 0, 0x80, 0, 0, 0xc0, 0, 0, 0, 0, 0, 0, 0x80, 0x70, 0x48, 0x22, 0,
    ]),
    Step::Up(3, 1),
    Step::Show(2, false),
    Step::Pack(
        FIRST_FIELD,
        &[1_000, 1_100, 1_000, 0],
        &[
            0, 1, 0, 0, 1, 0, 0xc0, 3, 0, 0, 0x80, 0, 0, 0x40, 0, 0, 2, 0, 6, 0xf4, 1, 0x81, 4,
            0x60, 0x22, 0x40, 0x1f, 0,
        ],
    ),
    Step::Down(3),
    Step::ClientPack(&[0x40, 1, 0, 0, 1, 0, 0x40, 3, 0, 0, 0x80, 0, 0, 0, 0, 0]),
    Step::Up(4, 0),
    Step::Pack(
        None,
        &[],
        &[
            0x40, 1, 0, 0x40, 1, 0, 0xc0, 7, 0, 0, 0x80, 0, 0, 0x40, 0, 0, 1, 1, 0,
        ],
    ),
    Step::Down(4),
    Step::ClientPack(&[0x80, 1, 0, 0x40, 1, 0, 0xc0, 6, 0, 0, 0x80, 0, 0, 0, 0, 0]),
    Step::Up(5, 0),
    Step::Slot(2, Some(2)),
    Step::Copy(1, None),
    Step::OldDown(3),
    Step::Copy(1, None),
    Step::Slot(2, Some(2)),
];
