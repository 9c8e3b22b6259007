//! What is done in each row, and the datagrams that were worked out for it.
use super::Step;
use tn_types::Drain;

/// Field 0 of period 0 changed: the tick of a clock, or where a player stands.
const FIRST_FIELD: Option<Drain> = Some(Drain { n: 0, bits: 1 });

/// Block 0 alone in the server's first packet, and the client's first, which tells that it came.
const BLOCK: &[u8] = &[
    0x40, 0, 0, 0, 0, 0, 0, 0, 0, 0, 0, 0, 0, 0x80, 0, 0x82, 0x30, 0, 0,
];

const BLOCK_CAME: &[u8] = &[0x40, 0, 0, 0x40, 0, 0, 0x40, 0, 0, 0, 0, 0, 0, 0, 0, 0];

/// A clock in slot 0, and the client's second packet, which tells that the server's second one came.
const CLOCK: &[u8] = &[
    0x80, 0, 0, 0x40, 0, 0, 0x40, 0, 0, 0, 0, 0, 0, 0, 0, 1, 0, 0x15, 0, 0, 0, 0, 0, 0,
];

const SECOND_CAME: &[u8] = &[0x80, 0, 0, 0x80, 0, 0, 0xc0, 0, 0, 0, 0, 0, 0, 0, 0, 0];

/// An update of the clock in slot 0 to tick 1, and one to tick 2.
const FIRST_TICK: &[u8] = &[
    0xc0, 0, 0, 0x80, 0, 0, 0xc0, 0, 0, 0, 0, 0, 0, 0, 0, 1, 0, 0x56, 2, 0, 0, 0,
];

const SECOND_TICK: &[u8] = &[
    0, 1, 0, 0x80, 0, 0, 0xc0, 0, 0, 0, 0, 0, 0, 0, 0, 1, 0, 0x56, 4, 0, 0, 0,
];

/// The third packet is lost after the fourth, which carries the same field, was sent: the field isn't raised again.
pub(super) const SUPERSEDED: [Step; 19] = [
    Step::Show(5, false),
    Step::Pack(None, &[], BLOCK),
    Step::Down(0),
    Step::ClientPack(BLOCK_CAME),
    Step::Up(0, 0),
    Step::Pack(None, &[0, 0, 0], CLOCK),
    Step::Down(1),
    Step::ClientPack(SECOND_CAME),
    Step::Up(1, 0),
    Step::Copy(0, Some((5, &[0, 0, 0]))),
    Step::Pack(FIRST_FIELD, &[1], FIRST_TICK),
    Step::Pack(FIRST_FIELD, &[2], SECOND_TICK),
    Step::Settled(0, 0, false),
    Step::Down(3),
    // the server's fourth packet came, and not its third
    Step::ClientPack(&[0xc0, 0, 0, 0, 1, 0, 0x40, 3, 0, 0, 0, 0, 0, 0, 0, 0]),
    Step::Up(2, 0),
    Step::Settled(0, 0, true),
    Step::Pack(
        None,
        &[],
        &[0x40, 1, 0, 0xc0, 0, 0, 0xc0, 1, 0, 0, 0, 0, 0, 0, 0, 0],
    ),
    Step::Copy(0, Some((5, &[2, 0, 0]))),
];

/// The third and the fourth packet are lost: the field is raised, and sent again with its newest value.
pub(super) const RAISED: [Step; 17] = [
    Step::Show(5, false),
    Step::Pack(None, &[], BLOCK),
    Step::Down(0),
    Step::ClientPack(BLOCK_CAME),
    Step::Up(0, 0),
    Step::Pack(None, &[0, 0, 0], CLOCK),
    Step::Down(1),
    Step::ClientPack(SECOND_CAME),
    Step::Up(1, 0),
    Step::Pack(FIRST_FIELD, &[1], FIRST_TICK),
    Step::Pack(FIRST_FIELD, &[2], SECOND_TICK),
    Step::Pack(
        None,
        &[],
        &[0x40, 1, 0, 0x80, 0, 0, 0xc0, 0, 0, 0, 0, 0, 0, 0, 0, 0],
    ),
    Step::Down(4),
    // the server's fifth packet came, and neither its third nor its fourth
    Step::ClientPack(&[0xc0, 0, 0, 0x40, 1, 0, 0x40, 6, 0, 0, 0, 0, 0, 0, 0, 0]),
    Step::Up(2, 0),
    Step::Pack(
        FIRST_FIELD,
        &[3],
        &[
            0x80, 1, 0, 0xc0, 0, 0, 0xc0, 1, 0, 0, 0, 0, 0, 0, 0, 1, 0, 0x56, 6, 0, 0, 0,
        ],
    ),
    Step::Copy(0, Some((5, &[0, 0, 0]))),
];

/// The values of a player at (1000, 1000) and of a mine beside it, and the packet that creates them in slots 0 and 1.
const BOTH: &[i64] = &[1000, 1000, 100, 20, 0, 1100, 1000, 0];

const PLAYER_AND_MINE: &[u8] = &[
    0x80, 0, 0, 0x40, 0, 0, 0x40, 0, 0, 0, 0, 0, 0, 0, 0, 2, 0, 1, 0x80, 0x3e, 0x80, 0x3e, 0xf0,
    0xff, 0, 1, 9, 0xc0, 0x44, 0x80, 0x3e, 0,
];

/// The player goes west and back, so that the mine is hidden and shown again. The packet that kills it in slot 1 is lost, and
/// with it an update of the player: the mine is created in slot 2, for slot 1 is taken until the kill, sent again, came.
pub(super) const TAKEN: [Step; 36] = [
    Step::Show(0, true),
    Step::Show(2, false),
    Step::Pack(None, &[], BLOCK),
    Step::Down(0),
    Step::ClientPack(BLOCK_CAME),
    Step::Up(0, 0),
    Step::Pack(None, BOTH, PLAYER_AND_MINE),
    Step::Down(1),
    Step::ClientPack(SECOND_CAME),
    Step::Up(1, 0),
    Step::West,
    Step::ClientPack(&[
        0xc0, 0, 0, 0x80, 0, 0, 0xc0, 0, 0, 0, 0, 0, 0, 0x40, 0x70, 8, 0,
    ]),
    Step::Up(2, 1),
    Step::Hide(1),
    Step::Pack(
        FIRST_FIELD,
        &[975],
        &[
            0xc0, 0, 0, 0xc0, 0, 0, 0xc0, 1, 0, 0, 0x40, 0, 0, 0x40, 0, 0, 2, 1, 0, 8, 0xe1, 0x79,
            0,
        ],
    ),
    Step::East,
    Step::ClientPack(&[
        0, 1, 0, 0x80, 0, 0, 0xc0, 0, 0, 0, 0, 0, 0, 0x80, 0x70, 0x48, 0x22, 0,
    ]),
    Step::Up(3, 1),
    Step::Show(2, false),
    Step::Pack(
        FIRST_FIELD,
        &[1000, 1100, 1000, 0],
        &[
            0, 1, 0, 0, 1, 0, 0xc0, 3, 0, 0, 0x80, 0, 0, 0x40, 0, 0, 2, 0, 0x42, 0x40, 0x1f, 0x10,
            0x48, 0, 0x26, 2, 0xf4, 1,
        ],
    ),
    Step::Slot(1, Some(1)),
    Step::Slot(2, Some(2)),
    Step::Down(3),
    Step::Control(Some(0)),
    Step::ClientPack(&[0x40, 1, 0, 0, 1, 0, 0x40, 3, 0, 0, 0x80, 0, 0, 0, 0, 0]),
    Step::Up(4, 0),
    Step::Slot(1, Some(1)),
    Step::Pack(
        None,
        &[],
        &[
            0x40, 1, 0, 0x40, 1, 0, 0xc0, 7, 0, 0, 0x80, 0, 0, 0x40, 0, 0, 1, 1, 0,
        ],
    ),
    Step::Down(4),
    Step::ClientPack(&[0x80, 1, 0, 0x40, 1, 0, 0xc0, 6, 0, 0, 0x80, 0, 0, 0, 0, 0]),
    Step::Up(5, 0),
    Step::Slot(1, None),
    Step::Copy(0, Some((0, &[1000, 1000, 127, 31, 0]))),
    Step::Copy(1, None),
    Step::Copy(2, Some((2, &[1100, 1000, 0]))),
    Step::Settled(2, 1, true),
];

/// A player at (1000, 1000) in slot 0 and a mine beside it in slot 1; a move comes, and the mine is hidden. The packet with
/// both is lost: the mine is over and its slot free, and the player comes again, from where it is now.
pub(super) const HIDDEN: [Step; 18] = [
    Step::Show(0, true),
    Step::Show(2, false),
    Step::Pack(None, &[], BLOCK),
    Step::Down(0),
    Step::ClientPack(BLOCK_CAME),
    Step::Up(0, 0),
    Step::Pack(None, BOTH, PLAYER_AND_MINE),
    Step::West,
    Step::ClientPack(&[
        0x80, 0, 0, 0x40, 0, 0, 0x40, 0, 0, 0, 0, 0, 0, 0x40, 0x70, 8, 0,
    ]),
    Step::Up(1, 1),
    Step::Hide(1),
    Step::Slot(1, Some(1)),
    Step::Pack(
        FIRST_FIELD,
        &[],
        &[0xc0, 0, 0, 0x80, 0, 0, 0xc0, 0, 0, 0, 0x40, 0, 0, 0, 0, 0],
    ),
    Step::Down(2),
    Step::ClientPack(&[0xc0, 0, 0, 0xc0, 0, 0, 0x40, 1, 0, 0, 0x40, 0, 0, 0, 0, 0]),
    Step::Up(2, 0),
    Step::Slot(1, None),
    Step::Pack(
        None,
        &[975, 1000, 100, 20, 0],
        &[
            0, 1, 0, 0xc0, 0, 0, 0xc0, 1, 0, 0, 0x40, 0, 0, 0, 0, 1, 0, 1, 0xf0, 0x3c, 0x80, 0x3e,
            0xf0, 0xff, 0,
        ],
    ),
];

/// The player in slot 0 and the mines in slots 1 to 15, as many as have room.
const FIRST_SHARE: &[u8] = &[
    0x80, 0, 0, 0x40, 0, 0, 0x40, 0, 0, 0, 0, 0, 0, 0, 0, 0x10, 0, 1, 0x80, 0x3e, 0x80, 0x3e, 0xf0,
    0xff, 0, 1, 9, 0x80, 0x3e, 0x80, 0x3e, 0x40, 0x20, 1, 0xd0, 7, 0xd0, 7, 0x0c, 0x24, 0, 0xfa, 0,
    0xfa, 0, 0x82, 4, 0x40, 0x1f, 0x40, 0x1f, 0x50, 0x90, 0, 0xe8, 3, 0xe8, 3, 0x0c, 0x12, 0, 0x7d,
    0, 0x7d, 0xc0, 0x41, 2, 0xa0, 0x0f, 0xa0, 0x0f, 0x40, 0x48, 0, 0xf4, 1, 0xf4, 1, 9, 9, 0x80,
    0x3e, 0x80, 0x3e, 0x40, 0x21, 1, 0xd0, 7, 0xd0, 7, 0x2c, 0x24, 0, 0xfa, 0, 0xfa, 0, 0x86, 4,
    0x40, 0x1f, 0x40, 0x1f, 0xd0, 0x90, 0, 0xe8, 3, 0xe8, 3, 0x1c, 0x12, 0, 0x7d, 0, 0x7d, 0xc0,
    0x43, 2, 0xa0, 0x0f, 0xa0, 0x0f, 0,
];

/// The mines in slots 16 to 20.
const SECOND_SHARE: &[u8] = &[
    0xc0, 0, 0, 0x40, 0, 0, 0x40, 0, 0, 0, 0, 0, 0, 0, 0, 5, 0x10, 9, 0x80, 0x3e, 0x80, 0x3e, 0x20,
    0x22, 1, 0xd0, 7, 0xd0, 7, 0x48, 0x24, 0, 0xfa, 0, 0xfa, 0x80, 0x89, 4, 0x40, 0x1f, 0x40, 0x1f,
    0x40, 0x91, 0, 0xe8, 3, 0xe8, 3, 0,
];

/// Of a player and twenty mines at one place the player comes first, and then the mines by slot.
pub(super) const SHARED: [Step; 27] = [
    Step::Show(0, true),
    Step::Show(2, false),
    Step::Show(2, false),
    Step::Show(2, false),
    Step::Show(2, false),
    Step::Show(2, false),
    Step::Show(2, false),
    Step::Show(2, false),
    Step::Show(2, false),
    Step::Show(2, false),
    Step::Show(2, false),
    Step::Show(2, false),
    Step::Show(2, false),
    Step::Show(2, false),
    Step::Show(2, false),
    Step::Show(2, false),
    Step::Show(2, false),
    Step::Show(2, false),
    Step::Show(2, false),
    Step::Show(2, false),
    Step::Show(2, false),
    Step::Pack(None, &[], BLOCK),
    Step::Down(0),
    Step::ClientPack(BLOCK_CAME),
    Step::Up(0, 0),
    Step::Pack(
        None,
        &[
            1000, 1000, 100, 20, 0, 1000, 1000, 0, 1000, 1000, 0, 1000, 1000, 0, 1000, 1000, 0,
            1000, 1000, 0, 1000, 1000, 0, 1000, 1000, 0, 1000, 1000, 0, 1000, 1000, 0, 1000, 1000,
            0, 1000, 1000, 0, 1000, 1000, 0, 1000, 1000, 0, 1000, 1000, 0, 1000, 1000, 0,
        ],
        FIRST_SHARE,
    ),
    Step::Pack(
        None,
        &[
            1000, 1000, 0, 1000, 1000, 0, 1000, 1000, 0, 1000, 1000, 0, 1000, 1000, 0,
        ],
        SECOND_SHARE,
    ),
];
