//! Moves of a game's own in version 3 of the datagrams.
use super::Step;
use move_manager::MoveFault;

/// Moves of 40 bits: one is sent twice, since the first packet is lost, and each is taken once, bit for bit. One with a further bit is
/// refused.
pub(super) const OWN_MOVES: [Step; 12] = [
    Step::Sample(0x12_3456_789a, None),
    Step::Sample(1 << 40, Some(MoveFault::TooWide { width: 40 })),
    Step::ClientPack(&[
        0x40, 0, 0, 0, 0, 0, 0, 0, 0, 0, 0, 0, 0, 0x40, 0xa0, 0x89, 0x67, 0x45, 0x23, 1, 0,
    ]),
    Step::Sample(0xfe_dcba_9876, None),
    Step::ClientPack(&[
        0x80, 0, 0, 0, 0, 0, 0, 0, 0, 0, 0, 0, 0, 0x80, 0xa0, 0x89, 0x67, 0x45, 0x23, 0x61, 0x87,
        0xa9, 0xcb, 0xed, 0x0f, 0,
    ]),
    Step::Up(1, 2),
    Step::Took(&[0x12_3456_789a, 0xfe_dcba_9876]),
    Step::Pack(
        None,
        &[],
        &[
            0x40, 0, 0, 0x80, 0, 0, 0x40, 0, 0, 0, 0x80, 0, 0, 0x80, 0, 0x82, 0x30, 0, 0,
        ],
    ),
    Step::Down(0),
    Step::Sample(0, None),
    Step::ClientPack(&[
        0xc0, 0, 0, 0x40, 0, 0, 0x40, 0, 0, 0, 0x80, 0, 0, 0x40, 0, 0, 0, 0, 0, 0, 0,
    ]),
    Step::Up(2, 1),
];

/// A move may be a flag alone.
pub(super) const FLAGS: [Step; 7] = [
    Step::Sample(1, None),
    Step::Sample(0, None),
    Step::Sample(1, None),
    Step::Sample(2, Some(MoveFault::TooWide { width: 1 })),
    Step::ClientPack(&[0x40, 0, 0, 0, 0, 0, 0, 0, 0, 0, 0, 0, 0, 0xc0, 0x50, 0]),
    Step::Up(0, 3),
    Step::Took(&[1, 0, 1]),
];

/// A move of 64 bits, of which the first and the last are set.
pub(super) const WIDEST: [Step; 4] = [
    Step::Sample(0x8000_0000_0000_0001, None),
    Step::ClientPack(&[
        0x40, 0, 0, 0, 0, 0, 0, 0, 0, 0, 0, 0, 0, 0x40, 0x10, 0, 0, 0, 0, 0, 0, 0, 8, 0,
    ]),
    Step::Up(0, 1),
    Step::Took(&[0x8000_0000_0000_0001]),
];
