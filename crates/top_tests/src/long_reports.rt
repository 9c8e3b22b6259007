//! Scripts that are long by lines that come again, with their reports: full windows and lists, and the limits of a script.

use crate::served::Part::{self, Numbered, Times, Words};

const HEADER: Part = Words(
    "tribes 1
match 1 1 100 128 1000
go
",
);

// 33 packs of which the last makes a ping, and a datagram that comes after it.
const FULL_WINDOW: &str = "pack 0 0 data 40000000000000000000000000000000
pack 0 1 data 80000000000000000000000000000000
pack 0 2 data c0000000000000000000000000000000
pack 0 3 data 00010000000000000000000000000000
pack 0 4 data 40010000000000000000000000000000
pack 0 5 data 80010000000000000000000000000000
pack 0 6 data c0010000000000000000000000000000
pack 0 7 data 00020000000000000000000000000000
pack 0 8 data 40020000000000000000000000000000
pack 0 9 data 80020000000000000000000000000000
pack 0 10 data c0020000000000000000000000000000
pack 0 11 data 00030000000000000000000000000000
pack 0 12 data 40030000000000000000000000000000
pack 0 13 data 80030000000000000000000000000000
pack 0 14 data c0030000000000000000000000000000
pack 0 15 data 00040000000000000000000000000000
pack 0 16 data 40040000000000000000000000000000
pack 0 17 data 80040000000000000000000000000000
pack 0 18 data c0040000000000000000000000000000
pack 0 19 data 00050000000000000000000000000000
pack 0 20 data 40050000000000000000000000000000
pack 0 21 data 80050000000000000000000000000000
pack 0 22 data c0050000000000000000000000000000
pack 0 23 data 00060000000000000000000000000000
pack 0 24 data 40060000000000000000000000000000
pack 0 25 data 80060000000000000000000000000000
pack 0 26 data c0060000000000000000000000000000
pack 0 27 data 00070000000000000000000000000000
pack 0 28 data 40070000000000000000000000000000
pack 0 29 data 80070000000000000000000000000000
pack 0 30 data c0070000000000000000000000000000
pack 0 31 data 00080000000000000000000000000000
pack 0 32 ping 0108000000000000000000
down 0 32 ok
cpack 0 0 data 40000000080000000000000000000000
up 0 0 ok 0
pack 0 33 data 40080040000040000000000000000000
down 0 0 old 1 32
";

// 33 moves, two packs of the client, and both datagrams delivered: the 33rd move finds no place, and the second datagram has no
// new move.
const FULL_MOVES: &str = "move 0 full 0 31
cpack 0 0 data 4000000000000000000000000000984822892492482289249248228924924822892492482289249248228924924822892492482289240200
cpack 0 1 data 8000000000000000000000000000984822892492482289249248228924924822892492482289249248228924924822892492482289240200
up 0 0 ok 32
up 0 1 ok 0
show 0 events 0 sampled 32 accepted 32 taken 0 control - ghosts 0
";

// A clock that has ticked 1,000 times is shown, and received: the create has tick 1000, and the packet after it has no ghost.
const LATE_SHOW: &str = "scan 0 hide 0 near 0 show 1
pack 0 0 data 40000000000000000000000000800082300000
down 0 0 ok
cpack 0 0 data 40000040000040000000000000000000
up 0 0 ok 0
pack 0 1 data 800000400000400000000000000000010015803e00000000
down 0 1 ok
cpack 0 1 data 800000800000c0000000000000000000
up 0 1 ok 0
pack 0 2 data c00000800000c0000000000000000000
";

// Of 32 packs of one client that are never answered, the datagrams.
const UNANSWERED: &str = "pack 0 0 data 40000000000000000000000000000000
pack 0 1 data 80000000000000000000000000000000
pack 0 2 data c0000000000000000000000000000000
pack 0 3 data 00010000000000000000000000000000
pack 0 4 data 40010000000000000000000000000000
pack 0 5 data 80010000000000000000000000000000
pack 0 6 data c0010000000000000000000000000000
pack 0 7 data 00020000000000000000000000000000
pack 0 8 data 40020000000000000000000000000000
pack 0 9 data 80020000000000000000000000000000
pack 0 10 data c0020000000000000000000000000000
pack 0 11 data 00030000000000000000000000000000
pack 0 12 data 40030000000000000000000000000000
pack 0 13 data 80030000000000000000000000000000
pack 0 14 data c0030000000000000000000000000000
pack 0 15 data 00040000000000000000000000000000
pack 0 16 data 40040000000000000000000000000000
pack 0 17 data 80040000000000000000000000000000
pack 0 18 data c0040000000000000000000000000000
pack 0 19 data 00050000000000000000000000000000
pack 0 20 data 40050000000000000000000000000000
pack 0 21 data 80050000000000000000000000000000
pack 0 22 data c0050000000000000000000000000000
pack 0 23 data 00060000000000000000000000000000
pack 0 24 data 40060000000000000000000000000000
pack 0 25 data 80060000000000000000000000000000
pack 0 26 data c0060000000000000000000000000000
pack 0 27 data 00070000000000000000000000000000
pack 0 28 data 40070000000000000000000000000000
pack 0 29 data 80070000000000000000000000000000
pack 0 30 data c0070000000000000000000000000000
pack 0 31 data 00080000000000000000000000000000
";

/// Each with its name.
pub(crate) const LONG_REPORTS: [(&str, &[Part], &[Part]); 7] = [
    (
        "full_window",
        &[
            HEADER,
            Times(33, "pack 0\n"),
            Words("down 0 32\ncpack 0\nup 0 0\npack 0\ndown 0 0\n"),
        ],
        &[Words(FULL_WINDOW)],
    ),
    (
        "too_many_events",
        &[
            Words("tribes 1\nmatch 1 1 1000 128 1000\ngo\n"),
            Times(257, "post 0 g -\n"),
        ],
        &[
            Numbered(0, 256, "post 0 g ", "\n"),
            Words("post 0 full 0 255\n"),
        ],
    ),
    (
        "oldest_unguaranteed_event_is_dropped",
        &[HEADER, Words("post 0 u 00\n"), Times(64, "post 0 u 02\n")],
        &[Times(64, "post 0 u\n"), Words("post 0 u dropped 00\n")],
    ),
    (
        "moves_are_accepted_once",
        &[
            HEADER,
            Times(33, "move 0 1 0 0 0\n"),
            Words("cpack 0\ncpack 0\nup 0 0\nup 0 1\nshow 0\n"),
        ],
        &[Numbered(0, 32, "move 0 ", "\n"), Words(FULL_MOVES)],
    ),
    (
        "show_discards_old_writes",
        &[
            Words("tribes 1\nmatch 1 1 100 128 1000\nblock 61\nspawn clock 0 0 0 0\ngo\n"),
            Times(1000, "tick\n"),
            Words(
                "scan 0\npack 0\ndown 0 0\ncpack 0\nup 0 0\npack 0\ndown 0 1\ncpack 0\nup 0 1\npack 0\n",
            ),
        ],
        &[Numbered(1, 1000, "tick ", " writes 1\n"), Words(LATE_SHOW)],
    ),
    (
        "most_lines",
        &[HEADER, Times(100_000, "pack 0\n")],
        &[
            Words(UNANSWERED),
            Numbered(32, 99_968, "pack 0 ", " ping 0108000000000000000000\n"),
        ],
    ),
    (
        "most_bytes",
        &[HEADER, Times(95_321, "post 0 g -\n"), Times(2, "tick\n")],
        &[
            Numbered(0, 100, "post 0 g ", "\n"),
            Times(95_221, "post 0 worn 100\n"),
            Words("tick 1 writes 0\ntick 2 writes 0\n"),
        ],
    ),
];
