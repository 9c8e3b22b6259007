//! Scripts with a world, scans and ghosts, with the reports that were worked out for them.

/// Scripts and their reports.
pub(crate) const WORLD_ROWS: [(&str, &str, &str); 9] = [
    (
        "disc_flies",
        "tribes 1
match 1 1 100 128 1000
block 61
player 0 0 0 1000 1000
go
move 0 0 0 1 0
cpack 0
up 0 0
tick
tick
world
",
        "move 0 0
cpack 0 0 data 4000000000000000000000000040801800
up 0 0 ok 1
tick 1 writes 1
tick 2 writes 1
world 2 | 0 player 1000 1000 100 19 0 | 1 disc 1800 1000
",
    ),
    (
        "lost_update_superseded",
        "tribes 1
match 1 1 100 128 1000
block 61
spawn clock 0 0 0 0
go
scan 0
pack 0
down 0 0
cpack 0
up 0 0
pack 0
down 0 1
cpack 0
up 0 1
tick
pack 0
tick
pack 0
down 0 3
cpack 0
up 0 2
pack 0
show 0
",
        "scan 0 hide 0 near 0 show 1
pack 0 0 data 40000000000000000000000000800082300000
down 0 0 ok
cpack 0 0 data 40000040000040000000000000000000
up 0 0 ok 0
pack 0 1 data 800000400000400000000000000000010015000000000000
down 0 1 ok
cpack 0 1 data 800000800000c0000000000000000000
up 0 1 ok 0
tick 1 writes 1
pack 0 2 data c00000800000c0000000000000000001005602000000
tick 2 writes 1
pack 0 3 data 000100800000c0000000000000000001005604000000
down 0 3 ok
cpack 0 2 data c0000000010040030000000000000000
up 0 2 ok 0
pack 0 4 data 400100c00000c0010000000000000000
show 0 events 0 sampled 0 accepted 0 taken 0 control - ghosts 1 | 0 clock 0 2s 0s 0s
",
    ),
    (
        "lost_update_raised_again",
        "tribes 1
match 1 1 100 128 1000
block 61
spawn clock 0 0 0 0
go
scan 0
pack 0
down 0 0
cpack 0
up 0 0
pack 0
down 0 1
cpack 0
up 0 1
tick
pack 0
tick
pack 0
pack 0
down 0 4
cpack 0
up 0 2
tick
pack 0
",
        "scan 0 hide 0 near 0 show 1
pack 0 0 data 40000000000000000000000000800082300000
down 0 0 ok
cpack 0 0 data 40000040000040000000000000000000
up 0 0 ok 0
pack 0 1 data 800000400000400000000000000000010015000000000000
down 0 1 ok
cpack 0 1 data 800000800000c0000000000000000000
up 0 1 ok 0
tick 1 writes 1
pack 0 2 data c00000800000c0000000000000000001005602000000
tick 2 writes 1
pack 0 3 data 000100800000c0000000000000000001005604000000
pack 0 4 data 400100800000c0000000000000000000
down 0 4 ok
cpack 0 2 data c0000040010040060000000000000000
up 0 2 ok 0
tick 3 writes 1
pack 0 5 data 800100c00000c0010000000000000001005606000000
",
    ),
    (
        "hidden_before_create_received",
        "tribes 1
match 1 1 100 128 100
block 61
player 0 0 0 1000 1000
spawn mine 0 0 1100 1000
go
scan 0
pack 0
down 0 0
cpack 0
up 0 0
pack 0
move 0 -1 0 0 0
cpack 0
up 0 1
tick
scan 0
pack 0
down 0 2
cpack 0
up 0 2
pack 0
",
        "scan 0 hide 0 near 0 show 2
pack 0 0 data 40000000000000000000000000800082300000
down 0 0 ok
cpack 0 0 data 40000040000040000000000000000000
up 0 0 ok 0
pack 0 1 data 800000400000400000000000000000020001803e803ef0ff000109c044803e00
move 0 0
cpack 0 1 data 8000004000004000000000000040700800
up 0 1 ok 1
tick 1 writes 1
scan 0 hide 1 near 0 show 0
pack 0 2 data c00000800000c0000000400000000000
down 0 2 ok
cpack 0 2 data c00000c0000040010000400000000000
up 0 2 ok 0
pack 0 3 data 000100c00000c00100004000000000010001f03c803ef0ff00
",
    ),
    (
        "slot_taken_until_kill_received",
        "tribes 1
match 1 1 100 128 100
block 61
player 0 0 0 1000 1000
spawn mine 0 0 1100 1000
go
scan 0
pack 0
down 0 0
cpack 0
up 0 0
pack 0
down 0 1
cpack 0
up 0 1
move 0 -1 0 0 0
cpack 0
up 0 2
tick
scan 0
pack 0
move 0 1 0 0 0
cpack 0
up 0 3
tick
scan 0
pack 0
down 0 3
cpack 0
up 0 4
pack 0
down 0 4
cpack 0
up 0 5
show 0
",
        "scan 0 hide 0 near 0 show 2
pack 0 0 data 40000000000000000000000000800082300000
down 0 0 ok
cpack 0 0 data 40000040000040000000000000000000
up 0 0 ok 0
pack 0 1 data 800000400000400000000000000000020001803e803ef0ff000109c044803e00
down 0 1 ok
cpack 0 1 data 800000800000c0000000000000000000
up 0 1 ok 0
move 0 0
cpack 0 2 data c00000800000c000000000000040700800
up 0 2 ok 1
tick 1 writes 1
scan 0 hide 1 near 0 show 0
pack 0 2 data c00000c00000c001000040000040000002010008e17900
move 0 1
cpack 0 3 data 000100800000c00000000000008070482200
up 0 3 ok 1
tick 2 writes 1
scan 0 hide 0 near 0 show 1
pack 0 3 data 000100000100c0030000800000400000020042401f1048002602f401
down 0 3 ok
cpack 0 4 data 40010000010040030000800000000000
up 0 4 ok 0
pack 0 4 data 400100400100c0070000800000400000010100
down 0 4 ok
cpack 0 5 data 800100400100c0060000800000000000
up 0 5 ok 0
show 0 events 0 sampled 2 accepted 2 taken 2 control 0 ghosts 2 | 0 player 0 1000s 1000s 100s 20s 0s | 2 mine 0 1100s 1000s 0s
",
    ),
    (
        "priority_and_share",
        "tribes 1
match 1 1 100 128 100
block 61
player 0 0 0 1000 1000
spawn mine 0 0 1000 1000
spawn mine 0 0 1000 1000
spawn mine 0 0 1000 1000
spawn mine 0 0 1000 1000
spawn mine 0 0 1000 1000
spawn mine 0 0 1000 1000
spawn mine 0 0 1000 1000
spawn mine 0 0 1000 1000
spawn mine 0 0 1000 1000
spawn mine 0 0 1000 1000
spawn mine 0 0 1000 1000
spawn mine 0 0 1000 1000
spawn mine 0 0 1000 1000
spawn mine 0 0 1000 1000
spawn mine 0 0 1000 1000
spawn mine 0 0 1000 1000
spawn mine 0 0 1000 1000
spawn mine 0 0 1000 1000
spawn mine 0 0 1000 1000
spawn mine 0 0 1000 1000
go
scan 0
pack 0
down 0 0
cpack 0
up 0 0
pack 0
pack 0
",
        "scan 0 hide 0 near 0 show 21
pack 0 0 data 40000000000000000000000000800082300000
down 0 0 ok
cpack 0 0 data 40000040000040000000000000000000
up 0 0 ok 0
pack 0 1 data 800000400000400000000000000000100001803e803ef0ff000109803e803e402001d007d0070c2400fa00fa008204401f401f509000e803e8030c12007d007dc04102a00fa00f404800f401f4010909803e803e402101d007d0072c2400fa00fa008604401f401fd09000e803e8031c12007d007dc04302a00fa00f00
pack 0 2 data c00000400000400000000000000000051009803e803e202201d007d007482400fa00fa808904401f401f409100e803e80300
",
    ),
    (
        "isolation_with_another",
        "tribes 1
match 1 2 100 128 100
block 61
player 0 0 0 1000 1000
player 1 0 1 5000 5000
spawn drone 0 1 5050 5000
go
scan 0
pack 0
down 0 0
cpack 0
up 0 0
move 1 3 0 1 0
cpack 1
up 1 0
tick
pack 0
",
        "scan 0 hide 0 near 0 show 1
pack 0 0 data 40000000000000000000000000800082300000
down 0 0 ok
cpack 0 0 data 40000040000040000000000000000000
up 0 0 ok 0
move 1 0
cpack 1 0 data 4400000000000000000000000040b01800
up 1 0 ok 1
tick 1 writes 4
pack 0 1 data 800000400000400000000000000000010001803e803ef0ff00
",
    ),
    (
        "isolation_alone",
        "tribes 1
match 1 2 100 128 100
block 61
player 0 0 0 1000 1000
player 1 0 1 5000 5000
go
scan 0
pack 0
down 0 0
cpack 0
up 0 0
tick
pack 0
",
        "scan 0 hide 0 near 0 show 1
pack 0 0 data 40000000000000000000000000800082300000
down 0 0 ok
cpack 0 0 data 40000040000040000000000000000000
up 0 0 ok 0
tick 1 writes 0
pack 0 1 data 800000400000400000000000000000010001803e803ef0ff00
",
    ),
    (
        "malformed_datagrams",
        "tribes 1
match 1 1 100 128 1000
go
raw 0 -
raw 0 40
raw 0 02
raw 0 00000000000000000000000000000000
raw 0 40000000000000000000000000000080
raw 0 40000000000000000000000000400800
raw 0 44000000000000000000000000000000
raw 0 40000040010000000000000000000000
raw 0 40000000000000000000400000000000
raw 0 40000000000000000000000000001002010000
pack 0
",
        "raw 0 bits 0 Short
raw 0 bits 6 Short
raw 0 bits 0 KindBits
raw 0 bits 6 ZeroSeq
raw 0 bits 121 Padding
raw 0 bits 110 CountBits
raw 0 client 1
raw 0 ackahead 5 0
raw 0 movegap 1 0
raw 0 eventahead 64 0
pack 0 0 data 40000000000000000000000000000000
",
    ),
];
