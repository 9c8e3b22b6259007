//! The scripts of examples/ that have a world to look at, with their reports (`docs/check` holds both against the files).

/// Each with its name.
pub(crate) const WORLD_EXAMPLES: [(&str, &str, &str); 5] = [
    (
        "disc",
        "tribes 1
match 7 2 100 128 1000
block 61
player 0 0 0 1000 1000
player 1 0 1 2700 1000
spawn drone 0 1 2000 1500
spawn clock 0 0 0 0
go
move 0 0 0 1 0
cpack 0
up 0 0
tick
world
tick
tick
world
tick
world
show 0
",
        "move 0 0
cpack 0 0 data 4000000000000000000000000040801800
up 0 0 ok 1
tick 1 writes 4
world 1 | 0 player 1000 1000 100 19 0 | 1 player 2700 1000 100 20 0 | 2 drone 2017 1538 100 | 3 clock 1 0 0 | 4 disc 1000 1000
tick 2 writes 4
tick 3 writes 4
world 3 | 0 player 1000 1000 100 19 0 | 1 player 2700 1000 100 20 0 | 2 drone 1995 1571 100 | 3 clock 3 0 0 | 4 disc 2600 1000
tick 4 writes 5
world 4 | 0 player 1000 1000 100 19 1 | 1 player 2700 1000 75 20 0 | 2 drone 1957 1566 100 | 3 clock 4 0 0
show 0 events 0 sampled 1 accepted 1 taken 1 control - ghosts 0
",
    ),
    (
        "flag",
        "tribes 1
match 1 2 100 128 1000
block 61
player 0 0 0 1000 1000
player 1 0 1 9000 9000
spawn flag 0 1 1100 1000
spawn clock 0 0 0 0
go
move 0 1 0 0 1
move 1 -1 -1 1 0
cpack 0
cpack 1
up 0 0
up 1 0
tick
world
move 0 1 0 0 0
cpack 0
up 0 1
tick
world
show 0
",
        "move 0 0
move 1 0
cpack 0 0 data 4000000000000000000000000040902800
cpack 1 0 data 4400000000000000000000000040701700
up 0 0 ok 1
up 1 0 ok 1
tick 1 writes 6
world 1 | 0 player 1025 1000 100 20 0 | 1 player 8975 8975 100 19 0 | 2 flag 1100 1000 1 | 3 clock 1 0 0 | 4 disc 8975 8975
move 0 1
cpack 0 1 data 800000000000000000000000008090682200
up 0 1 ok 1
tick 2 writes 6
world 2 | 0 player 1050 1000 100 20 0 | 1 player 8975 8975 100 19 0 | 2 flag 1100 1000 0 | 3 clock 2 1 0 | 4 disc 8875 8875
show 0 events 0 sampled 2 accepted 2 taken 2 control - ghosts 0
",
    ),
    (
        "hostile",
        "tribes 1
match 1 2 100 128 1000
block 6d6170
player 0 0 0 1000 1000
player 1 0 1 5000 5000
go
scan 0
scan 1
pack 0
pack 1
down 0 0
raw 1 -
raw 1 ffff
raw 1 40000000000000000000000000000000
raw 1 44000040020000000000000000000000
raw 1 4400000000000000000040010040f01f00
raw 1 44000000000000000000000000001002010000
raw 1 44000000000000000000000000000080
raw 1 44000040000040000000000000000000
raw 1 44000040000040000000000000000000
move 0 1 0 0 0
cpack 0
cpack 1
up 0 0
up 1 0
post 0 g 6869
pack 0
pack 1
down 0 1
down 1 1
raw 1 8400004000004000000000000040f01800
tick
scan 0
scan 1
pack 0
pack 1
down 0 2
down 1 2
show 0
show 1
world
",
        "scan 0 hide 0 near 0 show 1
scan 1 hide 0 near 0 show 1
pack 0 0 data 40000000000000000000000000800086b630380000
pack 1 0 data 44000000000000000000000000800086b630380000
down 0 0 ok
raw 1 bits 0 Short
raw 1 bits 0 KindBits
raw 1 client 0
raw 1 ackahead 9 1
raw 1 movegap 5 0
raw 1 eventahead 64 0
raw 1 bits 121 Padding
raw 1 ok 0
raw 1 old 1 1
move 0 0
cpack 0 0 data 4000004000004000000000000040900800
cpack 1 0 data 44000000000000000000000000000000
up 0 0 ok 1
up 1 0 old 1 1
post 0 g 0
pack 0 1 data 800000400000400000004000000008010000045a5a004000a00fa00ffc3f00
pack 1 1 data 84000040000040000000000000000001000180388138f1ff00
down 0 1 ok g:6869
down 1 1 ghost 0 BlockMissing
raw 1 ok 1
tick 1 writes 3
scan 0 hide 0 near 0 show 0
scan 1 hide 0 near 0 show 1
pack 0 2 data c0000040000040000000400000000000
pack 1 2 data c40000800000c000000040000000000101057043813801
down 0 2 ok
down 1 2 ackahead 2 1
show 0 events 1 sampled 1 accepted 1 taken 1 control - ghosts 1 | 0 player 0 1000 1000 100 20 0
show 1 events 0 sampled 0 accepted 1 taken 1 control - ghosts 0
world 1 | 0 player 1025 1000 100 20 0 | 1 player 5175 5000 100 19 0 | 2 disc 5175 5000
",
    ),
    (
        "lost_update",
        "tribes 1
match 1 1 100 128 1000
block 61
player 0 0 0 1000 1000
go
scan 0
pack 0
down 0 0
cpack 0
up 0 0
pack 0
down 0 1
cpack 0
up 0 1
move 0 1 0 0 0
move 0 1 0 0 0
move 0 0 -1 0 0
move 0 0 -1 0 0
cpack 0
up 0 2
tick
pack 0
tick
pack 0
down 0 3
cpack 0
up 0 3
pack 0
down 0 4
show 0
tick
pack 0
show 0
pack 0
down 0 6
cpack 0
up 0 4
tick
pack 0
down 0 7
cpack 0
up 0 5
show 0
",
        "scan 0 hide 0 near 0 show 1
pack 0 0 data 40000000000000000000000000800082300000
down 0 0 ok
cpack 0 0 data 40000040000040000000000000000000
up 0 0 ok 0
pack 0 1 data 800000400000400000000000000000010001803e803ef0ff00
down 0 1 ok
cpack 0 1 data 800000800000c0000000000000000000
up 0 1 ok 0
move 0 0
move 0 1
move 0 2
move 0 3
cpack 0 2 data c00000800000c00000000000000091482278e00100
up 0 2 ok 4
tick 1 writes 1
pack 0 2 data c00000c00000c0010000000100400000010042082000
tick 2 writes 1
pack 0 3 data 000100c00000c0010000000100400000010042d02000
down 0 3 ok
cpack 0 3 data 00010000010040030000000100000000
up 0 3 ok 0
pack 0 4 data 400100000100c003000000010040000000
down 0 4 ok
show 0 events 0 sampled 4 accepted 4 taken 2 control 0 ghosts 1 | 0 player 0 1050s 1000s 100s 20s 0s
tick 3 writes 1
pack 0 5 data 800100000100c0030000000100400000010082781e00
show 0 events 0 sampled 4 accepted 4 taken 3 control 0 ghosts 1 | 0 player 0 1050s 1000 100s 20s 0s
pack 0 6 data c00100000100c003000000010040000000
down 0 6 ok
cpack 0 4 data 400100c00100401b0000000100000000
up 0 4 ok 0
tick 4 writes 1
pack 0 7 data 000200400100c0070000000100400000010082b01d00
down 0 7 ok
cpack 0 5 data 800100000200c0360000000100000000
up 0 5 ok 0
show 0 events 0 sampled 4 accepted 4 taken 4 control 0 ghosts 1 | 0 player 0 1050s 950s 100s 20s 0s
",
    ),
    (
        "sight",
        "tribes 1
match 1 2 100 128 300
block 726564
player 0 0 0 1000 1000
player 1 0 1 1100 1000
go
scan 0
pack 0
down 0 0
cpack 0
up 0 0
pack 0
down 0 1
cpack 0
up 0 1
show 0
move 1 7 0 0 0
cpack 1
up 1 0
tick
scan 0
pack 0
down 0 2
move 1 7 0 0 0
cpack 1
up 1 1
tick
scan 0
show 0
pack 0
down 0 3
cpack 0
up 0 2
show 0
world
",
        "scan 0 hide 0 near 0 show 2
pack 0 0 data 40000000000000000000000000800006b932320000
down 0 0 ok
cpack 0 0 data 40000040000040000000000000000000
up 0 0 ok 0
pack 0 1 data 800000400000400000000000000000020001803e803ef0ff000101c044803ef0ff00
down 0 1 ok
cpack 0 1 data 800000800000c0000000000000000000
up 0 1 ok 0
show 0 events 0 sampled 0 accepted 0 taken 0 control - ghosts 2 | 0 player 0 1000s 1000s 100s 20s 0s | 1 player 0 1100s 1000s 100s 20s 0s
move 1 0
cpack 1 0 data 4400000000000000000000000040f00800
up 1 0 ok 1
tick 1 writes 1
scan 0 hide 0 near 1 show 0
pack 0 2 data c00000800000c0000000000000400000010142d82700
down 0 2 ok
move 1 1
cpack 1 1 data 8400000000000000000000000080f0c82300
up 1 1 ok 1
tick 2 writes 1
scan 0 hide 1 near 0 show 0
show 0 events 0 sampled 0 accepted 0 taken 0 control 0 ghosts 2 | 0 player 0 1000s 1000s 100s 20s 0s | 1 player 0 1275 1000 100 20 0
pack 0 3 data 000100800000c0000000000000400000010100
down 0 3 ok
cpack 0 2 data c00000000100c0030000000000000000
up 0 2 ok 0
show 0 events 0 sampled 0 accepted 0 taken 0 control 0 ghosts 1 | 0 player 0 1000s 1000s 100s 20s 0s
world 2 | 0 player 1000 1000 100 20 0 | 1 player 1450 1000 100 20 0
",
    ),
];
