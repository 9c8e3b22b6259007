//! Scripts of version 2 with the reports that were worked out for them.

/// Scripts and their reports.
pub(crate) const VERSION_EXAMPLES: [(&str, &str, &str); 4] = [
    (
        "first_event_version_2",
        "tribes 2
match 1 1 100 128 1000
go
post 0 g 6869
pack 0
down 0 0
show 0
",
        "post 0 g 0
pack 0 0 data 40000000000000000000000000000801022d0d00
down 0 0 ok g:6869
show 0 events 1 sampled 0 accepted 0 taken 0 control - ghosts 0
",
    ),
    (
        "lost_update_superseded_version_2",
        "tribes 2
match 1 1 100 128 1000
block 61
spawn clock 0 0 0 0
go
scan 0
pack 0
down 0 0
cpack 0
up 0 0
pack 0
down 0 1
cpack 0
up 0 1
tick
pack 0
tick
pack 0
down 0 3
cpack 0
up 0 2
pack 0
show 0
",
        "scan 0 hide 0 near 0 show 1
pack 0 0 data 40000000000000000000000000800082300000
down 0 0 ok
cpack 0 0 data 40000040000040000000000000000000
up 0 0 ok 0
pack 0 1 data 800000400000400000000000000000010015000000000000
down 0 1 ok
cpack 0 1 data 800000800000c0000000000000000000
up 0 1 ok 0
tick 1 writes 1
pack 0 2 data c00000800000c00000000000000000010026000000
tick 2 writes 1
pack 0 3 data 000100800000c00000000000000000010046000000
down 0 3 ok
cpack 0 2 data c0000000010040030000000000000000
up 0 2 ok 0
pack 0 4 data 400100c00000c0010000000000000000
show 0 events 0 sampled 0 accepted 0 taken 0 control - ghosts 1 | 0 clock 0 2s 0s 0s
",
    ),
    (
        "event_ahead_version_2",
        "tribes 2
match 1 1 100 128 1000
go
raw 0 4000000000000000000000000000100201
",
        "raw 0 eventahead 64 0
",
    ),
    (
        "old_before_the_rest_version_2",
        "tribes 2
match 1 1 100 128 100
block 61
player 0 0 0 1000 1000
spawn mine 0 0 1100 1000
go
scan 0
pack 0
down 0 0
cpack 0
up 0 0
pack 0
down 0 1
cpack 0
up 0 1
move 0 -1 0 0 0
cpack 0
up 0 2
tick
scan 0
pack 0
move 0 1 0 0 0
cpack 0
up 0 3
tick
scan 0
pack 0
down 0 3
cpack 0
up 0 4
pack 0
down 0 4
cpack 0
up 0 5
show 0
down 0 3
",
        "scan 0 hide 0 near 0 show 2
pack 0 0 data 40000000000000000000000000800082300000
down 0 0 ok
cpack 0 0 data 40000040000040000000000000000000
up 0 0 ok 0
pack 0 1 data 800000400000400000000000000000020001803e803ef0ff000109c044803e00
down 0 1 ok
cpack 0 1 data 800000800000c0000000000000000000
up 0 1 ok 0
move 0 0
cpack 0 2 data c00000800000c000000000000040700800
up 0 2 ok 1
tick 1 writes 1
scan 0 hide 1 near 0 show 0
pack 0 2 data c00000c00000c0010000400000400000020100189e0700
move 0 1
cpack 0 3 data 000100800000c00000000000008070482200
up 0 3 ok 1
tick 2 writes 1
scan 0 hide 0 near 0 show 1
pack 0 3 data 000100000100c0030000800000400000020006f40181046022401f00
down 0 3 ok
cpack 0 4 data 40010000010040030000800000000000
up 0 4 ok 0
pack 0 4 data 400100400100c0070000800000400000010100
down 0 4 ok
cpack 0 5 data 800100400100c0060000800000000000
up 0 5 ok 0
show 0 events 0 sampled 2 accepted 2 taken 2 control 0 ghosts 2 | 0 player 0 1000s 1000s 100s 20s 0s | 2 mine 0 1100s 1000s 0s
down 0 3 old 4 5
",
    ),
];
