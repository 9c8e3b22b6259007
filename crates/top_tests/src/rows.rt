//! Scripts of a connection's lines with the reports that were worked out for them.

/// Scripts and their reports.
pub(crate) const ROWS: [(&str, &str, &str); 11] = [
    (
        "empty_body",
        "tribes 1
match 1 1 100 128 1000
go
",
        "",
    ),
    (
        "first_event",
        "tribes 1
match 1 1 100 128 1000
go
post 0 g 6869
pack 0
down 0 0
show 0
",
        "post 0 g 0
pack 0 0 data 400000000000000000000000000008010000045a1a00
down 0 0 ok g:6869
show 0 events 1 sampled 0 accepted 0 taken 0 control - ghosts 0
",
    ),
    (
        "repeated_datagram_is_old",
        "tribes 1
match 1 1 100 128 1000
go
post 0 g 6869
pack 0
down 0 0
down 0 0
down 0 0
",
        "post 0 g 0
pack 0 0 data 400000000000000000000000000008010000045a1a00
down 0 0 ok g:6869
down 0 0 old 1 1
down 0 0 old 1 1
",
    ),
    (
        "lost_event_comes_again",
        "tribes 1
match 1 1 100 128 1000
go
post 0 g 61
pack 0
post 0 g 62
pack 0
post 0 g 63
pack 0
down 0 1
down 0 2
cpack 0
up 0 0
pack 0
down 0 3
",
        "post 0 g 0
pack 0 0 data 400000000000000000000000000008010000421800
post 0 g 1
pack 0 1 data 800000000000000000000000000008030000821800
post 0 g 2
pack 0 2 data c00000000000000000000000000008050000c21800
down 0 1 ok
down 0 2 ok
cpack 0 0 data 400000c00000c0000000000000000000
up 0 0 ok 0
pack 0 3 data 000100400000400000000000000008010000421800
down 0 3 ok g:61 g:62 g:63
",
    ),
    (
        "late_datagram_is_lost_for_good",
        "tribes 1
match 1 1 100 128 1000
go
post 0 g 61
pack 0
pack 0
down 0 1
down 0 0
cpack 0
up 0 0
pack 0
down 0 2
",
        "post 0 g 0
pack 0 0 data 400000000000000000000000000008010000421800
pack 0 1 data 80000000000000000000000000000000
down 0 1 ok
down 0 0 old 1 2
cpack 0 0 data 40000080000040000000000000000000
up 0 0 ok 0
pack 0 2 data c00000400000400000000000000008010000421800
down 0 2 ok g:61
",
    ),
    (
        "not_sent",
        "tribes 1
match 1 1 100 128 1000
go
down 0 0
",
        "down 0 0 notsent 0
",
    ),
    (
        "counters_wear_out",
        "tribes 1
match 1 1 2 128 1000
go
post 0 g -
post 0 g -
post 0 g -
pack 0
pack 0
pack 0
",
        "post 0 g 0
post 0 g 1
post 0 worn 2
pack 0 0 data 400000000000000000000000000010010000c00000000000
pack 0 1 data 80000000000000000000000000000000
pack 0 worn 2
",
    ),
    (
        "unguaranteed_event_sent_once",
        "tribes 1
match 1 1 100 128 1000
go
post 0 u 61
pack 0
pack 0
down 0 0
",
        "post 0 u
pack 0 0 data 400000000000000000000000000008421800
pack 0 1 data 80000000000000000000000000000000
down 0 0 ok u:61
",
    ),
    (
        "client_event",
        "tribes 1
match 1 1 100 128 1000
go
cpost 0 g 61
cpack 0
up 0 0
",
        "cpost 0 g 0
cpack 0 0 data 4000000000000000000000000000100200008430
up 0 0 ok 0 g:61
",
    ),
    (
        "block_received",
        "tribes 1
match 1 1 100 128 1000
block 61
go
pack 0
down 0 0
cpack 0
up 0 0
pack 0
",
        "pack 0 0 data 40000000000000000000000000800082300000
down 0 0 ok
cpack 0 0 data 40000040000040000000000000000000
up 0 0 ok 0
pack 0 1 data 80000040000040000000000000000000
",
    ),
    (
        "move_applied_once",
        "tribes 1
match 1 1 100 128 1000
go
move 0 1 0 0 0
cpack 0
cpack 0
up 0 0
up 0 1
",
        "move 0 0
cpack 0 0 data 4000000000000000000000000040900800
cpack 0 1 data 8000000000000000000000000040900800
up 0 0 ok 1
up 0 1 ok 0
",
    ),
];
