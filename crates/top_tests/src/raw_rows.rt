//! Scripts with lines `raw`, with their reports. Each row was worked out by hand from the rules of docs/.

/// Each with what it shows.
pub(crate) const RAW_ROWS: [(&str, &str, &str); 2] = [
    (
        "raw_bytes_take_the_place_of_a_datagram",
        "tribes 1
match 1 1 100 128 1000
go
raw 0 40000000000000000000000000000000
cpack 0
up 0 0
",
        "raw 0 ok 0
cpack 0 0 data 40000000000000000000000000000000
up 0 0 old 1 1
",
    ),
    (
        "no_raw_bytes_change_a_datagram",
        "tribes 1
match 1 2 100 128 100
block 61
player 0 0 0 1000 1000
player 1 0 1 5000 5000
go
raw 0 -
scan 0
raw 0 -
pack 0
raw 0 -
down 0 0
raw 0 -
cpack 0
raw 0 -
up 0 0
raw 0 -
tick
raw 0 -
pack 0
",
        "raw 0 bits 0 Short
scan 0 hide 0 near 0 show 1
raw 0 bits 0 Short
pack 0 0 data 40000000000000000000000000800082300000
raw 0 bits 0 Short
down 0 0 ok
raw 0 bits 0 Short
cpack 0 0 data 40000040000040000000000000000000
raw 0 bits 0 Short
up 0 0 ok 0
raw 0 bits 0 Short
tick 1 writes 0
raw 0 bits 0 Short
pack 0 1 data 800000400000400000000000000000010001803e803ef0ff00
",
    ),
];
