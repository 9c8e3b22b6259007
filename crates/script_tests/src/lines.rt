//! Of `match_report`: lines as the format has them: refusals that no script brings about, what a client has, and a scan.
use ghost_client::GhostFault;
use match_report::{CopyList, CopyTold, FieldList, FieldTold, Told, Way, put_line};
use std::alloc::Global;
use stream_manager::{ArriveFault, ClientFault};
use tn_types::{MAX_FIELDS, NoMemory};
use wire_format::{BitsCause, BitsFault};

// Whether what is told has this line.
fn is_line(alloc: Global, told: &Told, want: &str) -> bool {
    let mut out = Vec::new(alloc);
    put_line(alloc, told, &mut out).is_ok() && out.as_slice() == want.as_bytes()
}

#[test]
fn refusals_of_the_server(rt: HostRuntime) {
    let bits = BitsFault {
        place: 110,
        cause: BitsCause::CountBits,
    };
    for (fault, want) in [
        (ArriveFault::Bits(bits), "raw 3 bits 110 CountBits\n"),
        (ArriveFault::WrongClient { client: 4 }, "raw 3 client 4\n"),
        (
            ArriveFault::MoveGap {
                first: 9,
                accepted: 4,
            },
            "raw 3 movegap 9 4\n",
        ),
        (
            ArriveFault::EventAhead {
                number: 40,
                delivered: 1,
            },
            "raw 3 eventahead 40 1\n",
        ),
    ] {
        let told = Told::ServerRefused {
            way: Way::Raw,
            client: 3,
            k: 0,
            fault,
        };
        assert!(rt; is_line(rt.alloc(), &told, want));
    }
}

#[test]
fn refusals_of_a_client(rt: HostRuntime) {
    for (fault, want) in [
        (
            ClientFault::AckAhead {
                horizon: 7,
                last: 2,
            },
            "down 0 3 ackahead 7 2\n",
        ),
        (
            ClientFault::MoveAhead {
                count: 6,
                sampled: 5,
            },
            "down 0 3 moveahead 6 5\n",
        ),
        (
            ClientFault::BlockDiffers { number: 12 },
            "down 0 3 block 12\n",
        ),
        (
            ClientFault::Ghost(GhostFault::Taken { slot: 255 }),
            "down 0 3 ghost 255 Taken\n",
        ),
        (
            ClientFault::Ghost(GhostFault::KindDiffers { slot: 8, held: 2 }),
            "down 0 3 ghost 8 KindDiffers\n",
        ),
    ] {
        let told = Told::ClientRefused {
            client: 0,
            k: 3,
            fault,
        };
        assert!(rt; is_line(rt.alloc(), &told, want));
    }
}

fn copy_of(slot: u8, kind: u8, block: u8, values: &[(i64, bool)]) -> CopyTold {
    let mut fields = FieldList::new();
    for (value, settled) in values {
        if fields.as_slice().len() < MAX_FIELDS {
            fields.push(FieldTold {
                value: *value,
                settled: *settled,
            });
        }
    }
    CopyTold {
        slot,
        kind,
        block,
        fields,
    }
}

// A player and a mine.
fn two_copies(alloc: Global) -> Result<CopyList, NoMemory> {
    let player = [
        (975, false),
        (1000, true),
        (100, true),
        (20, true),
        (0, true),
    ];
    let mine = [(1100, true), (1000, true), (0, false)];
    let mut copies = CopyList::new(alloc);
    copies.push(alloc, copy_of(0, 0, 0, &player))?;
    copies.push(alloc, copy_of(12, 2, 3, &mine))?;
    Ok(copies)
}

#[test]
fn copies_of_a_client(rt: HostRuntime) {
    let copies = two_copies(rt.alloc()).expect(&rt, "memory");
    let told = Told::Show {
        client: 7,
        events: 1,
        sampled: 2,
        accepted: 3,
        taken: 4,
        control: Some(0),
        copies,
    };
    let want = "show 7 events 1 sampled 2 accepted 3 taken 4 control 0 ghosts 2 \
| 0 player 0 975 1000s 100s 20s 0s | 12 mine 3 1100s 1000s 0\n";
    assert!(rt; is_line(rt.alloc(), &told, want));
}

#[test]
fn a_scan(rt: HostRuntime) {
    let told = Told::Scan {
        client: 15,
        hides: 1,
        nears: 20,
        shows: 1024,
    };
    assert!(rt; is_line(rt.alloc(), &told, "scan 15 hide 1 near 20 show 1024\n"));
}
