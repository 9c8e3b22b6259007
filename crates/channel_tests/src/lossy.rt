//! Messages and short events both ways, over datagrams of which many are lost or come twice, and all of them come: byte for byte, in
//! order, once.

use messages::{HoldFault, ParcelKind};
use std::alloc::Global;
use std::test::Fail;
use tribes_channel::{Channel, Handed, NextFault, OpenFault};
use tribes_ends::{Ask, Class, ConfigRow, FieldRow, KindRow, Link, Packed};

const CONFIG: ConfigRow = ConfigRow {
    client: 0,
    life: 100_000,
    size: 600,
    version: 3,
    move_bits: 1,
};

const KIND: KindRow = KindRow {
    fields: 1,
    weight: 1,
};

const FIELD: FieldRow = FieldRow {
    lo: 0,
    hi: 1,
    bits: 1,
};

const PLACES: u32 = 300;

const LONGEST: usize = 4_000;

/// Numbers that look drawn.
#[derive(Drop)]
struct Dice {
    state: u32,
}

impl Dice {
    fn draw(&mut self, below: u32) -> u32 {
        let mut state = self.state;
        state ^= state << 13;
        state ^= state >> 17;
        state ^= state << 5;
        self.state = state;
        match (state >> 8).checked_rem(below) {
            Some(drawn) => drawn,
            None => 0,
        }
    }
}

/// One end, its channel, and how many parcels it posted and took.
#[derive(Drop)]
struct Seat {
    link: Link,
    channel: Channel,
    posted: u32,
    taken: u32,
}

/// An end with a channel, if there is memory.
fn seat_of(alloc: Global, link: Link) -> Option<Seat> {
    match Channel::new(alloc, PLACES, LONGEST as u32) {
        Ok(channel) => Some(Seat {
            link,
            channel,
            posted: 0,
            taken: 0,
        }),
        Err(_) => None,
    }
}

/// What parcel number n of an end is: every fourth a short event.
fn kind_of(n: u32) -> ParcelKind {
    if n % 4 == 3 {
        ParcelKind::Event
    } else {
        ParcelKind::Message
    }
}

/// How long it is.
fn length_of(n: u32) -> usize {
    match n % 8 {
        0 => (n % 5) as usize,
        1 => 24,
        2 => 25,
        3 => 23,
        4 => (n.wrapping_mul(37) % 4_001) as usize,
        7 => (n % 24) as usize,
        _ => (n.wrapping_mul(11) % 300) as usize,
    }
}

/// Its bytes.
fn fill(place: &mut [u8], n: u32) {
    let mut next = n;
    for byte in place {
        next = next.wrapping_mul(1_103_515_245).wrapping_add(12_345);
        let [_, _, third, _] = next.to_le_bytes();
        *byte = third;
    }
}

/// Posts the next parcel, if there is room for it.
fn post_next(seat: &mut Seat, place: &mut [u8]) {
    let length = length_of(seat.posted).min(place.len());
    let (bytes, _) = place.split_at_mut(length);
    fill(bytes, seat.posted);
    let kind = kind_of(seat.posted);
    if seat.channel.post(&mut seat.link, kind, bytes).is_ok() {
        seat.posted = seat.posted.wrapping_add(1);
    }
}

/// Whether these are the kind and the bytes of parcel number n.
fn is_parcel(n: u32, handed: &Handed, place: &[u8], wanted: &mut [u8]) -> bool {
    let length = length_of(n).min(wanted.len());
    let (wanted, _) = wanted.split_at_mut(length);
    fill(wanted, n);
    let (found, _) = place.split_at(handed.count.min(place.len()));
    matches!(handed.class, Class::Guaranteed) && handed.kind == kind_of(n) && &*wanted == found
}

/// Takes what is whole; tells whether it is what comes next.
fn take_all(seat: &mut Seat, place: &mut [u8], wanted: &mut [u8]) -> bool {
    for _ in 0..300 {
        match seat.channel.next(&mut seat.link, place) {
            Ok(None) => return true,
            Ok(Some(handed)) => {
                if !is_parcel(seat.taken, &handed, place, wanted) {
                    return false;
                }
                seat.taken = seat.taken.wrapping_add(1);
            }
            Err(_) => return false,
        }
    }
    false
}

/// The next datagram of an end, as many bytes of the place.
fn make(seat: &mut Seat, place: &mut [u8]) -> usize {
    let mut asks = [Ask { n: 0, field: 0 }; 2_048];
    if seat.link.ask(&mut asks).is_err() {
        return 0;
    }
    match seat.link.pack(&[], place) {
        Ok(Packed::Data { count }) => count,
        Ok(Packed::Ping { count }) => count,
        _ => 0,
    }
}

/// A datagram goes over, so often, and what it brings is taken; tells whether that is right.
fn go_over(
    from: &mut Seat,
    to: &mut Seat,
    times: u32,
    place: &mut [u8],
    wanted: &mut [u8],
) -> bool {
    let mut datagram = [0u8; 600];
    let count = make(from, &mut datagram).min(datagram.len());
    let (bytes, _) = datagram.split_at(count);
    for _ in 0..times {
        if to.link.arrive(bytes, 0).is_ok() && !take_all(to, place, wanted) {
            return false;
        }
    }
    true
}

/// How often a datagram comes: none of so many in ten, and some twice.
fn times(dice: &mut Dice, lost: u32) -> u32 {
    match dice.draw(10) {
        drawn if drawn < lost => 0,
        9 => 2,
        _ => 1,
    }
}

/// Plays so many turns; tells whether each parcel that came was the next.
fn plays(server: &mut Seat, client: &mut Seat, dice: &mut Dice, turns: u32, lost: u32) -> bool {
    let mut place = [0u8; LONGEST];
    let mut wanted = [0u8; LONGEST];
    for _ in 0..turns {
        if lost > 0 {
            post_next(server, &mut wanted);
            post_next(client, &mut wanted);
        }
        let (down, up) = (times(dice, lost), times(dice, lost));
        if !go_over(server, client, down, &mut place, &mut wanted)
            || !go_over(client, server, up, &mut place, &mut wanted)
        {
            return false;
        }
    }
    true
}

#[test]
fn parcels_come_in_order_whatever_is_lost(rt: HostRuntime) -> Result<(), Fail> {
    let alloc = rt.alloc();
    let mut server = seat_of(
        alloc,
        Link::server(alloc, &CONFIG, &[KIND], &[FIELD], &[], &[]).expect(&rt, "server"),
    )
    .expect(&rt, "channel");
    let mut client = seat_of(
        alloc,
        Link::client(alloc, &CONFIG, &[KIND], &[FIELD]).expect(&rt, "client"),
    )
    .expect(&rt, "channel");
    let mut dice = Dice {
        state: 2_463_534_242,
    };
    assert!(rt; plays(&mut server, &mut client, &mut dice, 200, 4));
    assert!(rt; plays(&mut server, &mut client, &mut dice, 200, 0));
    assert!(rt; server.posted > 60 && client.posted > 60);
    assert!(rt; server.posted == client.taken && client.posted == server.taken);
    assert!(rt; server.channel.places().held == 0 && client.channel.places().held == 0);
    Ok(())
}

#[test]
fn a_message_of_any_other_size_is_refused(rt: HostRuntime) -> Result<(), Fail> {
    let alloc = rt.alloc();
    assert!(rt;
        matches!(
            Channel::new(alloc, 1, 22),
            Err(OpenFault::BadLongest { longest: 22 })
        )
    );
    assert!(rt; Channel::new(alloc, 1, 23).is_ok());
    let link = Link::client(alloc, &CONFIG, &[KIND], &[FIELD]).expect(&rt, "client");
    let mut seat = seat_of(alloc, link).expect(&rt, "channel");
    let bytes = vec![in alloc; 1u8; 65_536]?;
    let refused = seat
        .channel
        .post(&mut seat.link, ParcelKind::Message, &bytes);
    assert!(rt; matches!(refused, Err(HoldFault::TooLong { most: 65_535 })));
    let mut place = [0u8; LONGEST];
    let (small, _) = place.split_at_mut(LONGEST - 1);
    let refused = seat.channel.next(&mut seat.link, small);
    assert!(rt; matches!(refused, Err(NextFault::NoRoom { needed: 4_000 })));
    Ok(())
}
