//! Values between those that came, as they were worked out by hand.
ghost use Rattle.timeline.specs.Shapes.{IsSound};

use timeline::{Interpolation, Refusal, Shape, Timeline};

const SHAPE: Shape = Shape {
    slots: 4,
    fields: 3,
    depth: 8,
};

// Of kind 0 a heading of 360 degrees, a height and a colour; of kind 1 a place alone.
const WAYS: [Interpolation; 6] = [
    Interpolation::Turning {
        least: 0,
        most: 359,
    },
    Interpolation::Linear,
    Interpolation::Stepped,
    Interpolation::Linear,
    Interpolation::Stepped,
    Interpolation::Stepped,
];

// The moment of a packet and so many of its 256 parts.
fn moment(packet: u64, parts: u64) -> u64 {
    packet.saturating_mul(256).saturating_add(parts)
}

// Whether the timeline takes these values of a packet, by the numbers of their fields.
fn takes(line: &mut Timeline, slot: u32, packet: u32, values: &[(u32, i32)]) -> bool {
    let mut all = true;
    for (field, value) in values {
        if line.came(slot, packet, *field, *value).is_err() {
            all = false;
        }
    }
    all
}

// Whether the field has each of these values at its moment.
fn goes(line: &Timeline, slot: u32, field: u32, rows: &[(u64, i64)]) -> bool {
    let mut all = true;
    for (at, value) in rows {
        if line.value_at(slot, field, *at) != Ok(Some(*value)) {
            all = false;
        }
    }
    all
}

// Whether the slot's copy is drawn at the moment, with this kind and value of its first field.
fn shows(line: &Timeline, slot: u32, at: u64, seen: Option<(u32, i64)>) -> bool {
    let (kind, value) = match seen {
        Some((kind, value)) => (Some(kind), Some(value)),
        None => (None, None),
    };
    line.kind_at(slot, at) == Ok(kind) && line.value_at(slot, 0, at) == Ok(value)
}

#[test]
fn each_kind_of_field_goes_its_way(rt: HostRuntime) {
    let mut line = Timeline::new(rt.alloc(), SHAPE, &WAYS).expect(&rt, "memory");
    assert!(rt; line.began(2, 10, 0).is_ok());
    assert!(rt; takes(&mut line, 2, 10, &[(0, 350), (1, -100), (2, 1)]));
    assert!(rt; takes(&mut line, 2, 20, &[(0, 10), (1, 103), (2, 7)]));
    // packets 10 and 20, so a gap of ten; in 2,560 moments the heading goes 20 up over the north, the height 203 up
    let before = moment(9, 0);
    let first = moment(10, 0);
    let one_on = moment(11, 0);
    let a_quarter = moment(12, 128);
    let half_way = moment(15, 0);
    let almost = moment(19, 255);
    let second = moment(20, 0);
    let later = moment(40, 0);
    assert!(rt;
        goes(
            &line,
            2,
            0,
            &[
                (before, 350),
                (first, 350),
                (one_on, 352),
                (a_quarter, 355),
                (half_way, 0),
                (almost, 9),
                (second, 10),
                (later, 10),
            ]
        )
    );
    assert!(rt;
        goes(
            &line,
            2,
            1,
            &[
                (before, -100),
                (first, -100),
                (one_on, -80),
                (a_quarter, -50),
                (half_way, 1),
                (almost, 102),
                (second, 103),
                (later, 103),
            ]
        )
    );
    assert!(rt;
        goes(
            &line,
            2,
            2,
            &[
                (before, 1),
                (first, 1),
                (one_on, 1),
                (a_quarter, 1),
                (half_way, 1),
                (almost, 1),
                (second, 7),
                (later, 7),
            ]
        )
    );
}

#[test]
fn gone_copy_stays_until_its_end_and_a_slot_begins_anew(rt: HostRuntime) {
    let mut line = Timeline::new(rt.alloc(), SHAPE, &WAYS).expect(&rt, "memory");
    assert!(rt; line.began(3, 10, 1).is_ok());
    assert!(rt; takes(&mut line, 3, 10, &[(0, 100)]));
    assert!(rt; takes(&mut line, 3, 20, &[(0, 140)]));
    assert!(rt; line.ended(3, 22).is_ok());
    assert!(rt; shows(&line, 3, moment(15, 0), Some((1, 120))));
    assert!(rt; shows(&line, 3, moment(21, 255), Some((1, 140))));
    assert!(rt; shows(&line, 3, moment(22, 0), None));
    assert!(rt; line.began(3, 30, 0).is_ok());
    assert!(rt; takes(&mut line, 3, 30, &[(1, 7)]));
    assert!(rt; line.value_at(3, 0, moment(15, 0)) == Ok(None));
    assert!(rt; goes(&line, 3, 1, &[(moment(15, 0), 7)]));
}

#[test]
fn newest_eight_are_kept(rt: HostRuntime) {
    let mut line = Timeline::new(rt.alloc(), SHAPE, &WAYS).expect(&rt, "memory");
    assert!(rt; line.began(0, 1, 1).is_ok());
    for packet in 1..21u32 {
        let _ = line.came(0, packet, 0, 100);
    }
    assert!(rt; takes(&mut line, 0, 21, &[(0, 110)]));
    assert!(rt;
        goes(
            &line,
            0,
            0,
            &[
                (moment(20, 0), 100),
                (moment(20, 128), 105),
                (moment(21, 0), 110),
                (0, 100),
            ]
        )
    );
}

#[test]
fn refuses_by_name(rt: HostRuntime) {
    let mut line = Timeline::new(rt.alloc(), SHAPE, &WAYS).expect(&rt, "memory");
    assert!(rt; line.began(0, 5, 1).is_ok());
    for (refused, why) in [
        (line.began(4, 5, 1), Refusal::NoSlot),
        (line.began(0, 0, 1), Refusal::NoPacket),
        (line.began(0, 16_777_216, 1), Refusal::NoPacket),
        (line.began(0, 4, 1), Refusal::GoesBack),
        (line.began(0, 5, 2), Refusal::NoKind),
        (line.came(0, 5, 3, 1), Refusal::NoField),
        (line.ended(9, 5), Refusal::NoSlot),
    ] {
        assert!(rt; refused == Err(why));
    }
    assert!(rt; line.value_at(0, 3, 0) == Err(Refusal::NoField));
    assert!(rt; line.kind_at(4, 0) == Err(Refusal::NoSlot));
    assert!(rt; line.latest() == 5);
}
