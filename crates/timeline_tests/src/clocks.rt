//! The clock by rows that were worked out by hand: a packet takes 50 milliseconds, so 256 moments.
ghost use Rattle.std.specs.Prelude.{◌≤◌};

use draw_clock::{ClockRefusal, DrawClock, Pace};

const PACE: Pace = Pace {
    period: 50,
    delay: 2,
    ahead: 10,
};

// Whether the clock is at the moment when this packet came.
fn comes(clock: &mut DrawClock, packet: u32, now: u64, moment: u64) -> bool {
    clock.came(packet, now).is_ok() && clock.moment(now) == Ok(moment)
}

#[test]
fn follows_packets_two_behind(rt: HostRuntime) {
    let mut clock = DrawClock::new(PACE, 100);
    assert!(rt; clock.moment(100) == Ok(0));
    // no further than the beginning until a third packet came
    for (packet, now, moment) in [
        (1, 150, 0),
        (2, 200, 0),
        (3, 250, 256),
        (4, 300, 512),
        (5, 350, 768),
        (6, 400, 1024),
    ] {
        assert!(rt; comes(&mut clock, packet, now, moment));
    }
    // nothing comes for a second: ten packets ahead of the last one it stands
    for now in [1400, 1500, 5000] {
        assert!(rt; clock.moment(now) == Ok(16 * 256));
    }
    // packet 17 came: its target is packet 16, it is there already, and goes a fiftieth slower than time
    assert!(rt; comes(&mut clock, 17, 5000, 16 * 256));
    assert!(rt; clock.moment(5050) == Ok(4346));
    // far behind it jumps
    assert!(rt; comes(&mut clock, 300, 5100, 298 * 256));
    assert!(rt; clock.moment(5150) == Ok(299 * 256));
}

#[test]
fn refuses_times_and_packets(rt: HostRuntime) {
    let mut clock = DrawClock::new(PACE, 100);
    assert!(rt; clock.came(5, 200).is_ok());
    for (refused, why) in [
        (clock.came(5, 300), ClockRefusal::NotNewer),
        (clock.came(16_777_216, 300), ClockRefusal::NoPacket),
        (clock.came(6, 199), ClockRefusal::TimeGoesBack),
    ] {
        assert!(rt; refused == Err(why));
    }
    assert!(rt; clock.moment(199) == Err(ClockRefusal::TimeGoesBack));
    assert!(rt; clock.moment(u64::MAX) == Err(ClockRefusal::NoTime));
    assert!(rt; clock.moment(200) == Ok(522));
}
