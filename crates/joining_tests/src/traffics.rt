//! How much went in the second before, by rows that were worked out by hand.
use link_quality::{MeterRefusal, Traffic, TrafficMeter};
use std::test::Fail;

#[test]
fn tells_the_second_before(rt: HostRuntime) -> Result<(), Fail> {
    let mut meter = TrafficMeter::new();
    let none = Traffic {
        datagrams: 0,
        bytes: 0,
    };
    for (bytes, now) in [(100, 1000), (200, 1999), (50, 2100)] {
        meter.went(bytes, now)?;
    }
    let two = Traffic {
        datagrams: 2,
        bytes: 300,
    };
    let one = Traffic {
        datagrams: 1,
        bytes: 50,
    };
    for (now, traffic) in [
        (2000, two),
        (2999, two),
        (3000, one),
        (3999, one),
        (4000, none),
        (90_000, none),
    ] {
        assert!(rt; meter.in_last_second(now) == Ok(traffic));
    }
    assert!(rt; meter.in_last_second(1999) == Err(MeterRefusal::SecondIsPast));
    assert!(rt; meter.went(1, 1999) == Err(MeterRefusal::SecondIsPast));
    meter.went(7, 5000)?;
    assert!(rt; meter.in_last_second(5001) == Ok(none));
    Ok(())
}

#[test]
fn counts_stay_at_their_most(rt: HostRuntime) -> Result<(), Fail> {
    let mut meter = TrafficMeter::new();
    meter.went(4_294_967_295, 10)?;
    meter.went(4_294_967_295, 20)?;
    let most = Traffic {
        datagrams: 2,
        bytes: 4_294_967_295,
    };
    assert!(rt; meter.in_last_second(1000) == Ok(most));
    Ok(())
}
