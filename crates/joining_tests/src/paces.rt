//! A pace by rows that were worked out by hand: 1,000 to 10,000 bytes a second, 500 more with each packet, and 1,200 bytes saved up.
use pace::{Pace, PaceRefusal, PaceTerms};
use std::test::Fail;

const TERMS: PaceTerms = PaceTerms {
    least: 1_000,
    most: 10_000,
    step: 500,
    burst: 1_200,
};

#[test]
fn follows_the_losses(rt: HostRuntime) -> Result<(), Fail> {
    let mut pace = Pace::new(TERMS, 1000);
    assert!(rt; pace.rate() == 1_000);
    for (now, rate) in [(1050, 1_500), (1100, 2_000)] {
        pace.came(now)?;
        assert!(rt; pace.rate() == rate);
    }
    // a loss lowers it by a quarter, at most once in a round trip of 100 milliseconds, and never below the least
    for (now, rate) in [
        (1200, 1_500),
        (1240, 1_500),
        (1299, 1_500),
        (1300, 1_125),
        (1400, 1_000),
    ] {
        pace.lost(100, now)?;
        assert!(rt; pace.rate() == rate);
    }
    for _ in 0..30 {
        pace.came(1500)?;
    }
    assert!(rt; pace.rate() == 10_000);
    Ok(())
}

#[test]
fn saves_up_what_does_not_go(rt: HostRuntime) -> Result<(), Fail> {
    let mut pace = Pace::new(TERMS, 1000);
    assert!(rt; pace.allowed(1000) == Ok(1_200));
    pace.went(1_000, 1000)?;
    for (now, bytes) in [
        (1000, 200),
        (1050, 250),
        (1999, 1_199),
        (2000, 1_200),
        (9000, 1_200),
    ] {
        assert!(rt; pace.allowed(now) == Ok(bytes));
    }
    // more than is allowed leaves nothing
    pace.went(4_000, 1050)?;
    assert!(rt; pace.allowed(1050) == Ok(0));
    for (bytes, wait) in [
        (0, Some(0)),
        (1, Some(1)),
        (300, Some(300)),
        (1_200, Some(1_200)),
        (1_201, None),
    ] {
        assert!(rt; pace.wait(bytes, 1050) == Ok(wait));
    }
    pace.came(1050)?;
    // at 1,500 bytes a second a byte takes less than a millisecond
    for (bytes, wait) in [(1, Some(1)), (3, Some(2)), (300, Some(200))] {
        assert!(rt; pace.wait(bytes, 1050) == Ok(wait));
    }
    Ok(())
}

#[test]
fn refuses_times_that_go_back(rt: HostRuntime) -> Result<(), Fail> {
    let mut pace = Pace::new(TERMS, 1000);
    let back = PaceRefusal::TimeGoesBack;
    assert!(rt; pace.came(999) == Err(back));
    assert!(rt; pace.lost(0, 999) == Err(back));
    assert!(rt; pace.went(1, 999) == Err(back));
    assert!(rt; pace.allowed(999) == Err(back));
    assert!(rt; pace.wait(1, 999) == Err(back));
    Ok(())
}
