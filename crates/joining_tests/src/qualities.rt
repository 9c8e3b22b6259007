//! Round trips and losses by rows that were worked out by hand.
ghost use Rattle.std.specs.Prelude.{◌≤◌};

use link_quality::{LinkQuality, QualityRefusal, RoundTrip};
use std::test::Fail;
use tn_types::Verdict;

#[test]
fn tells_round_trips(rt: HostRuntime) -> Result<(), Fail> {
    let mut quality = LinkQuality::new(rt.alloc())?;
    for now in [1000, 1050, 1100, 1100] {
        quality.sent(now)?;
    }
    assert!(rt; quality.round_trip() == None);
    // 120 milliseconds, which differ by 60
    quality.judged(Verdict::Received, 1120)?;
    let first = RoundTrip {
        eighths: 960,
        quarters: 240,
    };
    assert!(rt; quality.round_trip() == Some(first));
    // a lost one tells nothing of it
    quality.judged(Verdict::Lost, 1150)?;
    assert!(rt; quality.round_trip() == Some(first));
    assert!(rt; quality.losses() == 1);
    // 150 milliseconds: a little more
    quality.judged(Verdict::Received, 1250)?;
    let second = RoundTrip {
        eighths: 990,
        quarters: 210,
    };
    assert!(rt; quality.round_trip() == Some(second));
    // longer than the longest that counts
    quality.judged(Verdict::Received, 1_000_000)?;
    let third = RoundTrip {
        eighths: 990 - 123 + 65_535,
        quarters: 210 - 52 + 65_535 - 123,
    };
    assert!(rt; quality.round_trip() == Some(third));
    Ok(())
}

#[test]
fn counts_losses_of_the_last_64(rt: HostRuntime) -> Result<(), Fail> {
    let mut quality = LinkQuality::new(rt.alloc())?;
    for n in 0..70 {
        quality.sent(n)?;
        quality.judged(Verdict::Lost, n)?;
    }
    assert!(rt; quality.losses() == 64);
    for n in 70..100 {
        quality.sent(n)?;
        quality.judged(Verdict::Received, n)?;
    }
    assert!(rt; quality.losses() == 34);
    Ok(())
}

#[test]
fn refuses(rt: HostRuntime) -> Result<(), Fail> {
    let mut quality = LinkQuality::new(rt.alloc())?;
    assert!(rt; quality.judged(Verdict::Lost, 10) == Err(QualityRefusal::NothingWaits));
    for _ in 0..64 {
        quality.sent(20)?;
    }
    assert!(rt; quality.sent(20) == Err(QualityRefusal::TooMany));
    assert!(rt; quality.sent(19) == Err(QualityRefusal::TimeGoesBack));
    assert!(rt; quality.judged(Verdict::Lost, 19) == Err(QualityRefusal::TimeGoesBack));
    quality.judged(Verdict::Lost, 20)?;
    quality.sent(20)?;
    Ok(())
}
