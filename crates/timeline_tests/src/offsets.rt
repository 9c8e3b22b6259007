//! Offsets by rows that were worked out by hand.
ghost use Rattle.std.specs.Prelude.{◌≤◌};

use fading_offset::Fading;

#[test]
fn correction_fades(rt: HostRuntime) {
    for (is, left) in [
        (900, [75, 56, 42, 31, 23, 17, 12]),
        (1100, [-75, -56, -42, -31, -23, -17, -12]),
    ] {
        let mut offset = Fading::new(1000);
        offset.corrected(1000, is);
        for part in left {
            offset.faded();
            assert!(rt; offset.offset() == part);
        }
    }
}

#[test]
fn correction_past_the_bound_is_shown_at_once(rt: HostRuntime) {
    let mut offset = Fading::new(1000);
    offset.corrected(2000, 1000);
    assert!(rt; offset.offset() == 1000);
    offset.corrected(7, 7);
    assert!(rt; offset.offset() == 1000);
    offset.corrected(1, 0);
    assert!(rt; offset.offset() == 0);
    offset.corrected(i32::MIN, i32::MAX);
    assert!(rt; offset.offset() == 0);
}

#[test]
fn greatest_offset_is_gone_after_56_steps(rt: HostRuntime) {
    let mut offset = Fading::new(16_777_215);
    offset.corrected(0, -16_777_215);
    for _ in 0..55 {
        offset.faded();
    }
    assert!(rt; offset.offset() == 1);
    offset.faded();
    assert!(rt; offset.offset() == 0);
}
