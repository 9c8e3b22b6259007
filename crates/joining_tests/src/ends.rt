//! An end that is heard, falls silent, leaves.

use presence::{Presence, goodbye, goodbye_in};

#[test]
fn silence_and_goodbyes_end_it(rt: HostRuntime) {
    let mut other = Presence::new(5_000, 100);
    other.came(900);
    // a time that goes back changes nothing
    other.came(400);
    for (now, alive) in [(100, true), (900, true), (5_900, true), (5_901, false)] {
        assert!(rt; other.is_alive(now) == alive);
    }
    assert!(rt; goodbye(263) == [23, 1, 7, 1]);
    assert!(rt; goodbye_in(&[23, 1, 7, 1]) == Some(263));
    assert!(rt; goodbye_in(&[23, 1, 7]) == None);
    assert!(rt; goodbye_in(&[23, 2, 7, 1]) == None);
    other.ended(263);
    other.ended(5);
    assert!(rt; other.reason() == Some(263));
    assert!(rt; !other.is_alive(900));
}

#[test]
fn three_goodbyes_are_said(rt: HostRuntime) {
    let mut other = Presence::new(5_000, 100);
    assert!(rt; other.say() == None);
    other.leave(7);
    other.leave(8);
    for said in [Some(7), Some(7), Some(7), None, None] {
        assert!(rt; other.say() == said);
    }
    assert!(rt; !other.is_alive(100));
}
