//! Lanes for one thread.
use dirty_lanes::PlainLanes;

#[test]
fn plain_lane_words(rt: HostRuntime) {
    let mut lanes = PlainLanes::new(rt.alloc(), 1, 1).expect(&rt, "memory");
    assert!(rt; lanes.read(0, 0, 0) == (0, 0));
    lanes.write(0, 0, 5);
    lanes.raise(0, 0, 1);
    let words = [lanes.raised(0, 0), lanes.drain(0, 0), lanes.raised(0, 0)];
    assert!(rt; words == [1, 1, 0] && lanes.read(0, 0, 0) == (1, 5));
    assert!(rt; lanes.drain(0, 0) == 0);
}

#[test]
fn clients_and_objects_stand_apart(rt: HostRuntime) {
    let mut lanes = PlainLanes::new(rt.alloc(), 2, 2).expect(&rt, "memory");
    assert!(rt; (lanes.objects(), lanes.clients()) == (2, 2));
    lanes.write(0, 15, 7);
    lanes.write(0, 15, 4_294_967_295);
    lanes.write(1, 0, 9);
    lanes.raise(0, 0, 32_768);
    lanes.raise(1, 0, 32_768);
    lanes.raise(1, 1, 1);
    assert!(rt; lanes.drain(1, 0) == 32_768);
    let raised = [
        lanes.raised(0, 0),
        lanes.raised(1, 0),
        lanes.raised(0, 1),
        lanes.raised(1, 1),
    ];
    assert!(rt; raised == [32_768, 0, 0, 1]);
    let words = [
        lanes.read(1, 0, 15),
        lanes.read(0, 1, 0),
        lanes.read(0, 1, 15),
    ];
    assert!(rt; words == [(2, 4_294_967_295), (1, 9), (0, 0)]);
}

#[test]
fn raises_gather_until_a_drain(rt: HostRuntime) {
    let mut lanes = PlainLanes::new(rt.alloc(), 1024, 16).expect(&rt, "memory");
    lanes.raise(15, 1023, 6);
    lanes.raise(15, 1023, 3);
    assert!(rt; lanes.drain(15, 1023) == 7);
    lanes.raise(15, 1023, 8);
    assert!(rt; lanes.drain(15, 1023) == 8);
}
