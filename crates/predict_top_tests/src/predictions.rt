//! Of `client_predict`: values and offsets as they were worked out by hand, and a long course against a plain fold.
ghost use Rattle.std.specs.Prelude.{◌≡◌, true};
ghost use Rattle.tn_types.specs.Steps.{is_step};

use bit_stream::bits_of_move;
use client_predict::Predict;
use tn_types::{Move, MoveBits};
use wire_format::MoveList;

// A step of so many units each way.
fn step(dx: i8, dy: i8, fire: bool) -> MoveBits
    requires dx_range { is_step dx ≡ true }
    requires dy_range { is_step dy ≡ true }
{
    bits_of_move(&Move {
        dx,
        dy,
        fire,
        act: false,
    })
}

#[test]
fn offset_fades(rt: HostRuntime) {
    for (base, left) in [
        (900, [75, 56, 42, 31, 23, 17, 12]),
        (1100, [-75, -56, -42, -31, -23, -17, -12]),
    ] {
        let mut predict = Predict::new();
        predict.told(Some((1000, 1000, 20)), &MoveList::new());
        predict.told(Some((base, 1000, 20)), &MoveList::new());
        for part in left {
            predict.sampled(step(0, 0, false));
            assert!(rt; predict.offset() == (part, 0));
        }
        assert!(rt; predict.value() == Some((base, 1000, 20)));
    }
}

#[test]
fn moves_are_played_at_once(rt: HostRuntime) {
    let (right, up) = (step(2, 0, false), step(0, -1, true));
    let mut predict = Predict::new();
    predict.sampled(right);
    assert!(rt; predict.value().is_none());
    predict.told(Some((1000, 1000, 20)), &MoveList::new());
    predict.sampled(right);
    assert!(rt; predict.value() == Some((1050, 1000, 20)));
    predict.sampled(up);
    assert!(rt; predict.value() == Some((1050, 975, 19)));
    // the server took the first move, and where the player went is where he was predicted
    let mut pending = MoveList::new();
    pending.push(up);
    predict.told(Some((1050, 1000, 20)), &pending);
    assert!(rt; predict.value() == Some((1050, 975, 19)) && predict.offset() == (0, 0));
    // it took the second one too, but not from there
    predict.told(Some((950, 975, 19)), &MoveList::new());
    assert!(rt; predict.value() == Some((950, 975, 19)) && predict.offset() == (100, 0));
}

#[test]
fn offset_past_the_greatest(rt: HostRuntime) {
    for (old, new, offset) in [
        ((2000, 5), (1000, 7), (1000, -2)),
        ((2001, 5), (1000, 7), (0, 0)),
        ((1000, 5), (2000, 7), (-1000, -2)),
        ((1000, 5), (2001, 7), (0, 0)),
        ((5, 1000), (7, 2001), (0, 0)),
        ((5, 1000), (7, 2000), (-2, -1000)),
    ] {
        let mut predict = Predict::new();
        predict.told(Some((old.0, old.1, 20)), &MoveList::new());
        predict.told(Some((new.0, new.1, 20)), &MoveList::new());
        assert!(rt; predict.offset() == offset);
    }
}

#[test]
fn no_player(rt: HostRuntime) {
    let mut predict = Predict::new();
    assert!(rt; predict.value().is_none());
    predict.told(Some((1000, 1000, 20)), &MoveList::new());
    predict.told(Some((1010, 1000, 20)), &MoveList::new());
    assert!(rt; predict.offset() == (-10, 0));
    predict.told(None, &MoveList::new());
    assert!(rt; predict.value().is_none() && predict.offset() == (0, 0));
    predict.sampled(step(1, 1, true));
    assert!(rt; predict.value().is_none());
    predict.told(Some((40, 1000, 20)), &MoveList::new());
    assert!(rt; predict.value() == Some((40, 1000, 20)) && predict.offset() == (0, 0));
}

#[test]
fn settles_with_22_samples(rt: HostRuntime) {
    let mut predict = Predict::new();
    predict.told(Some((2000, 1000, 20)), &MoveList::new());
    predict.told(Some((1000, 2000, 20)), &MoveList::new());
    assert!(rt; predict.offset() == (1000, -1000));
    for _ in 0..21 {
        predict.sampled(step(0, 0, false));
    }
    assert!(rt; predict.offset() == (1, -1));
    predict.sampled(step(0, 0, false));
    assert!(rt; predict.offset() == (0, 0));
}
