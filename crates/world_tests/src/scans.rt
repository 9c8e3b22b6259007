//! Of `client_scope`: one client's scans, one after the other.
ghost use Rattle.std.specs.Prelude.{◌≡◌};

use client_scope::{Near, Scope, ShownPeriod};
use std::alloc::Global;
use tn_types::NoMemory;
use world_scope::Seen;

// An object at a level.
fn at(object: u32, level: u8) -> Seen
    ensures { result ≡ record { object = object; level = level } }
{
    Seen { object, level }
}

// Objects 3 and 7, then 7 alone and nearer, then both.
fn three_scans(alloc: Global) -> Result<Scope, NoMemory> {
    let mut scope = Scope::new(alloc)?;
    scope.scan(alloc, &[at(3, 1), at(7, 2)])?;
    scope.scan(alloc, &[at(7, 0)])?;
    scope.scan(alloc, &[at(3, 1), at(7, 0)])?;
    Ok(scope)
}

#[test]
fn an_object_lost_and_seen_again(rt: HostRuntime) {
    let scope = three_scans(rt.alloc()).expect(&rt, "memory");
    assert!(rt; scope.count() == 3 && scope.shows() == [at(3, 1)].as_slice());
    let shown = [
        ShownPeriod {
            n: 1,
            object: 7,
            level: 0,
        },
        ShownPeriod {
            n: 2,
            object: 3,
            level: 1,
        },
    ];
    assert!(rt; scope.shown() == shown.as_slice());
}

// The same without the last scan.
fn two_scans(alloc: Global) -> Result<Scope, NoMemory> {
    let mut scope = Scope::new(alloc)?;
    scope.scan(alloc, &[at(3, 1), at(7, 2)])?;
    scope.scan(alloc, &[at(7, 0)])?;
    Ok(scope)
}

#[test]
fn an_object_lost_beside_one_that_comes_nearer(rt: HostRuntime) {
    let scope = two_scans(rt.alloc()).expect(&rt, "memory");
    assert!(rt; scope.hides() == [0].as_slice() && scope.shows().is_empty());
    assert!(rt; scope.nears() == [Near { n: 1, level: 0 }].as_slice());
}
