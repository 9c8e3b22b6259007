//! A pair that keeps as many steps as can be kept.

use kept_pair::{KeepFault, KeptPair};
use pair_core::{Pair, PairStep};
use std::alloc::Global;
use std::test::Fail;
use stream_manager::Config;
use tn_types::{Class, Payload};
use world_rules::match_kinds;

const CONFIG: Config = Config {
    client: 0,
    life: 1_000,
    size: 128,
    version: 1,
    move_bits: 10,
};

/// A new pair that keeps its steps, in a match with the six kinds and no block.
fn new_kept(alloc: Global) -> Result<KeptPair, Fail> {
    let pair = Pair::new(alloc, CONFIG, &match_kinds(), &[])?;
    Ok(KeptPair::new(alloc, pair))
}

/// Posts an empty event that may be lost.
fn post(alloc: Global, kept: &mut KeptPair) -> Result<(), KeepFault> {
    kept.prepare(alloc)?;
    let _loose = kept.step(PairStep::Post {
        class: Class::Loose,
        payload: Payload::new(),
    });
    Ok(())
}

/// Posts so many. The first fault, and how many were posted before it.
fn posts(alloc: Global, kept: &mut KeptPair, count: u32) -> Option<(u32, KeepFault)> {
    for i in 0..count {
        if let Err(fault) = post(alloc, kept) {
            return Some((i, fault));
        }
    }
    None
}

/// Posts one more than can be kept: the first fault, how many were posted before it, and how many steps are kept then.
fn posts_of_new(alloc: Global) -> Result<(Option<(u32, KeepFault)>, u32), Fail> {
    let mut kept = new_kept(alloc)?;
    let fault = posts(alloc, &mut kept, 65_537);
    Ok((fault, kept.steps().len()))
}

#[test]
fn steps_are_kept_up_to_the_limit(rt: HostRuntime) -> Result<(), Fail> {
    let (fault, kept) = posts_of_new(rt.alloc())?;
    let full = KeepFault::NoRoom { kept: 65_536 };
    assert!(rt; fault == Some((65_536, full)) && kept == 65_536);
    Ok(())
}
