//! A large match in threads.

use crate::gates::WatchGate;
use script_maker::make;
use threads_top::{Judgement, run_threads};
use tn_outside::MemSink;

/// The match is run until a packer was seen at work beside the simulation, and so often at most: on a machine that is busy with other
/// things they may run one after the other for a while.
const RUNS: u32 = 100;

/// More bytes than a write has.
const ALL: usize = 1 << 26;

#[test]
fn large_match_in_threads(rt: HostRuntime) {
    let script = make(rt.alloc(), 7, 8, 5000).expect(&rt, "memory");
    let gate = WatchGate::new();
    'runs: for _ in 0..RUNS {
        if gate.saw_both() {
            break 'runs;
        }
        let mut sink = MemSink {
            bytes: Vec::new(rt.alloc()),
            most: ALL,
            failing: &[],
            calls: 0,
            faults: 0,
        };
        let mut judgement = Judgement::new();
        let ran = run_threads(&rt, rt.alloc(), &script, &gate, &mut judgement, &mut sink);
        assert!(rt; ran.is_ok() && !judgement.is_refused() && sink.bytes.len() > 0);
    }
    assert!(rt; gate.saw_both());
}
