//! A read or a write that fails in its turn, and short reads and writes.

use crate::served::{ALL, served};
use crate::world_rows::WORLD_ROWS;
use script_input::Status;
use std::alloc::AllocError;

/// How many bytes a short call moves.
const FEW: usize = 7;

/// The script of a slot that is not given again until its kill was received, and its report.
fn taken_slot() -> (&'static str, &'static str) {
    let mut found = ("", "");
    for (name, script, report) in WORLD_ROWS {
        if name == "slot_taken_until_kill_received" {
            found = (script, report);
        }
    }
    found
}

// Whether `run` over a source and a sink of so many bytes a call, of which these calls fail, answers and writes this.
fn runs(
    rt: &HostRuntime,
    script: &str,
    most: usize,
    (failing_reads, failing_writes): (&[u64], &[u64]),
    (status, written): (Status, &str),
) -> bool {
    if most == 0 {
        return false;
    }
    match served(
        rt,
        &["run"],
        script.as_bytes(),
        most,
        failing_reads,
        failing_writes,
    ) {
        Ok((found, bytes)) => found == status && bytes.as_slice() == written.as_bytes(),
        Err(_) => false,
    }
}

#[test]
fn each_read_fails_once(rt: HostRuntime) {
    let (script, report) = taken_slot();
    // One more than those that give bytes: the last finds the end.
    let reads = script.len().div_ceil(FEW) as u64 + 1;
    for call in 0..reads {
        assert!(rt; runs(&rt, script, FEW, (&[call], &[]), (Status::ReadFault, "")));
    }
    assert!(rt; runs(&rt, script, FEW, (&[reads], &[]), (Status::Done, report)));
}

// One more line of a text.
fn add_line(text: &mut String, line: &str) -> Result<(), AllocError> {
    text.push_str(line)?;
    text.push_str("\n")?;
    Ok(())
}

#[test]
fn each_write_fails_once(rt: HostRuntime) {
    let (script, report) = taken_slot();
    let mut front = String::new(rt.alloc());
    let mut call = 0u64;
    for line in report.lines() {
        let cut = (Status::WriteFault, front.as_str());
        assert!(rt; runs(&rt, script, ALL, (&[], &[call]), cut));
        add_line(&mut front, line).expect(&rt, "memory");
        call = call.saturating_add(1);
    }
    assert!(rt; front.as_str() == report);
    assert!(rt; runs(&rt, script, ALL, (&[], &[call]), (Status::Done, report)));
}

#[test]
fn short_reads_and_writes(rt: HostRuntime) {
    let (script, report) = taken_slot();
    for most in [1, FEW] {
        assert!(rt; runs(&rt, script, most, (&[], &[]), (Status::Done, report)));
    }
}
