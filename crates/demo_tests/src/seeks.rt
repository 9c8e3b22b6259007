//! A seek to each place of a demo beside a replay of so many records.
ghost use Rattle.std.specs.Prelude.{◌≡◌, ◌<◌, ◌≤◌, length};

use crate::rows::whole;
use crate::served::ALL;
use copies_told::copies_told;
use demo_record::demo_format::MAX_DEMO_BYTES;
use demo_record::write_demo_of;
use demo_seek::Demo;
use demo_seek::demo_replay::replay_at;
use match_report::put_shown;
use script_maker::make;
use std::marker::Brand;
use std::sync::ledger::{Blank, Ledger};
use std::test::Fail;
use tn_outside::MemSink;
use tn_types::Steps;

/// A sink that takes all.
fn sink(rt: &HostRuntime) -> MemSink<'static> {
    MemSink {
        bytes: Vec::new(rt.alloc()),
        most: ALL,
        failing: &[],
        calls: 0,
        faults: 0,
    }
}

/// The demo of client 0 of a made match.
fn made(rt: &HostRuntime) -> Result<Vec<u8>, Fail> {
    let script = make(rt.alloc(), 7, 8, 5000)?;
    let mut sink = sink(rt);
    match write_demo_of(rt.alloc(), &script, 0, &mut sink) {
        Ok(()) => Ok(sink.bytes),
        Err(_) => Err("a match that can't be recorded".into()),
    }
}

/// What a replay of the first `k` records tells.
fn replayed(rt: &HostRuntime, bytes: &[u8], k: u32) -> Result<Vec<u8>, Fail>
    requires { length bytes.now ≤ MAX_DEMO_BYTES }
{
    let mut sink = sink(rt);
    match replay_at(rt.alloc(), bytes, k, &mut sink) {
        Ok(()) => Ok(sink.bytes),
        Err(_) => Err("a demo that can't be replayed".into()),
    }
}

/// What the viewer shows after the first `k` records, in a replay's words.
fn shown<L: Ledger>(rt: &HostRuntime, demo: &Demo, k: u32, blank: Blank) -> Result<Vec<u8>, Fail>
    requires few { k ≤ length demo.now.records }
    requires name { blank.name ≡ L.name }
    requires parts { blank.parts ≡ L.parts }
    requires some { 0 < blank.parts }
{
    let mut steps: Steps<L> = Steps::new(blank);
    let viewer = demo.at(rt.alloc(), k, &mut steps)?;
    let copies = copies_told(rt.alloc(), viewer.copies())?;
    let mut text = Vec::new(rt.alloc());
    put_shown(
        rt.alloc(),
        "at",
        viewer.delivered(),
        copies.as_slice(),
        &mut text,
    )?;
    Ok(text)
}

/// The same with a counter of its own.
fn seen(rt: &HostRuntime, demo: &Demo, k: u32) -> Result<Vec<u8>, Fail>
    requires { k ≤ length demo.now.records }
{
    shown::<Brand>(rt, demo, k, Blank::new(1))
}

/// A demo, loaded with a counter of its own.
fn loaded<L: Ledger>(rt: &HostRuntime, bytes: &[u8], blank: Blank) -> Result<Demo, Fail>
    requires few { length bytes.now ≤ MAX_DEMO_BYTES }
    requires name { blank.name ≡ L.name }
    requires parts { blank.parts ≡ L.parts }
    requires some { 0 < blank.parts }
{
    let mut steps: Steps<L> = Steps::new(blank);
    match Demo::load(rt.alloc(), bytes, &mut steps) {
        Ok(demo) => Ok(demo),
        Err(_) => Err("a demo that can't be loaded".into()),
    }
}

/// Holds that each place of a demo shows what a replay of so many records shows, and gives how many records there are.
fn seeks(rt: &HostRuntime, bytes: &[u8]) -> Result<u32, Fail> {
    if bytes.len() > MAX_DEMO_BYTES {
        return Err("a demo that is too long".into());
    }
    let demo = loaded::<Brand>(rt, bytes, Blank::new(1))?;
    for k in 0..=demo.count() {
        let text = replayed(rt, bytes, k)?;
        let same = seen(rt, &demo, k)?;
        if same.as_slice() != text.as_slice() {
            return Err("a seek that does not show what a replay shows".into());
        }
    }
    Ok(demo.count())
}

#[test]
fn each_seek_shows_what_a_replay_shows(rt: HostRuntime) -> Result<(), Fail> {
    let demo = made(&rt)?;
    assert!(rt; seeks(&rt, demo.as_slice())? > 64);
    // three of its records are refused
    assert_eq!(rt; seeks(&rt, whole())?, 7);
    Ok(())
}
