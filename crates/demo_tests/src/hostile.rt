//! Bytes that are no demo, demos that are cut, and forged ones.
ghost use Rattle.std.specs.Prelude.{◌<◌, ◌≤◌};

use crate::rows::whole;
use crate::served::asked;
use script_input::Status;
use std::alloc::{AllocError, Global};

/// How many byte strings are tried.
const TRIED: u32 = 5_000;

/// Numbers that look like chance.
#[derive(Drop)]
struct Draws {
    state: u64,
}

impl Draws {
    /// The next number, below `n`.
    fn below(&mut self, n: usize) -> usize
        requires { 0 < n }
        ensures { result < n }
    {
        self.state = self
            .state
            .wrapping_mul(6_364_136_223_846_793_005)
            .wrapping_add(1_442_695_040_888_963_407);
        (self.state >> 33) as usize % n
    }

    /// The next byte.
    fn byte(&mut self) -> u8 {
        self.below(256) as u8
    }
}

/// The place of the first part of a head that is missing or out of its range, asked part by part.
fn head_fault(bytes: &[u8]) -> Option<u32> {
    if !bytes.starts_with(b"TND1".as_slice()) {
        return Some(0);
    }
    match bytes.get(4) {
        Some(client) if *client < 16 => {}
        _ => return Some(4),
    }
    match bytes.get(5) {
        Some(1) => {}
        Some(2) => {}
        _ => return Some(5),
    }
    let (Some(a), Some(b), Some(c)) = (bytes.get(6), bytes.get(7), bytes.get(8)) else {
        return Some(6);
    };
    if *a == 0 && *b == 0 && *c == 0 {
        return Some(6);
    }
    let (Some(low), Some(high)) = (bytes.get(9), bytes.get(10)) else {
        return Some(9);
    };
    let size = u32::from(*low) + 256 * u32::from(*high);
    if 128 <= size && size <= 1_200 {
        None
    } else {
        Some(9)
    }
}

/// Whether a text has the form of a replay's: lines `take K ..` from 0 on, and then one that begins with `end` or `cut`.
fn has_form(alloc: Global, text: &str) -> Result<bool, AllocError> {
    let mut k = 0u32;
    let mut ended = false;
    for line in text.lines() {
        if ended {
            return Ok(false);
        }
        let begun = format!(in alloc; "take {k} ")?;
        if line.starts_with(begun.as_str()) {
            k = k.wrapping_add(1);
        } else if line.starts_with("end events ") || line.starts_with("cut events ") {
            ended = true;
        } else {
            return Ok(false);
        }
    }
    Ok(ended)
}

/// What a replay of these bytes writes; `None` where it does not end as it should.
fn told(rt: &HostRuntime, bytes: &[u8]) -> Option<String> {
    let (status, text) = asked(rt, &["replay"], bytes).ok()?;
    let text = String::from_utf8(text).ok()?;
    let holds = match head_fault(bytes) {
        Some(place) => status == Status::Demo(place) && text.is_empty(),
        None => status == Status::Done && has_form(rt.alloc(), text.as_str()) == Ok(true),
    };
    if holds { Some(text) } else { None }
}

/// So many bytes of chance after a front.
fn chance(draws: &mut Draws, out: &mut Vec<u8>, count: usize) -> Result<(), AllocError> {
    for _ in 0..count {
        out.push(draws.byte())?;
    }
    Ok(())
}

/// Bytes of chance: one time in four without a head, and one in four with a record of few bytes first.
fn drawn(draws: &mut Draws, out: &mut Vec<u8>, head: &[u8], i: u32) -> Result<(), AllocError> {
    if i % 4 != 0 {
        out.extend_from_slice(head)?;
    }
    if i % 4 == 1 {
        let few = draws.below(40);
        out.push(few as u8)?;
        out.push(0)?;
    }
    let count = draws.below(60);
    chance(draws, out, count)
}

#[test]
fn chance_bytes(rt: HostRuntime) {
    let mut draws = Draws { state: 7 };
    let demo = whole();
    let (head, _) = demo.split_at(demo.len().min(11));
    for i in 0..TRIED {
        let mut bytes = Vec::new(rt.alloc());
        drawn(&mut draws, &mut bytes, head, i).expect(&rt, "memory");
        assert!(rt; told(&rt, bytes.as_slice()).is_some());
    }
}

/// Up to four bytes of a demo become others.
fn forge(draws: &mut Draws, bytes: &mut [u8]) {
    for _ in 0..1 + draws.below(4) {
        let place = draws.below(195);
        let byte = draws.byte();
        if let Some(there) = bytes.get_mut(place) {
            *there = byte;
        }
    }
}

#[test]
fn forged(rt: HostRuntime) {
    let mut draws = Draws { state: 11 };
    for _ in 0..TRIED {
        let mut bytes = whole().to_vec(rt.alloc()).expect(&rt, "memory");
        forge(&mut draws, bytes.as_mut_slice());
        assert!(rt; told(&rt, bytes.as_slice()).is_some());
    }
}

/// Whether all lines of a text but the last are the first of the whole one's, and the last says that the demo is cut.
fn is_cut(text: &str, whole: &str) -> bool {
    let mut lines = whole.lines();
    for line in text.lines() {
        let is_so = if line.starts_with("take ") {
            lines.next() == Some(line)
        } else {
            line.starts_with("cut events ")
        };
        if !is_so {
            return false;
        }
    }
    true
}

#[test]
fn cuts(rt: HostRuntime) {
    let demo = whole();
    let all = told(&rt, demo).expect(&rt, "the whole demo");
    for count in 0..demo.len() {
        let (front, _) = demo.split_at(count);
        let text = told(&rt, front).expect(&rt, "a demo that is cut");
        assert!(rt; count < 11 || is_cut(text.as_str(), all.as_str()));
    }
}
