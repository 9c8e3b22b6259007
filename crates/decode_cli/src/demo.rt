//! The datagrams of a demo.
ghost use Rattle.std.specs.Prelude.{◌≤◌, length, IfSome};

use crate::report::{datagram_text, push_made};
use crate::slots::Slots;
use crate::words::Refusal;
use demo_format::{HEAD_BYTES, ends_here, front_length, read_head};
use itoa::Buffer;
use std::alloc::Global;
use tn_types::{End, MAX_READ_BYTES};

/// The record that stands whole at the front, and what stands after it.
fn next_record(rest: &[u8]) -> Option<(&[u8], &[u8])>
    ensures { IfSome result (λ next. length next.0.now ≤ MAX_READ_BYTES) }
{
    let size = front_length(rest)?;
    let (_, from) = rest.split_at(2);
    Some(from.split_at(size))
}

/// Adds a word.
fn push_word(text: &mut Vec<u8>, word: &str) -> Result<(), Refusal> {
    match text.extend_from_slice(word.as_bytes()) {
        Ok(()) => Ok(()),
        Err(_) => Err(Refusal::NoMemory),
    }
}

/// Adds what stands before record `k`.
fn push_head(text: &mut Vec<u8>, k: u32) -> Result<(), Refusal> {
    push_word(text, "take ")?;
    push_word(text, Buffer::new().format(k))
}

/// Adds the datagrams of records, and answers what stands after the last whole one.
fn push_records<'a>(
    alloc: Global,
    version: u8,
    body: &'a [u8],
    brief: bool,
    text: &mut Vec<u8>,
) -> Result<&'a [u8], Refusal> {
    let mut slots = Slots::new();
    let mut rest = body;
    for k in 0..u32::MAX {
        let Some((next, behind)) = next_record(rest) else {
            return Ok(rest);
        };
        let made = datagram_text(alloc, version, End::Server, next, &mut slots, brief)?;
        push_head(text, k)?;
        push_made(text, "", made.as_slice(), brief)?;
        rest = behind;
    }
    Ok(rest)
}

/// The tables of the datagrams of a demo, or a line for each, and a last line: whether the demo ends there. Kinds that slots hold
/// are followed along.
pub(crate) fn demo_text(alloc: Global, bytes: &[u8], brief: bool) -> Result<Vec<u8>, Refusal> {
    let Ok(head) = read_head(bytes) else {
        return Err(Refusal::NoDemo);
    };
    let (_, body) = bytes.split_at(HEAD_BYTES);
    let mut text = Vec::new(alloc);
    let rest = push_records(alloc, head.version, body, brief, &mut text)?;
    push_word(&mut text, if ends_here(rest) { "end\n" } else { "cut\n" })?;
    Ok(text)
}
