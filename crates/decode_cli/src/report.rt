//! The datagrams of a report.
ghost use Rattle.std.specs.Prelude.{◌≤◌, length};

use crate::slots::Slots;
use crate::table::{down_text, up_text};
use crate::words::{Refusal, bytes_of};
use std::alloc::Global;
use tn_types::{End, MAX_CLIENTS, MAX_READ_BYTES};

/// A line of a report that has a datagram.
#[derive(Drop)]
struct Sent<'a> {
    by: End,
    client: usize,
    /// The line up to the datagram, without the kind of packet.
    head: &'a str,
    hex: &'a str,
}

/// The first word of a line, and what stands after it.
fn first_word(line: &str) -> Option<(&str, &str)> {
    line.split_once(' ')
}

/// What a line `pack C K data HEX`, `cpack C K data HEX` or `raw C HEX` says; `None` for any other line.
fn sent_of(line: &str) -> Option<Sent<'_>> {
    let (name, behind) = first_word(line)?;
    let by = match name {
        "pack" => End::Server,
        "cpack" => End::Client,
        "raw" => End::Client,
        _ => return None,
    };
    let (head, hex) = line.rsplit_once(' ')?;
    let (client, rest) = first_word(behind)?;
    let client = client.parse::<usize>().ok()?;
    if client >= MAX_CLIENTS as usize {
        return None;
    }
    if name == "raw" {
        return if rest == hex {
            Some(Sent {
                by,
                client,
                head,
                hex,
            })
        } else {
            None
        };
    }
    let (head, kind) = head.rsplit_once(' ')?;
    if kind != "data" && kind != "ping" {
        return None;
    }
    Some(Sent {
        by,
        client,
        head,
        hex,
    })
}

/// For each client what its slots hold.
fn all_slots(alloc: Global) -> Result<Vec<Slots>, Refusal> {
    let mut all = Vec::new(alloc);
    for _ in 0..MAX_CLIENTS {
        if all.push(Slots::new()).is_err() {
            return Err(Refusal::NoMemory);
        }
    }
    Ok(all)
}

/// The table of a datagram, or its line.
pub(crate) fn datagram_text(
    alloc: Global,
    version: u8,
    by: End,
    bytes: &[u8],
    slots: &mut Slots,
    brief: bool,
) -> Result<Vec<u8>, Refusal>
    requires { length bytes.now ≤ MAX_READ_BYTES }
{
    let made = match by {
        End::Server => down_text(alloc, version, bytes, slots, brief),
        End::Client => up_text(alloc, version, bytes, brief),
    };
    match made {
        Ok(text) => Ok(text),
        Err(_) => Err(Refusal::NoMemory),
    }
}

/// Adds a line's head and what stands behind it.
pub(crate) fn push_line(text: &mut Vec<u8>, head: &str, line: &[u8]) -> Result<(), Refusal> {
    if text.extend_from_slice(head.as_bytes()).is_ok() && text.extend_from_slice(line).is_ok() {
        Ok(())
    } else {
        Err(Refusal::NoMemory)
    }
}

/// Adds the line up to a datagram, the datagram's table, and an empty line.
fn push_table(text: &mut Vec<u8>, head: &str, table: &[u8]) -> Result<(), Refusal> {
    let pushed = text.extend_from_slice(head.as_bytes()).is_ok()
        && text.extend_from_slice(b"\n").is_ok()
        && text.extend_from_slice(table).is_ok()
        && text.extend_from_slice(b"\n").is_ok();
    if pushed {
        Ok(())
    } else {
        Err(Refusal::NoMemory)
    }
}

/// Adds what was made of a datagram.
pub(crate) fn push_made(
    text: &mut Vec<u8>,
    head: &str,
    made: &[u8],
    brief: bool,
) -> Result<(), Refusal> {
    if brief {
        push_line(text, head, made)
    } else {
        push_table(text, head, made)
    }
}

/// The tables of the datagrams of a report, or a line for each. Kinds that slots hold are followed along, client by client.
pub(crate) fn report_text(
    alloc: Global,
    version: u8,
    report: &str,
    brief: bool,
) -> Result<Vec<u8>, Refusal> {
    let mut all = all_slots(alloc)?;
    let mut text = Vec::new(alloc);
    for line in report.lines() {
        if let Some(sent) = sent_of(line) {
            if let Ok(bytes) = bytes_of(alloc, sent.hex) {
                if let Some(slots) = all.get_mut(sent.client) {
                    if bytes.len() <= MAX_READ_BYTES {
                        let bytes = bytes.as_slice();
                        let made = datagram_text(alloc, version, sent.by, bytes, slots, brief)?;
                        push_made(&mut text, sent.head, made.as_slice(), brief)?;
                    }
                }
            }
        }
    }
    Ok(text)
}
