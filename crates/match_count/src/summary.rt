//! The summary that `big` writes.
ghost use Rattle.std.specs.Prelude.{◌≡◌, ◌++◌, OnOk, OnErr, string_bytes};
ghost use Rattle.match_count.specs.Summary.{count_line, title_line, summary_text};

use crate::counts::Counts;
use std::alloc::{AllocError, Global};
use std::fmt::Write;
use tn_types::NoMemory;

// Bytes for which a summary has room, so that it seldom grows.
const USUAL_SUMMARY: usize = 256;

fn put_title(text: &mut String, seed: u32, clients: u8, steps: u32) -> Result<(), AllocError>
    ensures { OnOk result (string_bytes text.new ≡ string_bytes text.old ++ title_line seed clients steps) }
{
    writeln!(text, "big {seed} {clients} {steps}")
}

fn put_line(text: &mut String, word: &str, n: u64) -> Result<(), AllocError>
    ensures { OnOk result (string_bytes text.new ≡ string_bytes text.old ++ count_line word.now n) }
{
    text.push_str(word)?;
    writeln!(text, " {n}")
}

fn put_summary(
    text: &mut String,
    seed: u32,
    clients: u8,
    steps: u32,
    counts: &Counts,
) -> Result<(), AllocError>
    ensures { OnOk result (string_bytes text.new ≡ string_bytes text.old ++ summary_text seed clients steps counts.now) }
{
    put_title(text, seed, clients, steps)?;
    put_line(text, "data", counts.data_packets)?;
    put_line(text, "ping", counts.pings)?;
    put_line(text, "down", counts.down)?;
    put_line(text, "old", counts.old_packets)?;
    put_line(text, "events", counts.events)?;
    put_line(text, "moves", counts.moves)?;
    put_line(text, "bytes", counts.bytes)
}

/// Appends the summary of a large match, by the words of `big` and the counts of its report (docs/maker.md, "The summary
/// of a large match"). Where memory was not to be had, `out` is unchanged.
pub fn put_counts(
    alloc: Global,
    seed: u32,
    clients: u8,
    steps: u32,
    counts: &Counts,
    out: &mut Vec<u8>,
) -> Result<(), NoMemory>
    ensures summary { OnOk result (out.new.items ≡ out.old.items ++ summary_text seed clients steps counts.now) }
    ensures unchanged { OnErr result (out.new.items ≡ out.old.items) }
{
    let Ok(mut text) = String::with_capacity(alloc, USUAL_SUMMARY) else {
        return Err(NoMemory);
    };
    if put_summary(&mut text, seed, clients, steps, counts).is_err() {
        return Err(NoMemory);
    }
    match out.extend_from_slice(text.as_bytes()) {
        Ok(()) => Ok(()),
        Err(_) => Err(NoMemory),
    }
}
