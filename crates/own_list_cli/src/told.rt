//! The lines that tell an item of an own list.

use client_scope::Near;
use match_script::put_line;
use own_items::{OwnItem, OwnShow, OwnWrite};
use std::alloc::{AllocError, Global};
use std::fmt::Write;
use tn_types::NoMemory;

/// `@set N FIELD VALUE` for each value of a period.
fn put_values(out: &mut String, n: u64, values: &[i64]) -> Result<(), AllocError> {
    for (field, value) in values.iter().enumerate() {
        writeln!(out, "@set {n} {field} {value}")?;
    }
    Ok(())
}

/// `@show KIND BLOCK LEVEL CONTROL` with its values for each period that begins; gives how many periods were shown with these.
fn put_shows(out: &mut String, shown: u64, shows: &[OwnShow]) -> Result<u64, AllocError> {
    let mut n = shown;
    for show in shows.iter() {
        let OwnShow {
            kind,
            block,
            level,
            control,
            values,
        } = show;
        let control = if *control { 1u8 } else { 0u8 };
        writeln!(out, "@show {kind} {block} {level} {control}")?;
        put_values(out, n, values.as_slice())?;
        n = n.saturating_add(1);
    }
    Ok(n)
}

/// `@hide N` for each period that ends.
fn put_hides(out: &mut String, hides: &[u32]) -> Result<(), AllocError> {
    for n in hides.iter() {
        writeln!(out, "@hide {n}")?;
    }
    Ok(())
}

/// `@near N LEVEL` for each period that is at another level.
fn put_nears(out: &mut String, nears: &[Near]) -> Result<(), AllocError> {
    for near in nears.iter() {
        let Near { n, level } = near;
        writeln!(out, "@near {n} {level}")?;
    }
    Ok(())
}

/// `@set N FIELD VALUE` and `@changed N FIELD` for each write.
fn put_writes(out: &mut String, writes: &[OwnWrite]) -> Result<(), AllocError> {
    for write in writes.iter() {
        let OwnWrite { n, field, value } = write;
        writeln!(out, "@set {n} {field} {value}")?;
        writeln!(out, "@changed {n} {field}")?;
    }
    Ok(())
}

/// Puts an item after the text, where so many periods were shown before it; gives how many were with it.
pub(crate) fn put_item(
    alloc: Global,
    out: &mut String,
    shown: u64,
    item: &OwnItem,
) -> Result<u64, NoMemory> {
    match item {
        OwnItem::Line { line } => {
            put_line(alloc, out, line)?;
            Ok(shown)
        }
        OwnItem::Scan {
            hides,
            nears,
            shows,
        } => match put_scan(
            out,
            shown,
            hides.as_slice(),
            nears.as_slice(),
            shows.as_slice(),
        ) {
            Ok(now) => Ok(now),
            Err(_) => Err(NoMemory),
        },
        OwnItem::Tick {
            writes,
            taken: _taken,
        } => match put_tick(out, writes.as_slice()) {
            Ok(()) => Ok(shown),
            Err(_) => Err(NoMemory),
        },
    }
}

/// What a scan says.
fn put_scan(
    out: &mut String,
    shown: u64,
    hides: &[u32],
    nears: &[Near],
    shows: &[OwnShow],
) -> Result<u64, AllocError> {
    put_hides(out, hides)?;
    put_nears(out, nears)?;
    put_shows(out, shown, shows)
}

/// `tick`, and what it wrote.
fn put_tick(out: &mut String, writes: &[OwnWrite]) -> Result<(), AllocError> {
    writeln!(out, "tick")?;
    put_writes(out, writes)
}
