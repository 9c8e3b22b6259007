//! The lines of a relay's report.
ghost use Rattle.std.specs.Prelude.{◌≡◌, ◌++◌, OnOk, OnErr, string_bytes, codes};
ghost use Rattle.std.specs.Fmt.{decimal};
ghost use Rattle.match_report.specs.Text.{report_line};
ghost use Rattle.relay_report.specs.Report.{relay_text, scan_words, show_words};

use match_report::{Told, put_line, put_shown};
use std::alloc::{AllocError, Global};
use std::fmt::Write;
use tn_types::NoMemory;

// How a line begins that shows what a spectator has.
fn put_show_words(words: &mut String, spectator: u8) -> Result<(), AllocError>
    ensures { OnOk result (string_bytes words.new ≡ string_bytes words.old ++ show_words spectator) }
{
    write!(words, "r show {spectator}")
}

// The line of a scan.
fn put_scan_words(words: &mut String, spectator: u8, shows: usize) -> Result<(), AllocError>
    ensures { OnOk result (string_bytes words.new ≡ string_bytes words.old ++ scan_words spectator shows) }
{
    writeln!(words, "r scan {spectator} show {shows}")
}

// Appends the line of a scan.
fn put_scanned(
    alloc: Global,
    spectator: u8,
    shows: usize,
    out: &mut Vec<u8>,
) -> Result<(), NoMemory>
    ensures { OnOk result (out.new.items ≡ out.old.items ++ scan_words spectator shows) }
{
    let mut words = String::new(alloc);
    let Ok(()) = put_scan_words(&mut words, spectator, shows) else {
        return Err(NoMemory);
    };
    match out.extend_from_slice(words.as_bytes()) {
        Ok(()) => Ok(()),
        Err(_) => Err(NoMemory),
    }
}

// Appends a line as a match has it, after `r `.
fn put_plain(alloc: Global, told: &Told, out: &mut Vec<u8>) -> Result<(), NoMemory>
    ensures { OnOk result (out.new.items ≡ out.old.items ++ (codes "r " ++ report_line told.now)) }
{
    let Ok(()) = out.extend_from_slice(b"r ") else {
        return Err(NoMemory);
    };
    put_line(alloc, told, out)
}

/// Appends the line of the report of what a line of the relay told (docs/relay.md). After an error a front of it may stand there.
pub fn put_relayed(alloc: Global, told: &Told, out: &mut Vec<u8>) -> Result<(), NoMemory>
    ensures { OnOk result (out.new.items ≡ out.old.items ++ relay_text told.now) }
{
    match told {
        Told::Scan {
            client,
            hides: _,
            nears: _,
            shows,
        } => put_scanned(alloc, *client, *shows, out),
        Told::Show {
            client,
            events,
            sampled: _,
            accepted: _,
            taken: _,
            control: _,
            copies,
        } => {
            let mut words = String::new(alloc);
            let Ok(()) = put_show_words(&mut words, *client) else {
                return Err(NoMemory);
            };
            put_shown(alloc, words.as_str(), *events, copies.as_slice(), out)
        }
        _ => put_plain(alloc, told, out),
    }
}
