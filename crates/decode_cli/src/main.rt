//! The program `decode`: the table of a datagram, or of each one of a report or a demo, or a line for each (docs/packets.md).
#![tactic(auto)]

mod demo;
mod report;
mod slots;
mod table;
mod words;

ghost use Rattle.std.specs.Prelude.{◌≤◌, length};

use demo::demo_text;
use report::{datagram_text, push_line, report_text};
use std::alloc::Global;
use std::io::{self, Read, Write};
use std::process::ExitCode;
use std::{env, str};
use tn_types::{End, MAX_READ_BYTES};
use words::{Command, Options, Refusal, read_command};

/// The exit status of words or a report that can't be read.
const REFUSED: u8 = 2;

/// The words of the command line, without the program's name.
fn arguments(rt: &HostRuntime) -> Result<Vec<String>, Refusal> {
    let mut words = Vec::new(rt.alloc());
    let Ok(mut all) = env::args(rt) else {
        return Err(Refusal::NoMemory);
    };
    all.next();
    for word in all {
        if words.push(word).is_err() {
            return Err(Refusal::NoMemory);
        }
    }
    Ok(words)
}

/// The table of one datagram, or its line behind a word for its way.
fn one_text(alloc: Global, by: End, bytes: &[u8], options: Options) -> Result<Vec<u8>, Refusal>
    requires { length bytes.now ≤ MAX_READ_BYTES }
{
    let Options {
        version,
        mut slots,
        brief,
    } = options;
    let made = datagram_text(alloc, version, by, bytes, &mut slots, brief)?;
    if !brief {
        return Ok(made);
    }
    let way = match by {
        End::Server => "down",
        End::Client => "up",
    };
    let mut text = Vec::new(alloc);
    push_line(&mut text, way, made.as_slice())?;
    Ok(text)
}

/// All of standard input.
fn input(rt: &HostRuntime) -> Result<Vec<u8>, Refusal> {
    let mut bytes = Vec::new(rt.alloc());
    match rt.reader().read_to_end(&mut bytes) {
        Ok(_) => Ok(bytes),
        Err(_) => Err(Refusal::Unread),
    }
}

/// The text that the words ask for.
fn text_of(rt: &HostRuntime) -> Result<Vec<u8>, Refusal> {
    let words = arguments(rt)?;
    match read_command(rt.alloc(), words.as_slice())? {
        Command::Datagram { by, bytes, options } => {
            if bytes.len() > MAX_READ_BYTES {
                return Err(Refusal::LongHex);
            }
            one_text(rt.alloc(), by, bytes.as_slice(), options)
        }
        Command::Demo { options } => {
            let bytes = input(rt)?;
            demo_text(rt.alloc(), bytes.as_slice(), options.brief)
        }
        Command::Report { options } => {
            let bytes = input(rt)?;
            match str::from_utf8(bytes.as_slice()) {
                Ok(report) => report_text(rt.alloc(), options.version, report, options.brief),
                Err(_) => Err(Refusal::NoReport),
            }
        }
    }
}

fn main(rt: HostRuntime) -> ExitCode {
    match text_of(&rt) {
        Ok(text) => match io::writer(&rt).write_all(text.as_slice()) {
            Ok(()) => ExitCode::from(0),
            Err(_) => ExitCode::from(1),
        },
        Err(refusal) => {
            // Where standard error is closed, the exit status alone tells.
            let _ = eprintln!(rt; "decode: {refusal}");
            ExitCode::from(REFUSED)
        }
    }
}
