//! The program `own_list C`: the own list of client C of the script on standard input, as checks/library/compare.c reads it.
#![tactic(auto)]

mod told;

ghost use Rattle.std.specs.Prelude.{◌<◌};
ghost use Rattle.match_script.specs.Ranges.{HasRanges};

use match_script::{BodyLine, Script, print_head};
use own_items::{OwnItem, OwnSource};
use script_input::{Status, exit_of, read_script};
use std::alloc::Global;
use std::env;
use std::io::{self, Write};
use std::process::ExitCode;
use tn_outside::StdSource;
use tn_types::NoMemory;
use told::put_item;

/// The client that the one word names; `None` where it is another number of words, or no number of a client.
fn client_of(rt: &HostRuntime) -> Option<u8> {
    let mut words = env::args(rt).ok()?;
    words.next();
    let word = words.next()?;
    match words.next() {
        Some(_) => None,
        None => word.as_str().parse::<u8>().ok(),
    }
}

/// The lines of the client's own list.
fn own_lines(alloc: Global, script: &Script, client: u8) -> Result<String, NoMemory>
    requires ranges { HasRanges script.now }
    requires client { client < script.now.head.clients }
{
    let mut source = OwnSource::new(alloc, script, client)?;
    let mut text = String::new(alloc);
    let mut item = OwnItem::Line {
        line: BodyLine::World,
    };
    let mut shown = 0;
    'items: while source.next(alloc, &mut item)? {
        shown = put_item(alloc, &mut text, shown, &item)?;
    }
    Ok(text)
}

/// The head of the script, and after it the client's own list; a client that the match hasn't is refused as the first word.
fn own_text(alloc: Global, script: &Script, client: u8) -> Result<Vec<u8>, Status>
    requires ranges { HasRanges script.now }
{
    if client >= script.head.clients {
        return Err(Status::Usage(1));
    }
    let Ok(mut text) = print_head(alloc, &script.head) else {
        return Err(Status::NoMemory);
    };
    let Ok(lines) = own_lines(alloc, script, client) else {
        return Err(Status::NoMemory);
    };
    match text.extend_from_slice(lines.as_bytes()) {
        Ok(()) => Ok(text),
        Err(_) => Err(Status::NoMemory),
    }
}

/// What the program does.
fn tell(rt: &HostRuntime) -> Status {
    let Some(client) = client_of(rt) else {
        return Status::Usage(1);
    };
    let mut source = StdSource::new(rt.reader());
    let made = match read_script(rt.alloc(), &mut source) {
        Ok(script) => own_text(rt.alloc(), &script, client),
        Err(status) => Err(status),
    };
    match made {
        Ok(text) => match io::writer(rt).write_all(text.as_slice()) {
            Ok(()) => Status::Done,
            Err(_) => Status::WriteFault,
        },
        Err(status) => status,
    }
}

fn main(rt: HostRuntime) -> ExitCode {
    let status = tell(&rt);
    if status != Status::Done {
        // Where standard error is closed, the exit status alone tells.
        let _ = eprintln!(rt; "{status}");
    }
    ExitCode::from(exit_of(status))
}
