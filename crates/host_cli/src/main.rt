//! The program `host`: a match that is served at any address of IPv4 (docs/fleet.md).
#![tactic(auto)]

mod file;
mod terms;
mod words;

ghost use Rattle.std.specs.Prelude.{◌≤◌};
ghost use Rattle.tn_types.specs.declared.limits.TheConstants.{MAX_CLIENTS};

use file::FileSink;
use hex::FromHex;
use host_link::net_serve::{Offer, serve};
use host_link::{Counters, HostClock, HostLink, KEY_BYTES, OpenSocket, Rules, SECRET_BYTES};
use net_rules::NetFault;
use std::process::ExitCode;
use std::random::RandomSource;
use std::{env, fs};
use terms::Terms;
use words::{Hosting, Refusal, hosting_of, key_file};

/// The words of the command line, without the program's name.
fn arguments(rt: &HostRuntime) -> Result<Vec<String>, Refusal> {
    let mut words = Vec::new(rt.alloc());
    let Ok(mut all) = env::args(rt) else {
        return Err(Refusal::NoMemory);
    };
    all.next();
    for word in all {
        if words.push(word).is_err() {
            return Err(Refusal::NoMemory);
        }
    }
    Ok(words)
}

/// A fault of the match, as the program tells it.
fn refusal_of(fault: NetFault) -> Refusal {
    match fault {
        NetFault::NoMemory => Refusal::NoMemory,
        NetFault::LinkFault => Refusal::Lost,
        NetFault::ClockFault => Refusal::NoClock,
        NetFault::WriteFault => Refusal::Unwritten,
    }
}

/// What nobody can guess: bytes of chance from the system.
fn secret(rt: &HostRuntime) -> Result<[u8; SECRET_BYTES], Refusal> {
    let mut secret = [0; SECRET_BYTES];
    match rt.fill_bytes(&mut secret) {
        Ok(()) => Ok(secret),
        Err(_) => Err(Refusal::NoSecret),
    }
}

/// The key in a file: 64 digits of base 16 in one line.
fn key_in(rt: &HostRuntime, file: &str) -> Result<[u8; KEY_BYTES], Refusal> {
    let Ok(text) = fs::read_to_string(rt, file) else {
        return Err(Refusal::NoKey);
    };
    let line = text.as_str();
    let digits = match line.strip_suffix('\n') {
        Some(digits) => digits,
        None => line,
    };
    match <[u8; KEY_BYTES] as FromHex>::from_hex(digits) {
        Ok(key) => Ok(key),
        Err(_) => Err(Refusal::NoKey),
    }
}

/// Hosts the match, to its last turn, under a key if there is one.
fn host(rt: &HostRuntime, hosting: &Hosting, key: Option<[u8; KEY_BYTES]>) -> Result<(), Refusal>
    requires clients_least { 1 ≤ hosting.now.clients }
    requires clients { hosting.now.clients ≤ MAX_CLIENTS }
{
    let Ok(terms) = Terms::of(rt.alloc(), hosting.seed, hosting.clients) else {
        return Err(Refusal::NoMemory);
    };
    let Ok(protocol) = terms.protocol(rt.alloc()) else {
        return Err(Refusal::NoMemory);
    };
    let rules = Rules {
        secret: secret(rt)?,
        protocol,
        terms: terms.bytes(),
        key,
        seats: u32::from(hosting.clients),
    };
    let counters = Counters::new();
    let Ok(socket) = OpenSocket::bind(rt, hosting.address) else {
        return Err(Refusal::NoAddress);
    };
    let Ok(mut link) = HostLink::new(rt.alloc(), socket, rules, &counters) else {
        return Err(Refusal::NoMemory);
    };
    let Ok(mut clock) = HostClock::new(rt, &counters) else {
        return Err(Refusal::NoClock);
    };
    let Ok(mut sink) = FileSink::new(rt, rt.alloc(), hosting.address.port()) else {
        return Err(Refusal::Unwritten);
    };
    let done = serve(
        rt.alloc(),
        Offer {
            seed: hosting.seed,
            clients: hosting.clients,
            turns: hosting.turns,
        },
        &mut link,
        &mut clock,
        &mut sink,
        &mut &counters,
    );
    // Where standard error is closed, nobody reads it.
    let _ = eprintln!(rt; "end {counters}");
    match done {
        Ok(()) => match sink.close() {
            Ok(()) => Ok(()),
            Err(_) => Err(Refusal::Unwritten),
        },
        Err(fault) => Err(refusal_of(fault)),
    }
}

/// What the words ask for.
fn hosted(rt: &HostRuntime) -> Result<(), Refusal> {
    let words = arguments(rt)?;
    let hosting = hosting_of(words.as_slice())?;
    let key = match key_file(words.as_slice())? {
        Some(file) => Some(key_in(rt, file)?),
        None => None,
    };
    host(rt, &hosting, key)
}

fn main(rt: HostRuntime) -> ExitCode {
    match hosted(&rt) {
        Ok(()) => ExitCode::from(0),
        Err(refusal) => {
            // Where standard error is closed, the exit status alone tells.
            let _ = eprintln!(rt; "host: {refusal}");
            ExitCode::from(refusal.exit())
        }
    }
}
