//! A script, as it is printed: it is read from standard input and written to standard output.
#![tactic(auto)]

mod echo;

use anyhow::{Result, bail};
use echo::echo;
use match_script::ParseFault;
use std::io::{self, Read, Write};

fn main(rt: HostRuntime) -> Result<()> {
    let mut bytes = Vec::new(rt.alloc());
    rt.reader().read_to_end(&mut bytes)?;
    match echo(rt.alloc(), bytes.as_slice()) {
        Ok(text) => io::writer(&rt).write_all(text.as_slice())?,
        Err(ParseFault::Bad { line, fault }) => bail!("script {line} {fault}"),
        Err(ParseFault::NoMemory) => bail!("nomemory"),
    }
    Ok(())
}
