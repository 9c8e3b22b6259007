//! Reading a script, as every command does.
ghost use Rattle.std.specs.Prelude.{◌≡◌, ◌+◌, IfOk, IfErr, Ok, Err};
ghost use Rattle.tn_outside.specs.Causes.{HandsOn};
ghost use Rattle.match_script.specs.Ranges.{HasRanges};
ghost use Rattle.match_script.specs.Script.{script_of, threads_script_of};
ghost use Rattle.script_input.specs.Reading.{seen, Gave, GaveAtMost, ReadAs, NotGave, NotRead};

use crate::limits::MAX_SCRIPT_BYTES;
use crate::status::Status;
use match_script::{ParseFault, Script, parse, parse_threads};
use std::alloc::Global;
use tn_outside::Source;

/// Bytes that are read in one go.
const BUFFER_BYTES: usize = 65_536;

/// All bytes of a source, if they are at most so many; and never more than one past that are taken.
pub fn read_all<S: Source>(alloc: Global, source: &mut S, limit: usize) -> Result<Vec<u8>, Status>
    ensures ok { IfOk result (λ bytes. Gave limit (S.held source.old) (S.held source.new) bytes.items) }
    ensures err { IfErr result
        (NotGave limit (seen (S.held source.old) (S.held source.new) (S.faults source.old) (S.faults source.new))) }
    ensures taken { GaveAtMost (limit + 1) (S.held source.old) (S.held source.new) }
    ensures cause { HandsOn (S.faults source.old) (S.faults source.new) (result ≡ Err Status.ReadFault) }
{
    let mut bytes = Vec::new(alloc);
    let mut buffer = [0u8; BUFFER_BYTES];
    'reads: while bytes.len() <= limit {
        let room = (limit - bytes.len()).min(BUFFER_BYTES - 1) + 1;
        let (piece, _) = buffer.split_at_mut(room);
        let Ok(count) = source.read(piece) else {
            return Err(Status::ReadFault);
        };
        if count == 0 {
            return Ok(bytes);
        }
        if bytes.extend_from_slice(&piece[..count]).is_err() {
            return Err(Status::NoMemory);
        }
    }
    Err(Status::TooLong)
}

/// The script of a source, or why there is none.
pub fn read_script<S: Source>(alloc: Global, source: &mut S) -> Result<Script, Status>
    ensures ok { IfOk result (λ script. ReadAs script_of (S.held source.old) (S.held source.new) (Ok script)) }
    ensures err { IfErr result
        (NotRead script_of (seen (S.held source.old) (S.held source.new) (S.faults source.old) (S.faults source.new))) }
    ensures ranges { IfOk result HasRanges }
    ensures taken { GaveAtMost (MAX_SCRIPT_BYTES + 1) (S.held source.old) (S.held source.new) }
    ensures cause { HandsOn (S.faults source.old) (S.faults source.new) (result ≡ Err Status.ReadFault) }
{
    let text = read_all(alloc, source, MAX_SCRIPT_BYTES)?;
    match parse(alloc, text.as_slice()) {
        Ok(script) => Ok(script),
        Err(ParseFault::Bad { line, fault }) => Err(Status::Script(line, fault)),
        Err(ParseFault::NoMemory) => Err(Status::NoMemory),
    }
}

/// The same for a match in threads, whose script has at most `MAX_THREAD_TICKS` ticks.
pub fn read_threads_script<S: Source>(alloc: Global, source: &mut S) -> Result<Script, Status>
    ensures ok { IfOk result (λ script. ReadAs threads_script_of (S.held source.old) (S.held source.new) (Ok script)) }
    ensures err { IfErr result
        (NotRead threads_script_of (seen (S.held source.old) (S.held source.new) (S.faults source.old) (S.faults source.new))) }
    ensures ranges { IfOk result HasRanges }
    ensures taken { GaveAtMost (MAX_SCRIPT_BYTES + 1) (S.held source.old) (S.held source.new) }
    ensures cause { HandsOn (S.faults source.old) (S.faults source.new) (result ≡ Err Status.ReadFault) }
{
    let text = read_all(alloc, source, MAX_SCRIPT_BYTES)?;
    match parse_threads(alloc, text.as_slice()) {
        Ok(script) => Ok(script),
        Err(ParseFault::Bad { line, fault }) => Err(Status::Script(line, fault)),
        Err(ParseFault::NoMemory) => Err(Status::NoMemory),
    }
}
