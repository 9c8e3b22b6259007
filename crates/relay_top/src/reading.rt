//! Reading a relay script.
ghost use Rattle.std.specs.Prelude.{◌≡◌, ◌+◌, IfOk, IfErr, Ok, Err};
ghost use Rattle.tn_outside.specs.Causes.{HandsOn};
ghost use Rattle.relay_script.specs.Ranges.{HasRelayRanges};
ghost use Rattle.relay_script.specs.Whole.{relay_script_of};
ghost use Rattle.script_input.specs.Reading.{seen, GaveAtMost, ReadAs, NotRead};

use match_script::ParseFault;
use relay_script::{RelayScript, parse_relay};
use script_input::{MAX_SCRIPT_BYTES, Status, read_all};
use std::alloc::Global;
use tn_outside::Source;

/// The relay script of a source, or why there is none.
pub(crate) fn read_relay_script<S: Source>(
    alloc: Global,
    source: &mut S,
) -> Result<RelayScript, Status>
    ensures ok { IfOk result (λ script. ReadAs relay_script_of (S.held source.old) (S.held source.new) (Ok script)) }
    ensures err { IfErr result
        (NotRead relay_script_of (seen (S.held source.old) (S.held source.new) (S.faults source.old) (S.faults source.new))) }
    ensures ranges { IfOk result HasRelayRanges }
    ensures taken { GaveAtMost (MAX_SCRIPT_BYTES + 1) (S.held source.old) (S.held source.new) }
    ensures cause { HandsOn (S.faults source.old) (S.faults source.new) (result ≡ Err Status.ReadFault) }
{
    let text = read_all(alloc, source, MAX_SCRIPT_BYTES)?;
    match parse_relay(alloc, text.as_slice()) {
        Ok(script) => Ok(script),
        Err(ParseFault::Bad { line, fault }) => Err(Status::Script(line, fault)),
        Err(ParseFault::NoMemory) => Err(Status::NoMemory),
    }
}
