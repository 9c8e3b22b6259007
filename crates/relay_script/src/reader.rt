//! From a text to its relay script.
ghost use Rattle.std.specs.Prelude.{◌≡◌, IfOk};
ghost use Rattle.match_script.specs.Text.{lines_of};
ghost use Rattle.match_script.specs.Script.{Gives, header};
ghost use Rattle.match_script.specs.Ranges.{HeadFits};
ghost use Rattle.relay_script.specs.Whole.{one_later, relay_script_in, relay_script_of, LeavesItsMatch};
ghost use Rattle.relay_script.specs.Ranges.{HasRelayRanges};

use crate::asked::asked_in;
use crate::entries::body_of;
use crate::types::RelayScript;
use match_script::{Head, ParseFault, Script, header, header_length};
use std::alloc::Global;

// The header after the first line, with the numbers of lines in the whole text.
#[tactic(auto, using(crate::proofs::Headers::fault_is_early))]
fn header_behind(alloc: Global, text: &[u8]) -> Result<(Head, &[u8]), ParseFault>
    ensures value { Gives (λ x. (x.0, lines_of x.1.now)) result (one_later (header (lines_of text.now))) }
    ensures fits { IfOk result (λ x. HeadFits x.0) }
{
    match header(alloc, text) {
        Ok((head, rest)) => Ok((head, rest)),
        Err(ParseFault::Bad { line, fault }) => Err(ParseFault::Bad {
            line: line + 1,
            fault,
        }),
        Err(ParseFault::NoMemory) => Err(ParseFault::NoMemory),
    }
}

/// The relay script of a text, or the least line that can't stand where it stands, with its first fault; each exactly as docs/relay.md,
/// "The relay script", says. Any bytes may come.
#[tactic(auto, using(crate::proofs::Clients::asked_names), unfolding(crate::specs::Whole::relay_script_in))]
pub fn parse_relay(alloc: Global, bytes: &[u8]) -> Result<RelayScript, ParseFault>
    ensures grammar { Gives (λ script. script) result (relay_script_of bytes.now) }
    ensures ranges { IfOk result HasRelayRanges }
    // What is left without the first line and the relay's lines is a script, the match of the relay script.
    ensures left { IfOk result (LeavesItsMatch bytes.now) }
{
    let (asked, rest) = asked_in(alloc, bytes)?;
    let (head, rest) = header_behind(alloc, rest)?;
    let (body, lines) = body_of(
        alloc,
        head.clients,
        asked.spectators,
        1 + header_length(&head),
        rest,
    )?;
    Ok(RelayScript {
        client: asked.client,
        spectators: asked.spectators,
        script: Script { head, body },
        lines,
    })
}
