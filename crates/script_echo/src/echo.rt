ghost use Rattle.script_echo.specs.Echo.{echo_of};
ghost use Rattle.match_script.specs.Script.{Gives, script_of};

use match_script::{ParseFault, parse, print};
use std::alloc::Global;
use tn_types::NoMemory;

/// The text of the script that these bytes are, as `print` writes it; or the least faulty line with its first fault, or that memory
/// was not to be had. The format of a script stands in docs/script.md, "The script".
pub fn echo(alloc: Global, bytes: &[u8]) -> Result<Vec<u8>, ParseFault>
    ensures { Gives (λ text. text.items) result (echo_of (script_of bytes.now)) }
{
    let script = parse(alloc, bytes)?;
    match print(alloc, &script) {
        Ok(text) => Ok(text),
        Err(NoMemory) => Err(ParseFault::NoMemory),
    }
}
