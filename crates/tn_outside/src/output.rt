//! Writing whole pieces.
ghost use Rattle.std.specs.Prelude.{◌≡◌, ◌≤◌, length, OnOk, OnErr};
ghost use Rattle.tn_outside.specs.Causes.{HasCause};
ghost use Rattle.tn_outside.specs.Totals.{Adds, AddsFront};

use crate::failed::Failed;
use crate::traits::Sink;

/// Writes a whole piece to a sink, in as many writes as it wants. `Failed` comes where a write failed; a front of the piece was
/// written then (docs/script.md, "The command line").
pub fn write_all<K: Sink>(sink: &mut K, piece: &[u8]) -> Result<(), Failed>
    ensures ok { OnOk result (Adds (K.written sink.old) (K.written sink.new) piece.now) }
    ensures err { OnErr result (AddsFront (K.written sink.old) (K.written sink.new) piece.now) }
    ensures cause { HasCause (K.faults sink.old) (K.faults sink.new) result }
{
    let mut done = 0;
    while done < piece.len() {
        let (_, rest) = piece.split_at(done);
        let count = sink.write(rest)?;
        done += count;
    }
    Ok(())
}
