//! How a call ends after its run.
ghost use Rattle.std.specs.Prelude.{◌≡◌, []};
ghost use Rattle.script_input.specs.Outcome.{EndsBehind};

use crate::status::Status;
use tn_outside::{RunFault, Sink};

/// Hands on what a run gathered in the sink, if it came to its end, and says how the call ends: with the run's fault, or with that of
/// handing on.
pub fn end_call<K: Sink>(ran: Result<(), RunFault>, sink: &mut K) -> Status
    ensures bytes { K.written sink.new ≡ K.written sink.old }
    ensures handed { result ≡ Status.Done → K.gathered sink.new ≡ [] }
    ensures ends { EndsBehind ran (K.faults sink.old) (K.faults sink.new) result }
{
    match ran {
        Ok(()) => match sink.flush() {
            Ok(()) => Status::Done,
            Err(_) => Status::WriteFault,
        },
        Err(RunFault::WriteFault) => Status::WriteFault,
        Err(RunFault::NoMemory) => Status::NoMemory,
    }
}
