//! What is said of a text that is no script.

use crate::types::ScriptFault;
use std::fmt;

/// The fault by its name (docs/script.md, "Faults of a script").
impl fmt::Display for ScriptFault {
    ghost use Rattle.std.specs.Prelude.{Some};
    ghost use Rattle.match_script.specs.Said.{fault_word};

    ghost output = { λ fault. Some (fault_word fault) };

    fn fmt<W: fmt::Write>(&self, f: &mut fmt::Formatter<W>) -> fmt::Result {
        match *self {
            ScriptFault::NotText => write!(f, "NotText"),
            ScriptFault::BadHeader => write!(f, "BadHeader"),
            ScriptFault::TooManyLines => write!(f, "TooManyLines"),
            ScriptFault::UnknownWord => write!(f, "UnknownWord"),
            ScriptFault::BadNumber => write!(f, "BadNumber"),
            ScriptFault::OutOfRange => write!(f, "OutOfRange"),
            ScriptFault::BadHex => write!(f, "BadHex"),
        }
    }
}
