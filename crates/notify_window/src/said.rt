//! What is said of an acknowledgement that is refused.

use crate::AckAhead;
use std::error::Error;
use std::fmt;

/// As in a report: `ackahead HORIZON LAST` (docs/script.md, "The report").
impl fmt::Display for AckAhead {
    ghost use Rattle.std.specs.Prelude.{Some};
    ghost use Rattle.notify_window.specs.Said.{ack_ahead_text};

    ghost output = { λ fault. Some (ack_ahead_text fault) };

    fn fmt<W: fmt::Write>(&self, f: &mut fmt::Formatter<W>) -> fmt::Result {
        write!(f, "ackahead {} {}", self.horizon, self.last)
    }
}

impl Error for AckAhead {}
