//! What is said of moves that are refused.

use crate::faults::{MoveAhead, MoveFault, MoveGap};
use std::error::Error;
use std::fmt;

/// As in a report: `wide WIDTH`, `worn LIFE` or `full FIRST LAST` (docs/script.md, "The report").
impl fmt::Display for MoveFault {
    ghost use Rattle.std.specs.Prelude.{Some};
    ghost use Rattle.move_manager.specs.Said.{move_fault_text};

    ghost output = { λ fault. Some (move_fault_text fault) };

    fn fmt<W: fmt::Write>(&self, f: &mut fmt::Formatter<W>) -> fmt::Result {
        match *self {
            MoveFault::TooWide { width } => write!(f, "wide {width}"),
            MoveFault::Worn { life } => write!(f, "worn {life}"),
            MoveFault::Full { first, last } => write!(f, "full {first} {last}"),
        }
    }
}

/// As in a report: `moveahead COUNT SAMPLED` (docs/script.md, "The report").
impl fmt::Display for MoveAhead {
    ghost use Rattle.std.specs.Prelude.{Some};
    ghost use Rattle.move_manager.specs.Said.{move_ahead_text};

    ghost output = { λ fault. Some (move_ahead_text fault) };

    fn fmt<W: fmt::Write>(&self, f: &mut fmt::Formatter<W>) -> fmt::Result {
        write!(f, "moveahead {} {}", self.count, self.sampled)
    }
}

/// As in a report: `movegap FIRST ACCEPTED` (docs/script.md, "The report").
impl fmt::Display for MoveGap {
    ghost use Rattle.std.specs.Prelude.{Some};
    ghost use Rattle.move_manager.specs.Said.{move_gap_text};

    ghost output = { λ fault. Some (move_gap_text fault) };

    fn fmt<W: fmt::Write>(&self, f: &mut fmt::Formatter<W>) -> fmt::Result {
        write!(f, "movegap {} {}", self.first, self.accepted)
    }
}

impl Error for MoveFault {}

impl Error for MoveAhead {}

impl Error for MoveGap {}
