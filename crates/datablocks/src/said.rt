//! What is said of a block that is refused.

use crate::receiver::BlockFault;
use std::error::Error;
use std::fmt;

/// As in a report: `block NUMBER` (docs/script.md, "The report").
impl fmt::Display for BlockFault {
    ghost use Rattle.std.specs.Prelude.{Some};
    ghost use Rattle.datablocks.specs.Said.{block_fault_text};

    ghost output = { λ fault. Some (block_fault_text fault) };

    fn fmt<W: fmt::Write>(&self, f: &mut fmt::Formatter<W>) -> fmt::Result {
        match *self {
            BlockFault::BlockDiffers { number } => write!(f, "block {number}"),
        }
    }
}

impl Error for BlockFault {}
