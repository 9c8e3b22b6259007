//! What is said of a buffer that is too small.

use crate::made::TooSmall;
use std::error::Error;
use std::fmt;

/// How many bytes the buffer has to have: `buffer BYTES wanted`.
impl fmt::Display for TooSmall {
    ghost use Rattle.std.specs.Prelude.{Some};
    ghost use Rattle.conn_packing.specs.Said.{too_small_text};

    ghost output = { λ fault. Some (too_small_text fault) };

    fn fmt<W: fmt::Write>(&self, f: &mut fmt::Formatter<W>) -> fmt::Result {
        write!(f, "buffer {} wanted", self.needed)
    }
}

impl Error for TooSmall {}
