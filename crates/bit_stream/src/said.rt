//! What is said of bits that are no number, or no end.

use crate::reader::{PaddingFault, Short};
use std::error::Error;
use std::fmt;

/// As the fault of a datagram whose part this is (docs/script.md, "The report"): `bits PLACE Short`.
impl fmt::Display for Short {
    ghost use Rattle.std.specs.Prelude.{Some};
    ghost use Rattle.bit_stream.specs.Said.{short_text};

    ghost output = { λ fault. Some (short_text fault) };

    fn fmt<W: fmt::Write>(&self, f: &mut fmt::Formatter<W>) -> fmt::Result {
        write!(f, "bits {} Short", self.place)
    }
}

/// As the fault of a datagram that ends so (docs/script.md, "The report"): `bits PLACE Padding`.
impl fmt::Display for PaddingFault {
    ghost use Rattle.std.specs.Prelude.{Some};
    ghost use Rattle.bit_stream.specs.Said.{padding_text};

    ghost output = { λ fault. Some (padding_text fault) };

    fn fmt<W: fmt::Write>(&self, f: &mut fmt::Formatter<W>) -> fmt::Result {
        write!(f, "bits {} Padding", self.place)
    }
}

impl Error for Short {}

impl Error for PaddingFault {}
