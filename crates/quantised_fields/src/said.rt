//! What is said of kinds that make no table.

use crate::table::KindFault;
use std::error::Error;
use std::fmt;

/// The fault by its name, with the kind and the field that it names (docs/wire.md, "Kinds").
impl fmt::Display for KindFault {
    ghost use Rattle.std.specs.Prelude.{Some};
    ghost use Rattle.quantised_fields.specs.Said.{kind_fault_text};

    ghost output = { λ fault. Some (kind_fault_text fault) };

    fn fmt<W: fmt::Write>(&self, f: &mut fmt::Formatter<W>) -> fmt::Result {
        match *self {
            KindFault::TooManyKinds => write!(f, "TooManyKinds"),
            KindFault::NoKind => write!(f, "NoKind"),
            KindFault::TooMany { kind } => write!(f, "TooMany {kind}"),
            KindFault::Empty { kind } => write!(f, "Empty {kind}"),
            KindFault::BadRange { kind, field } => write!(f, "BadRange {kind} {field}"),
            KindFault::TooWide { kind } => write!(f, "TooWide {kind}"),
        }
    }
}

impl Error for KindFault {}
