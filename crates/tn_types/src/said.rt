//! What is said of want of memory.

use crate::choices::NoMemory;
use std::alloc::AllocError;
use std::error::Error;
use std::fmt;

/// As a command says it (docs/script.md, "The command line").
impl fmt::Display for NoMemory {
    ghost use Rattle.std.specs.Prelude.{Some, codes};

    ghost output = { λ _. Some (codes "nomemory") };

    fn fmt<W: fmt::Write>(&self, f: &mut fmt::Formatter<W>) -> fmt::Result {
        write!(f, "nomemory")
    }
}

impl Error for NoMemory {}

/// A call of the allocator that failed is want of memory.
impl From<AllocError> for NoMemory {
    ghost from_gives = { λ _ _. Unit };

    fn from(_fault: AllocError) -> Self {
        NoMemory
    }
}
