//! The kinds of a match.

ghost use Rattle.std.specs.Prelude.{◌≡◌, Decides, IfOk, IfSome, None, slice_get};
ghost use Rattle.std.specs.Option.{option_copied};
ghost use Rattle.std.specs.Result.{result_err};

use crate::kind::{Kind, fault_of};
use crate::same::are_same_kinds;
use arrayvec::ArrayVec;
use std::marker::Model;
use tn_types::MAX_KINDS;

/// Why a list of kinds is no table. Where several hold, the first in this order for the least kind is
/// told; `BadRange` names the least field.
#[derive(Clone, Copy, Debug, PartialEq, Eq)]
pub enum KindFault {
    /// There are more than 16 kinds.
    TooManyKinds,
    /// There is no kind.
    NoKind,
    /// The kind has more than 16 fields.
    TooMany { kind: u8 },
    /// The kind has no field.
    Empty { kind: u8 },
    /// The field's range isn't 1 to 2^32 - 1, or its bits aren't 1 to 24.
    BadRange { kind: u8, field: u8 },
    /// The fields of the kind have more than 192 bits together.
    TooWide { kind: u8 },
}

/// The kinds of a match, by number: 1 to 16, each with 1 to 16 sound fields of at most 192 bits together.
#[derive(Drop)]
pub struct KindTable {
    kinds: ArrayVec<Kind, MAX_KINDS>,
}

impl Model for KindTable {
    ghost use Rattle.std.specs.Prelude.{List, ◌≡◌, None};
    ghost use Rattle.quantised_fields.specs.declared.kind.Kind.{Kind};
    ghost use Rattle.quantised_fields.specs.Kinds.{table_fault};

    ghost Value = { List Kind };

    ghost view = { λ t. t.kinds.items };

    ghost invariant = { λ t. table_fault t.kinds.items ≡ None };
}

impl KindTable {
    ghost use Rattle.quantised_fields.specs.Kinds.{table_fault, IsWithinLimits};

    /// The table of these kinds, or the first fault of the list (docs/wire.md, "Kinds").
    pub fn new(kinds: &[Kind]) -> Result<KindTable, KindFault>
        ensures fault { result_err result ≡ table_fault kinds.now }
        ensures table { IfOk result (λ t. t ≡ kinds.now) }
    {
        if kinds.len() > MAX_KINDS {
            return Err(KindFault::TooManyKinds);
        }
        if kinds.is_empty() {
            return Err(KindFault::NoKind);
        }
        let mut all = ArrayVec::new();
        for (number, kind) in kinds.iter().enumerate() {
            if let Some(fault) = fault_of(number as u8, kind) {
                return Err(fault);
            }
            all.push(kind.copy());
        }
        Ok(KindTable { kinds: all })
    }

    /// An equal table.
    pub fn copy(&self) -> KindTable
        ensures { result ≡ self.now }
    {
        let mut all = ArrayVec::new();
        for kind in self.kinds.as_slice() {
            all.push(kind.copy());
        }
        KindTable { kinds: all }
    }

    /// The kind of this number; None exactly where the table has none.
    #[tactic(auto, using(crate::proofs::Limits::within_limits))]
    pub fn kind(&self, k: u8) -> Option<&Kind>
        ensures value { option_copied result ≡ slice_get self.now k }
        ensures sound { table_fault self.now ≡ None }
        ensures limits { IfSome result (λ kind. IsWithinLimits kind.now) }
    {
        self.kinds.as_slice().get(k as usize)
    }
    /// Whether the other table has the same kinds in the same order: weight, who sees them always, and each field's range and bits.
    pub fn is_same(&self, other: &KindTable) -> bool
        ensures value { Decides result (self.now ≡ other.now) }
    {
        are_same_kinds(self, other)
    }
}
