//! What is told of a client's copies.
ghost use Rattle.std.specs.Prelude.{◌≡◌, ◌++◌, ◌∷◌, [], OnOk, OnErr};

use std::alloc::Global;
use std::marker::Model;
use tn_types::{MAX_FIELDS, NoMemory, ShortList};

/// What a copy shows of a field, and whether that field is settled in the period that holds the copy's slot at the server
/// (docs/connection.md, "Settled").
#[derive(Clone, Copy, Debug, Default, PartialEq, Eq)]
pub struct FieldTold {
    pub value: i64,
    pub settled: bool,
}

/// The fields of a copy, in order: at most 16.
pub type FieldList = ShortList<FieldTold, MAX_FIELDS>;

/// A copy that a client has.
#[derive(Drop)]
pub struct CopyTold {
    pub slot: u8,
    /// The number of its kind.
    pub kind: u8,
    /// The number of its datablock.
    pub block: u8,
    pub fields: FieldList,
}

/// The copies that a client has, by rising slot.
#[derive(Drop)]
pub struct CopyList {
    copies: Vec<CopyTold>,
}

impl Model for CopyList {
    ghost use Rattle.std.specs.Prelude.{List};
    ghost use Rattle.match_report.specs.declared.copies.CopyTold.{CopyTold};

    ghost Value = { List CopyTold };

    ghost view = { λ l. l.copies.items };
}

impl CopyList {
    /// No copy, which takes no memory.
    pub fn new(alloc: Global) -> Self
        ensures { result ≡ [] }
    {
        CopyList {
            copies: Vec::new(alloc),
        }
    }

    /// Appends a copy. Nothing changes for want of memory.
    pub fn push(&mut self, _alloc: Global, copy: CopyTold) -> Result<(), NoMemory>
        ensures ok { OnOk result (self.new ≡ self.old ++ copy ∷ []) }
        ensures err { OnErr result (self.new ≡ self.old) }
    {
        match self.copies.push(copy) {
            Ok(()) => Ok(()),
            Err(_) => Err(NoMemory),
        }
    }

    /// The copies, lent.
    pub fn as_slice(&self) -> &[CopyTold]
        ensures { result.now ≡ self.now }
    {
        self.copies.as_slice()
    }
}
