//! The items of an own list.
ghost use Rattle.std.specs.Prelude.{◌≡◌};

use client_scope::Near;
use match_report::ValueList;
use match_script::BodyLine;
use std::marker::Model;

/// A period begins, with these values of its object.
#[derive(Drop)]
pub struct OwnShow {
    /// The number of the kind.
    pub kind: u8,
    /// The number of the datablock, 0 to 63.
    pub block: u8,
    /// How near the object is, 0 to 3.
    pub level: u8,
    /// Whether the client controls it.
    pub control: bool,
    /// A value for each field of the kind, in its range.
    pub values: ValueList,
}

/// A field of an object that is in a shown period has another value.
#[derive(Clone, Copy, Debug, PartialEq, Eq)]
pub struct OwnWrite {
    /// The period's number.
    pub n: u32,
    /// The field's number, 0 to 15.
    pub field: u8,
    /// The new value, in the field's range.
    pub value: i64,
}

/// The numbers of periods that end, in order.
#[derive(Drop)]
pub struct Hides {
    items: Vec<u32>,
}

impl Model for Hides {
    ghost use Rattle.std.specs.Prelude.{List, ℕ};

    ghost Value = { List ℕ };

    ghost view = { λ l. l.items.items };
}

impl Hides {
    /// These numbers.
    pub fn from_vec(items: Vec<u32>) -> Self
        ensures { result ≡ items.items }
    {
        Hides { items }
    }

    /// The numbers, lent.
    pub fn as_slice(&self) -> &[u32]
        ensures { result.now ≡ self.now }
    {
        self.items.as_slice()
    }
}

/// Periods that are at other levels, in order.
#[derive(Drop)]
pub struct Nears {
    items: Vec<Near>,
}

impl Model for Nears {
    ghost use Rattle.std.specs.Prelude.{List};
    ghost use Rattle.client_scope.specs.declared.period.Near.{Near};

    ghost Value = { List Near };

    ghost view = { λ l. l.items.items };
}

impl Nears {
    /// These periods.
    pub fn from_vec(items: Vec<Near>) -> Self
        ensures { result ≡ items.items }
    {
        Nears { items }
    }

    /// The periods, lent.
    pub fn as_slice(&self) -> &[Near]
        ensures { result.now ≡ self.now }
    {
        self.items.as_slice()
    }
}

/// Periods that begin, in order.
#[derive(Drop)]
pub struct Shows {
    items: Vec<OwnShow>,
}

impl Model for Shows {
    ghost use Rattle.std.specs.Prelude.{List};
    ghost use Rattle.own_items.specs.declared.items.OwnShow.{OwnShow};

    ghost Value = { List OwnShow };

    ghost view = { λ l. l.items.items };
}

impl Shows {
    /// These periods.
    pub fn from_vec(items: Vec<OwnShow>) -> Self
        ensures { result ≡ items.items }
    {
        Shows { items }
    }

    /// The periods, lent.
    pub fn as_slice(&self) -> &[OwnShow]
        ensures { result.now ≡ self.now }
    {
        self.items.as_slice()
    }
}

/// Writes to shown periods, in order.
#[derive(Drop)]
pub struct OwnWrites {
    items: Vec<OwnWrite>,
}

impl Model for OwnWrites {
    ghost use Rattle.std.specs.Prelude.{List};
    ghost use Rattle.own_items.specs.declared.items.OwnWrite.{OwnWrite};

    ghost Value = { List OwnWrite };

    ghost view = { λ l. l.items.items };
}

impl OwnWrites {
    /// These writes.
    pub fn from_vec(items: Vec<OwnWrite>) -> Self
        ensures { result ≡ items.items }
    {
        OwnWrites { items }
    }

    /// The writes, lent.
    pub fn as_slice(&self) -> &[OwnWrite]
        ensures { result.now ≡ self.now }
    {
        self.items.as_slice()
    }
}

/// One item of an own list: what a client's server is told of a match (docs/proofs/match.md, "Own lists").
pub enum OwnItem {
    /// A line that names the client, but for a scan.
    Line {
        line: BodyLine,
    },
    /// A scan: first these periods end, then these are at their new levels, then these begin.
    Scan {
        hides: Hides,
        nears: Nears,
        shows: Shows,
    },
    /// A tick: what it wrote in shown periods, and how many moves it took from the client, 0 or 1.
    Tick {
        writes: OwnWrites,
        taken: u32,
    },
}

// Written out, so that a function that lets an item go calls this, and doesn't prove again how each kind of line is let go.
impl Drop for OwnItem {
    fn drop(self) {
        match self {
            OwnItem::Line { line: _line } => {}
            OwnItem::Scan {
                hides: _hides,
                nears: _nears,
                shows: _shows,
            } => {}
            OwnItem::Tick {
                writes: _writes,
                taken: _taken,
            } => {}
        }
    }
}
