//! The periods of one connection.
ghost use Rattle.std.specs.Prelude.{◌≡◌, ℕ, true, false, ◌<◌, ◌≤◌, ◌%◌, ◌^◌, [], ◌∷◌, ◌++◌, not, ◌==◌, OnOk, OnErr, IfSome, IsTrue, filter, length, slice_get, slice_index};
ghost use Rattle.std.specs.Option.{option_copied, option_and_then};
ghost use Rattle.quantised_fields.specs.Kinds.{IsWithinLimits};
ghost use Rattle.quantised_fields.specs.Levels.{is_sound};
ghost use Rattle.lane_periods.specs.Periods.{has, has_object, spec_at, field_count, ArePeriods};

use crate::objects::Objects;
use quantised_fields::{FieldSpec, Kind, KindTable};
use std::alloc::Global;
use std::marker::Model;
use tn_types::{MAX_FIELDS, NoMemory};

/// The object and the kind of each period that was shown, and which of them are shown and not hidden, by rising number. No
/// two of these have the same object.
#[derive(Drop)]
pub struct Periods {
    objects: Vec<u32>,
    kinds: Vec<u8>,
    up: Vec<u32>,
    table: KindTable,
}

impl Model for Periods {
    ghost use Rattle.std.specs.Prelude.{◌&&◌, nat_lt, vec_len, vec_capacity};
    ghost use Rattle.lane_periods.specs.Periods.{PeriodList, ArePeriods};

    ghost Value = { PeriodList };

    ghost view = { λ p. record {
      objects = p.objects.items;
      kinds = p.kinds.items;
      up = p.up.items;
      table = p.table;
      has_room = nat_lt (vec_len p.objects) (vec_capacity p.objects)
          && (nat_lt (vec_len p.kinds) (vec_capacity p.kinds) && nat_lt (vec_len p.up) (vec_capacity p.up));
    } };

    ghost invariant = { λ p. ArePeriods p.objects.items p.kinds.items p.up.items };
}

// Whether the number is one of these.
fn has(up: &[u32], n: u32) -> bool
    ensures { result ≡ has n up.now }
{
    up.contains(&n)
}

// Whether one of these periods is of the object.
fn has_object(objects: &[u32], up: &[u32], object: u32) -> bool
    requires shown { (n : ℕ) → has n up.now ≡ true → n < length objects.now }
    ensures { result ≡ has_object objects.now up.now object }
{
    for n in up {
        if objects[*n as usize] == object {
            return true;
        }
    }
    false
}

// Leaves a number out.
fn without(up: &mut Vec<u32>, n: u32)
    ensures { up.new.items ≡ filter (λ m. not (m == n)) up.old.items }
{
    up.retain(|m| *m != n);
}

impl Periods {
    /// None was shown yet, in a match of these kinds.
    pub fn new(alloc: Global, table: &KindTable) -> Periods
        ensures objects { result.objects ≡ [] }
        ensures kinds { result.kinds ≡ [] }
        ensures up { result.up ≡ [] }
        ensures table { result.table ≡ table.now }
    {
        Periods {
            objects: Vec::new(alloc),
            kinds: Vec::new(alloc),
            up: Vec::new(alloc),
            table: table.copy(),
        }
    }

    /// Makes room for one more.
    pub fn prepare(&mut self) -> Result<(), NoMemory>
        ensures prepared { OnOk result (self.new ≡ record self.old { has_room = true }) }
        ensures unchanged { OnErr result (self.new ≡ self.old) }
    {
        if self.objects.reserve(1).is_err() {
            return Err(NoMemory);
        }
        if self.kinds.reserve(1).is_err() {
            return Err(NoMemory);
        }
        if self.up.reserve(1).is_err() {
            return Err(NoMemory);
        }
        Ok(())
    }

    /// What always holds of them.
    pub fn are_periods(&self)
        ensures { ArePeriods self.now.objects self.now.kinds self.now.up }
    {
        // for its clauses
        let _up = self.up.len();
    }

    /// Those that are shown and not hidden, by rising number.
    pub fn up(&self) -> &[u32]
        ensures value { result.now ≡ self.now.up }
        ensures are { ArePeriods self.now.objects self.now.kinds self.now.up }
    {
        self.up.as_slice()
    }

    /// Whether the period is shown and not hidden.
    pub fn is_up(&self, n: u32) -> bool
        ensures { result ≡ has n self.now.up }
    {
        has(self.up.as_slice(), n)
    }

    /// Whether a period that is shown and not hidden has the object.
    pub fn has_object(&self, object: u32) -> bool
        ensures { result ≡ has_object self.now.objects self.now.up object }
    {
        has_object(self.objects.as_slice(), self.up.as_slice(), object)
    }

    /// The object of a period.
    pub fn object(&self, n: u32) -> u32
        requires { n < length self.now.objects }
        ensures { result ≡ slice_index self.now.objects n }
    {
        self.objects[n as usize]
    }

    // The kind of a period.
    fn kind(&self, n: u32) -> Option<&Kind>
        ensures value { option_copied result ≡ option_and_then (slice_get self.now.table) (slice_get self.now.kinds n) }
        ensures limits { IfSome result (λ kind. IsWithinLimits kind.now) }
    {
        let kind = self.kinds.as_slice().get(n as usize)?;
        self.table.kind(*kind)
    }

    /// The field of a period, by the kind with which it was shown; `None` exactly where it has none of this number.
    pub fn spec(&self, n: u32, field: u8) -> Option<&FieldSpec>
        ensures value { option_copied result ≡ spec_at self.now.table self.now.kinds n field }
        ensures sound { IfSome result (λ spec. IsTrue (is_sound spec.now)) }
        ensures few { IfSome result (λ _. field < MAX_FIELDS) }
    {
        let kind = self.kind(n)?;
        kind.fields.as_slice().get(field as usize)
    }

    // How many fields a period has.
    fn field_count(&self, n: u32) -> u32
        ensures value { result ≡ field_count self.now.table self.now.kinds n }
        ensures few { result ≤ MAX_FIELDS }
    {
        match self.kind(n) {
            Some(kind) => kind.fields.as_slice().len() as u32,
            None => 0,
        }
    }

    /// The bits of a word that are fields of the period.
    pub fn own_bits(&self, n: u32, bits: u32) -> u32
        ensures { result ≡ bits % 2 ^ field_count self.now.table self.now.kinds n }
    {
        bits % (1u32 << self.field_count(n))
    }

    /// A period of the object begins, which no period that is shown and not hidden has. Its number is how many there were.
    pub fn show(&mut self, object: u32, kind: u8)
        requires room { self.old.has_room ≡ true }
        requires free { has_object self.old.objects self.old.up object ≡ false }
        requires few { length self.old.objects < 2 ^ 32 }
        ensures objects { self.new.objects ≡ self.old.objects ++ object ∷ [] }
        ensures kinds { self.new.kinds ≡ self.old.kinds ++ kind ∷ [] }
        ensures up { self.new.up ≡ self.old.up ++ length self.old.objects ∷ [] }
        ensures table { self.new.table ≡ self.old.table }
    {
        let n = self.objects.len() as u32;
        self.objects.push_reserved(object);
        self.kinds.push_reserved(kind);
        self.up.push_reserved(n);
    }

    /// The period is hidden.
    pub fn hide(&mut self, n: u32)
        ensures up { self.new.up ≡ filter (λ m. not (m == n)) self.old.up }
        ensures objects { self.new.objects ≡ self.old.objects }
        ensures kinds { self.new.kinds ≡ self.old.kinds }
        ensures table { self.new.table ≡ self.old.table }
    {
        without(&mut self.up, n);
    }

    /// The object of each.
    pub fn into_objects(self) -> Objects
        ensures { result ≡ self.objects }
    {
        let Periods {
            objects,
            kinds: _,
            up: _,
            table: _,
        } = self;
        Objects::of(objects)
    }
}
