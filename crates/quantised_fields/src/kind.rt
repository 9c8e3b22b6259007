//! One kind of object, and the first fault that makes it unfit for a table.

ghost use Rattle.std.specs.Prelude.{◌≡◌, ◌<◌, ◌≤◌, length, position, nat_lt, [], false};
ghost use Rattle.quantised_fields.specs.Kinds.{kind_fault, is_unsound, width_of};

use crate::field::{FieldList, FieldSpec};
use crate::table::KindFault;
use tn_types::{MAX_FIELDS, MAX_KIND_BITS, MAX_KINDS};

/// What objects of one kind have: their fields, how much they weigh in a packet's order, and whether each
/// client always sees them.
#[derive(Drop)]
pub struct Kind {
    pub fields: FieldList,
    pub weight: u8,
    pub always: bool,
}

impl Default for Kind {
    /// A kind of no fields, which no table takes.
    fn default() -> Self
        ensures { result ≡ record { fields = []; weight = 0; always = false } }
    {
        Kind {
            fields: FieldList::new(),
            weight: 0,
            always: false,
        }
    }
}

impl Kind {
    /// An equal kind.
    pub fn copy(&self) -> Kind
        ensures { result ≡ self.now }
    {
        Kind {
            fields: self.fields.copy(),
            weight: self.weight,
            always: self.always,
        }
    }
}

// The first fault of kind `number`, if it has one.
pub(crate) fn fault_of(number: u8, kind: &Kind) -> Option<KindFault>
    requires { number < MAX_KINDS }
    ensures { result ≡ kind_fault number kind.now }
{
    let fields = kind.fields.as_slice();
    if fields.len() > MAX_FIELDS {
        return Some(KindFault::TooMany { kind: number });
    }
    if fields.is_empty() {
        return Some(KindFault::Empty { kind: number });
    }
    if let Some(field) = unsound_field(fields) {
        return Some(KindFault::BadRange {
            kind: number,
            field: field as u8,
        });
    }
    if is_too_wide(fields) {
        return Some(KindFault::TooWide { kind: number });
    }
    None
}

// The least field that isn't sound.
fn unsound_field(fields: &[FieldSpec]) -> Option<usize>
    ensures { result ≡ position is_unsound fields.now }
{
    fields.iter().position(|field| !field.is_sound())
}

// Whether the fields are above the limit together.
fn is_too_wide(fields: &[FieldSpec]) -> bool
    requires { length fields.now ≤ MAX_FIELDS }
    ensures { result ≡ nat_lt MAX_KIND_BITS (width_of fields.now) }
{
    let mut width = 0u64;
    for field in fields {
        width += u64::from(field.bits);
    }
    width > MAX_KIND_BITS
}
