//! Whether two tables of kinds are the same.

ghost use Rattle.std.specs.Prelude.{◌≡◌, ◌≤◌, Decides, length, slice_get};

use crate::field::FieldSpec;
use crate::kind::Kind;
use crate::table::KindTable;
use tn_types::MAX_KINDS;

fn is_same_field(a: &FieldSpec, b: &FieldSpec) -> bool
    ensures { Decides result (a.now ≡ b.now) }
{
    *a == *b
}

fn are_same_fields(a: &[FieldSpec], b: &[FieldSpec]) -> bool
    ensures { Decides result (a.now ≡ b.now) }
{
    if a.len() != b.len() {
        return false;
    }
    for (i, field) in a.iter().enumerate() {
        if !is_same_field(field, &b[i]) {
            return false;
        }
    }
    true
}

fn is_same_kind(a: &Kind, b: &Kind) -> bool
    ensures { Decides result (a.now ≡ b.now) }
{
    a.weight == b.weight
        && a.always == b.always
        && are_same_fields(a.fields.as_slice(), b.fields.as_slice())
}

// Whether kind k is the same in both, or in neither.
fn is_same_at(a: &KindTable, b: &KindTable, k: u8) -> bool
    ensures { Decides result (slice_get a.now k ≡ slice_get b.now k) }
{
    match a.kind(k) {
        None => b.kind(k).is_none(),
        Some(own) => match b.kind(k) {
            None => false,
            Some(other) => is_same_kind(own, other),
        },
    }
}

// No table has more kinds than this.
fn learn_few(table: &KindTable)
    ensures { length table.now ≤ MAX_KINDS }
{
    // for its clauses
    let _kind = table.kind(0);
}

/// Whether both tables have the same kinds in the same order.
pub(crate) fn are_same_kinds(a: &KindTable, b: &KindTable) -> bool
    ensures { Decides result (a.now ≡ b.now) }
{
    learn_few(a);
    learn_few(b);
    for k in 0..MAX_KINDS as u8 {
        if !is_same_at(a, b, k) {
            return false;
        }
    }
    true
}
