//! The object of a period, and how many fields an object may have.
ghost use Rattle.std.specs.Prelude.{◌≡◌, ℕ, ◌<◌, ◌≤◌, MatchOption, length};
ghost use Rattle.race_history.specs.History.{fields_told};
ghost use Rattle.race_reads.specs.Reads.{object_of};

use dirty_lanes::MAX_LANE_FIELDS;
use lane_periods::Objects;
use race_history::History;

/// The object of a period; `None` exactly where it has none.
pub(crate) fn object_of(objects: &Objects, n: u32) -> Option<u32>
    ensures { MatchOption result (length objects.now ≤ n) (λ object. (n < length objects.now) × (object ≡ object_of objects.now n)) }
{
    objects.get(n)
}

/// No object has more fields than a table has places in a row.
pub(crate) fn learn_fields(values: &History)
    ensures { (object : ℕ) → length (fields_told values.now object) ≤ MAX_LANE_FIELDS }
{
    for object in 0..values.objects() {
        // for its clauses
        let _few = values.fields(object);
    }
}
