//! What lies near a disc, by the cells that the square round it touches: at most four, since a disc reaches less than a
//! cell is wide.
ghost use Rattle.std.specs.Prelude.{◌≡◌, ℕ, ◌<◌, ◌+◌, ◌-◌, ◌*◌, ◌/◌, ◌⊎◌, min, true, false, length, slice_get, slice_index_or, Some};
ghost use Rattle.std.specs.List.{list_any, AllByRecursion};
ghost use Rattle.world_rules.specs.declared.object.Object.{Object};
ghost use Rattle.world_rules.specs.Near.{is_target_near};
ghost use Rattle.world_rules.specs.Identity.{LivesOn};
ghost use Rattle.world_rules.specs.Ranges.{ObjectFits};
ghost use Rattle.world_cells.specs.Cells.{IsGrid, lies_in};
ghost use Rattle.world_sim.specs.Searches.{IsNoTarget};

use world_cells::{CELL_SIDE, CELLS_ACROSS, Cells};
use world_rules::Object;
use world_rules::measures::DISC_REACH;

// Whether an object is a target of the other team within a disc's reach.
fn is_target_near(o: &Object, t: &Object) -> bool
    ensures { result ≡ is_target_near DISC_REACH o.now t.now }
{
    t.is_target() && o.is_other_near(DISC_REACH, t)
}

// Whether one of these objects is.
fn any_target(numbers: &[u32], objects: &[Object], o: &Object) -> bool
    requires there { (k : ℕ) → k < length numbers.now → slice_index_or numbers.now k 0 < length objects.now }
    ensures found { result ≡ true → list_any (is_target_near DISC_REACH o.now) objects.now ≡ true }
    ensures none { result ≡ false → (k : ℕ) → k < length numbers.now
        → IsNoTarget objects.now o.now (slice_index_or numbers.now k 0) }
{
    for n in numbers {
        if is_target_near(o, &objects[*n as usize]) {
            return true;
        }
    }
    false
}

// Whether an object in this cell is.
fn any_target_in(cells: &Cells, cell: u8, objects: &[Object], o: &Object) -> bool
    requires { IsGrid cells.now objects.now }
    ensures found { result ≡ true → list_any (is_target_near DISC_REACH o.now) objects.now ≡ true }
    ensures none { result ≡ false → (n : ℕ) (t : Object) → slice_get objects.now n ≡ Some t → lies_in cell t ≡ true
        → is_target_near DISC_REACH o.now t ≡ false }
{
    any_target(cells.cell(cell), objects, o)
}

// Whether an object in one of two cells of a row is.
fn any_target_beside(
    cells: &Cells,
    row: u8,
    columns: (u8, u8),
    objects: &[Object],
    o: &Object,
) -> bool
    requires grid { IsGrid cells.now objects.now }
    requires row { row < CELLS_ACROSS }
    requires first { columns.0 < CELLS_ACROSS }
    requires second { columns.1 < CELLS_ACROSS }
    ensures found { result ≡ true → list_any (is_target_near DISC_REACH o.now) objects.now ≡ true }
    ensures none { result ≡ false → (n : ℕ) (t : Object) → slice_get objects.now n ≡ Some t
        → (lies_in (row * CELLS_ACROSS + columns.0) t ≡ true) ⊎ (lies_in (row * CELLS_ACROSS + columns.1) t ≡ true)
        → is_target_near DISC_REACH o.now t ≡ false }
{
    let from = row * CELLS_ACROSS as u8;
    if any_target_in(cells, from + columns.0, objects, o) {
        return true;
    }
    if columns.0 == columns.1 {
        return false;
    }
    any_target_in(cells, from + columns.1, objects, o)
}

// The first column or row of cells that the square touches.
fn first_touched(at: u32) -> u8
    ensures { result ≡ min ((at - DISC_REACH) / CELL_SIDE) (CELLS_ACROSS - 1) }
{
    (at.saturating_sub(DISC_REACH) / CELL_SIDE).min(CELLS_ACROSS - 1) as u8
}

// The last one.
fn last_touched(at: u32) -> u8
    ensures { result ≡ min ((at + DISC_REACH) / CELL_SIDE) (CELLS_ACROSS - 1) }
{
    (at.saturating_add(DISC_REACH) / CELL_SIDE).min(CELLS_ACROSS - 1) as u8
}

/// Whether a target of the other team lies within a disc's reach.
pub fn any_target_round(cells: &Cells, objects: &[Object], o: &Object) -> bool
    requires grid { IsGrid cells.now objects.now }
    requires alive { AllByRecursion LivesOn objects.now }
    requires fits { AllByRecursion ObjectFits objects.now }
    ensures { result ≡ list_any (is_target_near DISC_REACH o.now) objects.now }
{
    let columns = (first_touched(o.place.x), last_touched(o.place.x));
    let rows = (first_touched(o.place.y), last_touched(o.place.y));
    if any_target_beside(cells, rows.0, columns, objects, o) {
        return true;
    }
    if rows.0 == rows.1 {
        return false;
    }
    any_target_beside(cells, rows.1, columns, objects, o)
}
