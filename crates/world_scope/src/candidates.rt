//! Which objects a scan looks at, as a bit for each number: what is always seen, and what lies in the cells that the square
//! round the client's player touches.
ghost use Rattle.std.specs.Prelude.{◌≡◌, ℕ, ◌≤◌, ◌<◌, ◌+◌, ◌-◌, ◌*◌, ◌/◌, Bool, List, min, nat_le, length, replicate, slice_index_or};
ghost use Rattle.std.specs.List.{AllByRecursion};
ghost use Rattle.world_rules.specs.declared.object.Object.{Object};
ghost use Rattle.world_rules.specs.Ranges.{ObjectFits};
ghost use Rattle.world_cells.specs.Grid.{numbers, lies_between};
ghost use Rattle.world_scope.specs.Views.{look};
ghost use Rattle.world_scope.specs.Square.{is_round};
ghost use Rattle.world_scope.specs.Candidates.{AreThose, either, is_in_row, is_near, may_see};

use crate::viewer::Viewer;
use crate::word_set::{WORDS, WordSet, first_marks};
use tn_types::MAX_OBJECTS;
use world_rules::Place;
use world_sim::{CELL_SIDE, CELLS_ACROSS, World};

// Puts in each of these numbers.
fn add_all(words: &mut WordSet, found: &[u32])
    requires few { (k : ℕ) → k < length found.now → slice_index_or found.now k 0 < MAX_OBJECTS }
    ensures { (p q : Object → Bool) (os : List Object) → AreThose words.old p os → found.now ≡ numbers q 0 os
        → AreThose words.new (either p q) os }
{
    words.put_all(found);
}

// Puts in those in a row of cells between two columns.
fn add_row(world: &World, row: u8, columns: (u8, u8), words: &mut WordSet)
    requires few { length world.now.objects ≤ MAX_OBJECTS }
    requires row { row < CELLS_ACROSS }
    requires columns { columns.1 ≤ CELLS_ACROSS }
    requires order { columns.0 ≤ columns.1 }
    ensures { (p : Object → Bool) → AreThose words.old p world.now.objects
        → AreThose words.new (either p (is_in_row row columns.0 columns.1)) world.now.objects }
{
    for column in columns.0..columns.1 {
        add_all(words, world.cell(column, row));
    }
}

// Puts in those in the cells between two columns and two rows, cell by cell: the shorter way where they are few.
fn add_cells(world: &World, columns: (u8, u8), rows: (u8, u8), words: &mut WordSet)
    requires few { length world.now.objects ≤ MAX_OBJECTS }
    requires columns { columns.1 ≤ CELLS_ACROSS }
    requires column_order { columns.0 ≤ columns.1 }
    requires rows { rows.1 ≤ CELLS_ACROSS }
    requires row_order { rows.0 ≤ rows.1 }
    ensures { (p : Object → Bool) → AreThose words.old p world.now.objects
        → AreThose words.new (either p (lies_between columns.0 columns.1 rows.0 rows.1)) world.now.objects }
{
    for row in rows.0..rows.1 {
        add_row(world, row, columns, words);
    }
}

/// How many words of 64 bits have one for each object.
pub fn words_of(world: &World) -> usize
    ensures few { result ≤ 16 }
    ensures all { length world.now.objects ≤ 64 * result }
{
    (world.objects() as usize).div_ceil(64)
}

// Puts in those in the cells between two columns and two rows, word by word: the shorter way where the cells are many.
fn add_words(world: &World, columns: (u8, u8), rows: (u8, u8), words: &mut WordSet)
    requires columns { columns.1 ≤ CELLS_ACROSS }
    requires column_order { columns.0 ≤ columns.1 }
    requires rows { rows.1 ≤ CELLS_ACROSS }
    requires row_order { rows.0 ≤ rows.1 }
    ensures { (p : Object → Bool) → AreThose words.old p world.now.objects
        → AreThose words.new (either p (lies_between columns.0 columns.1 rows.0 rows.1)) world.now.objects }
{
    let many = words_of(world);
    let marks = first_marks(many);
    for word in 0..many {
        words.join(word, world.between(columns, rows, word), many, marks);
    }
}

// Whether so few cells lie between two columns and two rows that to go through them is the shorter way.
fn are_few(columns: (u8, u8), rows: (u8, u8), words: usize) -> bool
    requires columns { columns.0 ≤ columns.1 }
    requires rows { rows.0 ≤ rows.1 }
    ensures { result ≡ nat_le (4 * (columns.1 - columns.0) * (rows.1 - rows.0)) words }
{
    4 * usize::from(columns.1 - columns.0) * usize::from(rows.1 - rows.0) <= words
}

// Puts in those in the cells between two columns and two rows.
fn add_part(world: &World, columns: (u8, u8), rows: (u8, u8), words: &mut WordSet)
    requires few { length world.now.objects ≤ MAX_OBJECTS }
    requires columns { columns.1 ≤ CELLS_ACROSS }
    requires column_order { columns.0 ≤ columns.1 }
    requires rows { rows.1 ≤ CELLS_ACROSS }
    requires row_order { rows.0 ≤ rows.1 }
    ensures { (p : Object → Bool) → AreThose words.old p world.now.objects
        → AreThose words.new (either p (lies_between columns.0 columns.1 rows.0 rows.1)) world.now.objects }
{
    if are_few(columns, rows, words_of(world)) {
        add_cells(world, columns, rows, words);
    } else {
        add_words(world, columns, rows, words);
    }
}

// The first cell of a coordinate's row or column that the square touches.
fn first_touched(radius: u32, at: u32) -> u8
    ensures value { result ≡ min ((at - radius) / CELL_SIDE) CELLS_ACROSS }
{
    (at.saturating_sub(radius) / CELL_SIDE).min(CELLS_ACROSS) as u8
}

// Behind the last cell of it that the square touches.
fn touched_end(radius: u32, at: u32) -> u8
    ensures value { result ≡ min ((at + radius) / CELL_SIDE + 1) CELLS_ACROSS }
{
    (at.saturating_add(radius) / CELL_SIDE + 1).min(CELLS_ACROSS) as u8
}

// Puts in those in the cells that the square round this place touches.
fn add_round(world: &World, radius: u32, place: &Place, words: &mut WordSet)
    requires few { length world.now.objects ≤ MAX_OBJECTS }
    requires fits { AllByRecursion ObjectFits world.now.objects }
    ensures { (p : Object → Bool) → AreThose words.old p world.now.objects
        → AreThose words.new (either p (is_round radius place.now)) world.now.objects }
{
    let columns = (first_touched(radius, place.x), touched_end(radius, place.x));
    let rows = (first_touched(radius, place.y), touched_end(radius, place.y));
    add_part(world, columns, rows, words);
}

// Puts in those round the client's player, if there is one.
fn add_near(viewer: &Viewer, world: &World, words: &mut WordSet)
    requires few { length world.now.objects ≤ MAX_OBJECTS }
    requires fits { AllByRecursion ObjectFits world.now.objects }
    ensures { (p : Object → Bool) → AreThose words.old p world.now.objects
        → AreThose words.new (either p (is_near viewer.now.radius viewer.now.player)) world.now.objects }
{
    if let Some(player) = &viewer.player {
        add_round(world, viewer.radius, &player.place, words);
    }
}

/// Puts all that the client may see into a set that is empty.
pub fn add_candidates(viewer: &Viewer, world: &World, words: &mut WordSet)
    requires few { length world.now.objects ≤ MAX_OBJECTS }
    requires fits { AllByRecursion ObjectFits world.now.objects }
    requires empty { words.old ≡ replicate WORDS 0 }
    ensures { AreThose words.new (may_see (look viewer.now)) world.now.objects }
{
    add_all(words, world.always());
    add_near(viewer, world, words);
}
