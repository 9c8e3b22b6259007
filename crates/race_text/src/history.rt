//! The values of each field, by version.
ghost use Rattle.std.specs.Prelude.{◌≡◌, ◌++◌, OnOk};
ghost use Rattle.std.specs.List.{flat_map};
ghost use Rattle.race_text.specs.Text.{value_word, field_line, object_lines, history_text};

use crate::draft::Draft;
use race_history::History;
use tn_types::NoMemory;

fn put_values(text: &mut Draft, values: &[i64]) -> Result<(), NoMemory>
    ensures added { OnOk result (text.new.added ≡ text.old.added ++ flat_map value_word values.now) }
    ensures before { text.new.before ≡ text.old.before }
{
    for value in values {
        text.push_str(" ")?;
        text.push_signed(*value)?;
    }
    Ok(())
}

// The line of one field.
fn put_field(text: &mut Draft, values: &History, object: u32, field: u8) -> Result<(), NoMemory>
    ensures added { OnOk result (text.new.added ≡ text.old.added ++ field_line values.now object field) }
    ensures before { text.new.before ≡ text.old.before }
{
    text.push_str("h ")?;
    text.push_number(u64::from(object))?;
    text.push_str(" ")?;
    text.push_number(u64::from(field))?;
    put_values(text, values.versions(object, field))?;
    text.push_str("\n")
}

// The lines of one object.
fn put_object(text: &mut Draft, values: &History, object: u32) -> Result<(), NoMemory>
    ensures added { OnOk result (text.new.added ≡ text.old.added ++ object_lines values.now object) }
    ensures before { text.new.before ≡ text.old.before }
{
    for field in 0..values.fields(object) {
        put_field(text, values, object, field as u8)?;
    }
    Ok(())
}

/// Adds a line for each field of each object, with all values that it had.
#[tactic(auto, using(crate::proofs::Each::each_more))]
pub fn put_history(text: &mut Draft, values: &History) -> Result<(), NoMemory>
    ensures added { OnOk result (text.new.added ≡ text.old.added ++ history_text values.now) }
    ensures before { text.new.before ≡ text.old.before }
{
    for object in 0..values.objects() {
        put_object(text, values, object)?;
    }
    Ok(())
}
