//! What a client sees in the end: each field of each shown period was read at its newest version, or is marked, or is due.
ghost use Rattle.std.specs.Prelude.{◌≡◌, ℕ, true, ◌<◌, ◌≤◌, ◌+◌, ◌*◌, Some, None, IfOk, length, slice_index_or};
ghost use Rattle.std.specs.List.{AllByRecursion};
ghost use Rattle.dirty_lanes.specs.Words.{mask_at};
ghost use Rattle.kept_pair.specs.Kept.{newest_first, terms_in};
ghost use Rattle.lane_periods.specs.Periods.{has};
ghost use Rattle.pair_steps.specs.Steps.{shows_in, up_in};
ghost use Rattle.tn_types.specs.BitWords.{has_bit};
ghost use Rattle.race_history.specs.Deciding.{Decides};
ghost use Rattle.race_history.specs.History.{fields_told, newest};
ghost use Rattle.race_reads.specs.Reads.{IsCurrent};
ghost use Rattle.race_reads.specs.Legal.{reads_of, IsPeriodCurrent, IsCurrentIfUp};
ghost use Rattle.race_reads.specs.Tables.{IsNarrow, AreLast, AreCurrentBy};

use crate::last::last_reads;
use crate::pair::{due_bits, is_up, shows};
use crate::told::object_of;
use dirty_lanes::{FinalWords, MAX_LANE_FIELDS};
use kept_pair::KeptPair;
use lane_periods::Objects;
use race_history::History;
use std::alloc::Global;
use tn_types::NoMemory;

fn has_bit(word: u32, field: u8) -> bool
    requires { field < MAX_LANE_FIELDS }
    ensures { result ≡ has_bit word field }
{
    (word >> field) & 1 == 1
}

// The newest version of a field as lanes count versions.
fn newest_of(values: &History, object: u32, field: u8) -> usize
    ensures { result ≡ newest values.now object field + 1 }
{
    values.versions(object, field).len().saturating_sub(1) + 1
}

fn is_newest(last: Option<u32>, newest: usize) -> bool
    ensures { Decides result (last ≡ Some newest) }
{
    match last {
        Some(version) => version as usize == newest,
        None => false,
    }
}

// Whether a field was read at its newest version, or is marked, or is due.
fn field_is_current(
    values: &History,
    word: u32,
    due: u32,
    last: Option<u32>,
    object: u32,
    field: u8,
) -> bool
    requires { field < MAX_LANE_FIELDS }
    ensures { Decides result (IsCurrent values.now word (has_bit due field) last object field) }
{
    if has_bit(word, field) {
        return true;
    }
    if has_bit(due, field) {
        return true;
    }
    is_newest(last, newest_of(values, object, field))
}

/// Whether each field of an object is current, for the period that has this row of the table.
pub(crate) fn fields_are_current(
    values: &History,
    word: u32,
    due: u32,
    last: &[Option<u32>],
    object: u32,
    n: u32,
) -> bool
    requires inside { MAX_LANE_FIELDS * n + MAX_LANE_FIELDS ≤ length last.now }
    ensures { Decides result (AreCurrentBy values.now word due last.now object n) }
{
    let row = MAX_LANE_FIELDS * n as usize;
    for f in 0..values.fields(object) {
        let read = last[row + f as usize];
        if !field_is_current(values, word, due, read, object, f as u8) {
            return false;
        }
    }
    true
}

// The bits of a client and an object in the final words; 0 where the words haven't the object.
fn word_of(words: &FinalWords, client: u8, object: u32) -> u32
    requires { client < words.now.clients }
    ensures { object < words.now.objects → result ≡ mask_at words.now client object }
{
    if object < words.objects() {
        return words.mask(client, object);
    }
    0
}

// Whether a period that is shown and not hidden has an object, and each field of it is current.
fn period_is_current(
    values: &History,
    words: &FinalWords,
    client: u8,
    pair: &KeptPair,
    objects: &Objects,
    last: &[Option<u32>],
    n: u32,
) -> bool
    requires client { client < words.now.clients }
    requires objects { length values.now ≤ words.now.objects }
    requires fields { (object : ℕ) → length (fields_told values.now object) ≤ MAX_LANE_FIELDS }
    requires up { has n (up_in (newest_first pair.now.steps)) ≡ true }
    requires last { AreLast (shows_in (newest_first pair.now.steps)) (reads_of pair.now.steps) last.now }
    ensures { Decides result (IsPeriodCurrent values.now words.now client (terms_in pair.now) pair.now.steps objects.now n) }
{
    let Some(object) = object_of(objects, n) else {
        return false;
    };
    let word = word_of(words, client, object);
    let due = due_bits(pair, n);
    fields_are_current(values, word, due, last, object, n)
}

// Whether a period is current if it is shown and not hidden.
fn is_current_if_up(
    values: &History,
    words: &FinalWords,
    client: u8,
    pair: &KeptPair,
    objects: &Objects,
    last: &[Option<u32>],
    n: u32,
) -> bool
    requires client { client < words.now.clients }
    requires objects { length values.now ≤ words.now.objects }
    requires fields { (object : ℕ) → length (fields_told values.now object) ≤ MAX_LANE_FIELDS }
    requires last { AreLast (shows_in (newest_first pair.now.steps)) (reads_of pair.now.steps) last.now }
    ensures { Decides result (IsCurrentIfUp values.now words.now client (terms_in pair.now) pair.now.steps objects.now n) }
{
    if !is_up(pair, n) {
        return true;
    }
    period_is_current(values, words, client, pair, objects, last, n)
}

// Whether each period is, by what was read last in each.
fn periods_are_current(
    values: &History,
    words: &FinalWords,
    client: u8,
    pair: &KeptPair,
    objects: &Objects,
    last: &[Option<u32>],
) -> bool
    requires client { client < words.now.clients }
    requires objects { length values.now ≤ words.now.objects }
    requires fields { (object : ℕ) → length (fields_told values.now object) ≤ MAX_LANE_FIELDS }
    requires last { AreLast (shows_in (newest_first pair.now.steps)) (reads_of pair.now.steps) last.now }
    ensures { Decides result ((n : ℕ)
        → IsCurrentIfUp values.now words.now client (terms_in pair.now) pair.now.steps objects.now n) }
{
    for n in 0..shows(pair) {
        if !is_current_if_up(values, words, client, pair, objects, last, n) {
            return false;
        }
    }
    true
}

/// Whether each field of each period that is shown and not hidden was read at its newest version in this period, or its bit
/// stands in the final word of the object, or it is due.
pub(crate) fn all_current(
    alloc: Global,
    values: &History,
    words: &FinalWords,
    client: u8,
    pair: &KeptPair,
    objects: &Objects,
) -> Result<bool, NoMemory>
    requires client { client < words.now.clients }
    requires objects { length values.now ≤ words.now.objects }
    requires fields { (object : ℕ) → length (fields_told values.now object) ≤ MAX_LANE_FIELDS }
    requires narrow { AllByRecursion IsNarrow (reads_of pair.now.steps) }
    ensures { IfOk result (λ b. Decides b ((n : ℕ)
        → IsCurrentIfUp values.now words.now client (terms_in pair.now) pair.now.steps objects.now n)) }
{
    let last = last_reads(alloc, shows(pair), pair.steps())?;
    Ok(periods_are_current(values, words, client, pair, objects, &last))
}
