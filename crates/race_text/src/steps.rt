//! One step.
ghost use Rattle.std.specs.Prelude.{◌≡◌, ◌++◌, OnOk, codes};
ghost use Rattle.std.specs.Fmt.{decimal};
ghost use Rattle.match_script.specs.Print.{class_word, hex_word};
ghost use Rattle.kept_pair.specs.StepLists.{kept_of};
ghost use Rattle.race_text.specs.Journal.{object_of, show_words, move_words, step_words};

use crate::draft::Draft;
use crate::packs::put_pack;
use bit_stream::move_of_bits;
use kept_pair::pair_core::PairStep;
use lane_periods::Objects;
use std::alloc::Global;
use tn_types::{Class, Drain, Move, NoMemory, Payload, Read};
use world_rules::kind_word;

// Adds a word and a number.
fn put(text: &mut Draft, word: &str, number: u32) -> Result<(), NoMemory>
    ensures added { OnOk result (text.new.added ≡ text.old.added ++ word.now ++ decimal number) }
    ensures before { text.new.before ≡ text.old.before }
{
    text.push_str(word)?;
    text.push_number(u64::from(number))
}

// The object of a period; 0 where none is known.
fn object_of(objects: &Objects, n: u32) -> u32
    ensures { result ≡ object_of objects.now n }
{
    match objects.get(n) {
        Some(object) => object,
        None => 0,
    }
}

// A show, with its period and the object of it.
fn put_show(
    text: &mut Draft,
    objects: &Objects,
    n: u32,
    kind: u8,
    block: u8,
    level: u8,
    control: bool,
) -> Result<(), NoMemory>
    ensures added { OnOk result (text.new.added ≡ text.old.added ++ show_words objects.now n kind block level control) }
    ensures before { text.new.before ≡ text.old.before }
{
    put(text, "show ", n)?;
    put(text, " ", object_of(objects, n))?;
    text.push_str(" ")?;
    text.push_str(kind_word(kind))?;
    put(text, " ", u32::from(block))?;
    put(text, " ", u32::from(level))?;
    text.push_str(" ")?;
    text.push_flag(control)
}

// An event's class and its bytes.
fn put_event(
    text: &mut Draft,
    alloc: Global,
    class: Class,
    payload: &Payload,
) -> Result<(), NoMemory>
    ensures added { OnOk result (text.new.added ≡ text.old.added ++ class_word class ++ codes " " ++ hex_word payload.now) }
    ensures before { text.new.before ≡ text.old.before }
{
    text.push_class(class)?;
    text.push_str(" ")?;
    text.push_hex(alloc, payload.as_slice())
}

fn put_move(text: &mut Draft, m: &Move) -> Result<(), NoMemory>
    ensures added { OnOk result (text.new.added ≡ text.old.added ++ move_words m.now) }
    ensures before { text.new.before ≡ text.old.before }
{
    text.push_str("move ")?;
    text.push_signed(i64::from(m.dx))?;
    text.push_str(" ")?;
    text.push_signed(i64::from(m.dy))?;
    text.push_str(" ")?;
    text.push_flag(m.fire)?;
    text.push_str(" ")?;
    text.push_flag(m.act)
}

// Two numbers after a word.
fn put_two(text: &mut Draft, word: &str, first: u32, second: u32) -> Result<(), NoMemory>
    ensures added { OnOk result (text.new.added ≡ text.old.added ++ word.now ++ decimal first ++ codes " " ++ decimal second) }
    ensures before { text.new.before ≡ text.old.before }
{
    put(text, word, first)?;
    put(text, " ", second)
}

/// Adds a step, and what it drained and read where it is a pack. So many periods were shown before it, and these are the objects
/// of periods.
pub(crate) fn put_step(
    text: &mut Draft,
    alloc: Global,
    objects: &Objects,
    n: u32,
    step: &PairStep,
    drains: &[Drain],
    reads: &[Read],
) -> Result<(), NoMemory>
    ensures added { OnOk result (text.new.added
        ≡ text.old.added ++ step_words objects.now n (kept_of step.now drains.now reads.now)) }
    ensures before { text.new.before ≡ text.old.before }
{
    match step {
        PairStep::Show {
            kind,
            block,
            level,
            control,
        } => put_show(text, objects, n, *kind, *block, *level, *control),
        PairStep::Hide { n } => put(text, "hide ", *n),
        PairStep::Near { n, level } => put_two(text, "near ", *n, u32::from(*level)),
        PairStep::Post { class, payload } => {
            text.push_str("post ")?;
            put_event(text, alloc, *class, payload)
        }
        PairStep::ClientPost { class, payload } => {
            text.push_str("cpost ")?;
            put_event(text, alloc, *class, payload)
        }
        PairStep::Sample { m } => put_move(text, &move_of_bits(*m)),
        PairStep::Pack => put_pack(text, drains, reads),
        PairStep::ClientPack => text.push_str("cpack"),
        PairStep::Down { k } => put(text, "down ", *k),
        PairStep::Up { k, room } => put_two(text, "up ", *k, *room),
        PairStep::Raw { bytes, room } => {
            put(text, "raw ", *room)?;
            text.push_str(" ")?;
            text.push_hex(alloc, bytes.as_slice())
        }
    }
}
