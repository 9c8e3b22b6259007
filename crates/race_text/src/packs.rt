//! What a pack drained and read.
ghost use Rattle.std.specs.Prelude.{◌≡◌, ◌++◌, OnOk};
ghost use Rattle.std.specs.List.{flat_map};
ghost use Rattle.race_text.specs.Journal.{drain_word, read_word, pack_words};

use crate::draft::Draft;
use tn_types::{Drain, NoMemory, Read};

fn put_drain(text: &mut Draft, drain: &Drain) -> Result<(), NoMemory>
    ensures added { OnOk result (text.new.added ≡ text.old.added ++ drain_word drain.now) }
    ensures before { text.new.before ≡ text.old.before }
{
    if drain.bits == 0 {
        return Ok(());
    }
    text.push_str(" ")?;
    text.push_number(u64::from(drain.n))?;
    text.push_str(":")?;
    text.push_number(u64::from(drain.bits))
}

fn put_drains(text: &mut Draft, drains: &[Drain]) -> Result<(), NoMemory>
    ensures added { OnOk result (text.new.added ≡ text.old.added ++ flat_map drain_word drains.now) }
    ensures before { text.new.before ≡ text.old.before }
{
    for drain in drains {
        put_drain(text, drain)?;
    }
    Ok(())
}

fn put_read(text: &mut Draft, read: &Read) -> Result<(), NoMemory>
    ensures added { OnOk result (text.new.added ≡ text.old.added ++ read_word read.now) }
    ensures before { text.new.before ≡ text.old.before }
{
    text.push_str(" ")?;
    text.push_number(u64::from(read.n))?;
    text.push_str(".")?;
    text.push_number(u64::from(read.field))?;
    text.push_str("@")?;
    text.push_number(u64::from(read.version.saturating_sub(1)))?;
    text.push_str("=")?;
    text.push_signed(read.value)
}

fn put_reads(text: &mut Draft, reads: &[Read]) -> Result<(), NoMemory>
    ensures added { OnOk result (text.new.added ≡ text.old.added ++ flat_map read_word reads.now) }
    ensures before { text.new.before ≡ text.old.before }
{
    for read in reads {
        put_read(text, read)?;
    }
    Ok(())
}

/// Adds a pack.
pub(crate) fn put_pack(text: &mut Draft, drains: &[Drain], reads: &[Read]) -> Result<(), NoMemory>
    ensures added { OnOk result (text.new.added ≡ text.old.added ++ pack_words drains.now reads.now) }
    ensures before { text.new.before ≡ text.old.before }
{
    text.push_str("pack")?;
    put_drains(text, drains)?;
    put_reads(text, reads)
}
