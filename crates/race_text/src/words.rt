//! The mask words at the end.
ghost use Rattle.std.specs.Prelude.{◌≡◌, ◌++◌, ◌<◌, ◌≤◌, OnOk};
ghost use Rattle.race_text.specs.Text.{mask_line, client_masks, masks_text};

use crate::draft::Draft;
use dirty_lanes::FinalWords;
use tn_types::NoMemory;

// The line of one word, unless it is 0.
fn put_word(text: &mut Draft, words: &FinalWords, client: u8, object: u32) -> Result<(), NoMemory>
    requires client { client < words.now.clients }
    requires object { object < words.now.objects }
    ensures added { OnOk result (text.new.added ≡ text.old.added ++ mask_line words.now client object) }
    ensures before { text.new.before ≡ text.old.before }
{
    let bits = words.mask(client, object);
    if bits == 0 {
        return Ok(());
    }
    text.push_str("m ")?;
    text.push_number(u64::from(client))?;
    text.push_str(" ")?;
    text.push_number(u64::from(object))?;
    text.push_str(" ")?;
    text.push_number(u64::from(bits))?;
    text.push_str("\n")
}

// The lines of one client.
fn put_client(
    text: &mut Draft,
    words: &FinalWords,
    client: u8,
    objects: u32,
) -> Result<(), NoMemory>
    requires client { client < words.now.clients }
    requires objects { objects ≤ words.now.objects }
    ensures added { OnOk result (text.new.added ≡ text.old.added ++ client_masks words.now objects client) }
    ensures before { text.new.before ≡ text.old.before }
{
    for object in 0..objects {
        put_word(text, words, client, object)?;
    }
    Ok(())
}

/// Adds a line for each word that isn't 0, of so many clients and objects. There may be words of more.
#[tactic(auto, using(crate::proofs::Each::each_more))]
pub fn put_words(
    text: &mut Draft,
    words: &FinalWords,
    clients: u8,
    objects: u32,
) -> Result<(), NoMemory>
    requires clients { clients ≤ words.now.clients }
    requires objects { objects ≤ words.now.objects }
    ensures added { OnOk result (text.new.added ≡ text.old.added ++ masks_text words.now clients objects) }
    ensures before { text.new.before ≡ text.old.before }
{
    for client in 0..clients {
        put_client(text, words, client, objects)?;
    }
    Ok(())
}
