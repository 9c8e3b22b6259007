//! The lines of a replay.
ghost use Rattle.std.specs.Prelude.{◌≡◌, ◌≤◌, ◌++◌, [], OnOk, length, map};
ghost use Rattle.demo_view.specs.Viewing.{taking};
ghost use Rattle.demo_view.specs.Stands.{terms_of};
ghost use Rattle.demo_view.specs.Calls.{Answers, Becomes};
ghost use Rattle.demo_replay.specs.Replaying.{event_told, record_told, replayed_line, shown_behind, word_for};

use copies_told::copies_told;
use demo_view::Viewer;
use match_report::{EventTold, put_shown, put_took, put_untaken};
use std::alloc::Global;
use tn_types::{MAX_READ_BYTES, NoMemory};

/// The events that wait are handed out into a list, which had nothing.
fn hand_out(viewer: &mut Viewer, events: &mut Vec<EventTold>) -> Result<(), NoMemory>
    requires { events.old.items ≡ [] }
    ensures events { OnOk result (events.new.items ≡ map event_told viewer.old.events.ready) }
    ensures none { OnOk result (viewer.new.events.ready ≡ []) }
    ensures stands { Becomes viewer.old (λ packets. packets) viewer.new }
    ensures terms { terms_of viewer.new ≡ terms_of viewer.old }
{
    'out: while let Some((class, payload)) = viewer.pop_event() {
        let Ok(()) = events.push(EventTold { class, payload }) else {
            return Err(NoMemory);
        };
    }
    Ok(())
}

/// The viewer is given record `k`, and the line of what it does is put into a text in place of what stood there. `events` is only
/// a place. No event may wait, and none does then.
pub(crate) fn tell_record(
    alloc: Global,
    viewer: &mut Viewer,
    k: u32,
    record_bytes: &[u8],
    events: &mut Vec<EventTold>,
    text: &mut Vec<u8>,
) -> Result<(), NoMemory>
    requires few { length record_bytes.now ≤ MAX_READ_BYTES }
    requires quiet { viewer.old.events.ready ≡ [] }
    ensures line { OnOk result (Answers viewer.old
        (λ packets. replayed_line (record_told (terms_of viewer.old) k record_bytes.now packets)) text.new.items) }
    ensures stands { Becomes viewer.old (taking (terms_of viewer.old) record_bytes.now) viewer.new }
    ensures terms { terms_of viewer.new ≡ terms_of viewer.old }
    ensures quiet { OnOk result (viewer.new.events.ready ≡ []) }
{
    events.clear();
    text.clear();
    match viewer.take(record_bytes) {
        Ok(()) => {
            hand_out(viewer, events)?;
            put_took(alloc, k, events.as_slice(), text)
        }
        Err(fault) => put_untaken(alloc, k, fault.at_client(), text),
    }
}

/// How the last line begins.
pub(crate) fn word_for(ended: bool) -> &'static str
    ensures { result.now ≡ word_for ended }
{
    if ended { "end" } else { "cut" }
}

/// The line of what a viewer shows is put after a word into a text, in place of what stood there.
pub(crate) fn tell_shown(
    alloc: Global,
    viewer: &Viewer,
    word: &str,
    text: &mut Vec<u8>,
) -> Result<(), NoMemory>
    ensures { OnOk result (Answers viewer.now (shown_behind word.now viewer.now.copies.kinds) text.new.items) }
{
    text.clear();
    let copies = copies_told(alloc, viewer.copies())?;
    put_shown(alloc, word, viewer.delivered(), copies.as_slice(), text)
}
