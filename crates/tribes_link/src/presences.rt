//! Whether the other end is there, which the caller keeps.
ghost use Rattle.std.specs.Prelude.{◌≡◌, ◌≤◌, ◌⊎◌, pos, None, []};
ghost use Rattle.presence.specs.Presence.{StandsFor, Does, Answers, Came, Ended, Left, goodbye_in, says_next, presence_from};
ghost use Rattle.presence.specs.declared.other_end.TheConstants.{GOODBYES};
ghost use Rattle.tribes_link.specs.Cares.{presence_code, one_if_some, SaysAt, AliveAt};
ghost use Rattle.tribes_link.specs.Doors.{bytes_in};

use crate::door_rows::{GreetingRow, put_bytes};
use crate::joining_codes::NO_PRESENCE;
use presence::{Presence, PresenceParts, goodbye, goodbye_in};

/// The other end was heard `now`, and is given up where nothing is heard for more than `limit` milliseconds.
#[unsafe(no_mangle)]
pub extern "C" fn tribes_presence_start(presence: &mut PresenceParts, limit: u64, now: u64) -> i32
    ensures begins { StandsFor now (presence_from presence.new) [] }
    ensures limit { presence.new.limit ≡ limit }
    ensures answer { result ≡ pos 0 }
{
    *presence = Presence::new(limit, now).parts();
    0
}

/// A datagram of the other end was taken: answers 1 where it is a goodbye, with the game's reason, and else 0.
#[unsafe(no_mangle)]
pub extern "C" fn tribes_presence_came(
    presence: &mut PresenceParts,
    bytes: &[u8],
    now: u64,
    reason: &mut u32,
) -> i32
    ensures came { result ≡ pos 0 → Does (presence_from presence.old) (Came now) (presence_from presence.new) }
    ensures ended { result ≡ pos 1 → Does (presence_from presence.old) (Ended reason.new) (presence_from presence.new) }
    ensures answer { result ≡ presence_code presence.old.said (one_if_some (goodbye_in bytes.now)) }
    ensures unchanged { result ≡ NO_PRESENCE → presence.new ≡ presence.old }
{
    let Some(kept) = Presence::of_parts(*presence) else {
        return NO_PRESENCE;
    };
    let mut other = kept;
    match goodbye_in(bytes) {
        Some(said) => {
            other.ended(said);
            *presence = other.parts();
            *reason = u32::from(said);
            1
        }
        None => {
            other.came(now);
            *presence = other.parts();
            0
        }
    }
}

/// This end leaves, with this reason of the game's. The first one holds.
#[unsafe(no_mangle)]
pub extern "C" fn tribes_presence_leave(presence: &mut PresenceParts, reason: u16) -> i32
    ensures left { result ≡ pos 0 → Does (presence_from presence.old) (Left reason) (presence_from presence.new) }
    ensures answer { result ≡ presence_code presence.old.said (pos 0) }
    ensures unchanged { (result ≡ pos 0 → ⊥) → presence.new ≡ presence.old }
{
    let Some(kept) = Presence::of_parts(*presence) else {
        return NO_PRESENCE;
    };
    let mut other = kept;
    other.leave(reason);
    *presence = other.parts();
    0
}

/// Answers 1 with the goodbye that is to be sent next, while this end leaves and has said fewer than three; else 0.
#[unsafe(no_mangle)]
pub extern "C" fn tribes_presence_say(
    presence: &mut PresenceParts,
    datagram: &mut GreetingRow,
) -> i32
    ensures said { result ≡ pos 1 → SaysAt (presence_from presence.old) (bytes_in datagram.new) (presence_from presence.new) }
    ensures none { result ≡ pos 0 → Answers (presence_from presence.old) says_next None }
    ensures unchanged { (result ≡ pos 1 → ⊥) → (presence.new ≡ presence.old) × (datagram.new ≡ datagram.old) }
    ensures no_presence { presence_code presence.old.said (pos 0) ≡ NO_PRESENCE → result ≡ NO_PRESENCE }
    ensures answer { presence_code presence.old.said (pos 0) ≡ pos 0 → (result ≡ pos 0) ⊎ (result ≡ pos 1) }
{
    let Some(kept) = Presence::of_parts(*presence) else {
        return NO_PRESENCE;
    };
    let mut end = kept;
    match end.say() {
        Some(reason) => {
            put_bytes(&goodbye(reason), datagram);
            *presence = end.parts();
            1
        }
        None => 0,
    }
}

/// Answers 1 where neither end said goodbye and something was heard within the limit, else 0.
#[unsafe(no_mangle)]
pub extern "C" fn tribes_presence_alive(presence: &PresenceParts, now: u64) -> i32
    ensures answer { presence.now.said ≤ GOODBYES → AliveAt (presence_from presence.now) now result }
    ensures no_presence { presence_code presence.now.said (pos 0) ≡ NO_PRESENCE → result ≡ NO_PRESENCE }
{
    let Some(kept) = Presence::of_parts(*presence) else {
        return NO_PRESENCE;
    };
    if kept.is_alive(now) { 1 } else { 0 }
}
