//! Bytes handed over.
ghost use Rattle.std.specs.Prelude.{◌≡◌, ◌≤◌, length, take, drop};

use tn_types::{Class, MAX_EVENT_BYTES, Payload};

/// An event that was handed out: how it was sent, and how many bytes it has.
#[derive(Clone, Copy, Debug, PartialEq, Eq)]
pub struct Popped {
    pub class: Class,
    pub count: usize,
}

/// Puts the bytes at the front of the place, and gives how many they are.
pub(crate) fn hand_over(bytes: &[u8], place: &mut [u8]) -> usize
    requires { length bytes.now ≤ length place.old }
    ensures count { result ≡ length bytes.now }
    ensures bytes { take result place.new ≡ bytes.now }
    ensures rest { drop result place.new ≡ drop result place.old }
{
    let count = bytes.len();
    place[..count].copy_from_slice(bytes);
    count
}

/// Hands over an event.
pub(crate) fn hand_event(class: Class, payload: &Payload, place: &mut [u8]) -> Popped
    requires { MAX_EVENT_BYTES ≤ length place.old }
    ensures class { result.class ≡ class }
    ensures bytes { take result.count place.new ≡ payload.now }
    ensures few { result.count ≤ MAX_EVENT_BYTES }
{
    let bytes = payload.as_slice();
    Popped {
        class,
        count: hand_over(bytes, place),
    }
}
