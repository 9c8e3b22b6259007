//! The other end of a link, by what is heard of it.
ghost use Rattle.std.specs.Prelude.{◌≡◌, ◌≤◌, ◌↔◌, [], IfSome, IsSome, is_some};
ghost use Rattle.presence.specs.Presence.{goodbye, goodbye_in, later, is_within, reason_from, presence_from};

use std::marker::Model;

/// The first byte of a goodbye. Its two lowest bits are set, which they are in no packet of a connection.
pub const GOODBYE: u8 = 23;

/// The second byte.
pub const GOODBYE_VERSION: u8 = 1;

/// So many bytes has a goodbye.
pub const GOODBYE_BYTES: usize = 4;

/// So many goodbyes are said, since any of them may be lost.
pub const GOODBYES: u8 = 3;

/// What a number of `PresenceParts` is where nobody said goodbye.
pub const NO_GOODBYE: u32 = 65_536;

/// The numbers of a `Presence`, for callers that keep it themselves.
#[repr(C)]
#[derive(Clone, Copy)]
pub struct PresenceParts {
    /// For how many milliseconds nothing may be heard.
    pub limit: u64,
    /// When the other end was heard last.
    pub last: u64,
    /// With which reason the other end said goodbye, or `NO_GOODBYE`.
    pub ended: u32,
    /// With which reason this end leaves, or `NO_GOODBYE`.
    pub leaving: u32,
    /// How many goodbyes this end said, 3 at the most.
    pub said: u32,
}

// The reason that a number tells, if it tells one.
fn reason_from(number: u32) -> Option<u16>
    ensures { result ≡ reason_from number }
{
    if number < NO_GOODBYE {
        Some(number as u16)
    } else {
        None
    }
}

// The number that tells a reason, or none.
fn number_of(reason: Option<u16>) -> u32
    ensures { reason_from result ≡ reason }
{
    match reason {
        Some(reason) => u32::from(reason),
        None => NO_GOODBYE,
    }
}

/// The goodbye with a reason of the game's.
pub fn goodbye(reason: u16) -> [u8; GOODBYE_BYTES]
    ensures { result ≡ goodbye reason }
{
    let [r0, r1] = reason.to_le_bytes();
    [GOODBYE, GOODBYE_VERSION, r0, r1]
}

/// The reason of a goodbye, if these bytes are one.
pub fn goodbye_in(bytes: &[u8]) -> Option<u16>
    ensures { result ≡ goodbye_in bytes.now }
{
    match bytes {
        [GOODBYE, GOODBYE_VERSION, r0, r1] => Some(u16::from_le_bytes([*r0, *r1])),
        _ => None,
    }
}

// The later of two times.
fn later(a: u64, b: u64) -> u64
    ensures { result ≡ later a b }
{
    if a < b { b } else { a }
}

/// Whether the other end of a link is there. Times are in milliseconds, from any beginning that both of a caller's times have.
///
/// A clause sees `PresenceState`, and what it means by the list of what happened.
#[derive(Drop)]
pub struct Presence {
    limit: u64,
    last: u64,
    ended: Option<u16>,
    leaving: Option<u16>,
    said: u8,
}

impl Model for Presence {
    ghost use Rattle.std.specs.Prelude.{◌≤◌};
    ghost use Rattle.presence.specs.declared.other_end.TheConstants.{GOODBYES};
    ghost use Rattle.presence.specs.Presence.{PresenceState};

    ghost Value = { PresenceState };

    ghost view = { λ p. record { limit = p.limit; last = p.last; ended = p.ended; leaving = p.leaving; said = p.said } };

    ghost invariant = { λ p. p.said ≤ GOODBYES };
}

impl Presence {
    ghost use Rattle.presence.specs.declared.other_end.TheConstants.{GOODBYES};
    ghost use Rattle.presence.specs.Presence.{StandsFor, Does, Answers, Came, Ended, Left, Said, is_alive_by, ended_by, says_next};

    /// The other end was heard `now`, and is given up where nothing is heard for more than `limit` milliseconds.
    pub fn new(limit: u64, now: u64) -> Presence
        ensures limit { result.limit ≡ limit }
        ensures log { StandsFor now result [] }
    {
        Presence {
            limit,
            last: now,
            ended: None,
            leaving: None,
            said: 0,
        }
    }

    /// That of these numbers: `None` exactly if none has them.
    pub fn of_parts(parts: PresenceParts) -> Option<Presence>
        ensures some { IsSome result ↔ (parts.said ≤ GOODBYES) }
        ensures value { IfSome result (λ p. p ≡ presence_from parts) }
    {
        if parts.said > u32::from(GOODBYES) {
            return None;
        }
        Some(Presence {
            limit: parts.limit,
            last: parts.last,
            ended: reason_from(parts.ended),
            leaving: reason_from(parts.leaving),
            said: parts.said as u8,
        })
    }

    /// Its numbers.
    pub fn parts(&self) -> PresenceParts
        ensures { presence_from result ≡ self.now }
    {
        PresenceParts {
            limit: self.limit,
            last: self.last,
            ended: number_of(self.ended),
            leaving: number_of(self.leaving),
            said: u32::from(self.said),
        }
    }

    /// A datagram of the other end was taken.
    pub fn came(&mut self, now: u64)
        ensures limit { self.new.limit ≡ self.old.limit }
        ensures log { Does self.old (Came now) self.new }
    {
        self.last = later(self.last, now);
    }

    /// The other end said goodbye, with this reason. The first one holds.
    pub fn ended(&mut self, reason: u16)
        ensures limit { self.new.limit ≡ self.old.limit }
        ensures log { Does self.old (Ended reason) self.new }
    {
        if self.ended.is_none() {
            self.ended = Some(reason);
        }
    }

    /// This end leaves, with this reason. The first one holds.
    pub fn leave(&mut self, reason: u16)
        ensures limit { self.new.limit ≡ self.old.limit }
        ensures log { Does self.old (Left reason) self.new }
    {
        if self.leaving.is_none() {
            self.leaving = Some(reason);
        }
    }

    /// The reason of the goodbye that is to be sent next, while this end leaves and has said fewer than three.
    pub fn say(&mut self) -> Option<u16>
        ensures limit { self.new.limit ≡ self.old.limit }
        ensures answer { Answers self.old says_next result }
        ensures log { Does self.old (Said (is_some result)) self.new }
    {
        if self.said >= GOODBYES {
            return None;
        }
        if self.leaving.is_some() {
            self.said += 1;
        }
        self.leaving
    }

    /// Whether the other end is there: neither end said goodbye, and something was heard within the limit.
    pub fn is_alive(&self, now: u64) -> bool
        ensures { Answers self.now (is_alive_by self.now.limit now) result }
    {
        self.ended.is_none() && self.leaving.is_none() && is_within(self.last, self.limit, now)
    }

    /// The reason with which the other end said goodbye, if it did.
    pub fn reason(&self) -> Option<u16>
        ensures { Answers self.now ended_by result }
    {
        self.ended
    }
}

// Whether a time is at most `limit` after another one.
fn is_within(last: u64, limit: u64, now: u64) -> bool
    ensures { result ≡ is_within last limit now }
{
    now.saturating_sub(last) <= limit
}
