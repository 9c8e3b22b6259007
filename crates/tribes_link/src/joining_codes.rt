//! What the calls of joining, and of how a link goes, answer where they do nothing.

/// No door is behind the handle.
pub(crate) const NO_DOOR: i32 = -103;

/// A door is behind the handle already.
pub(crate) const HAS_DOOR: i32 = -104;

/// The last datagram that the door heard does not ask, or it was decided on.
pub(crate) const NOBODY_ASKS: i32 = -105;

/// The door has fewer seats.
pub(crate) const NO_SEAT: i32 = -106;

/// The seat is somebody's.
pub(crate) const SEAT_IS_TAKEN: i32 = -107;

/// No client that greets has these numbers.
pub(crate) const NO_KNOCK: i32 = -108;

/// A token has at most 256 bytes.
pub(crate) const TOKEN_TOO_LONG: i32 = -109;

/// No key has these numbers.
pub(crate) const NO_KEY: i32 = -110;

/// The datagram has fewer bytes than a tag.
pub(crate) const NO_TAG: i32 = -111;

/// Its tag is not that of its bytes, its number and the other end.
pub(crate) const WRONG_TAG: i32 = -112;

/// The place is too small for the bytes and their tag.
pub(crate) const NO_TAG_ROOM: i32 = -9;

/// Nobody has such a presence.
pub(crate) const NO_PRESENCE: i32 = -113;

/// No quality is behind the handle.
pub(crate) const NO_QUALITY: i32 = -114;

/// A quality is behind the handle already.
pub(crate) const HAS_QUALITY: i32 = -115;

/// As many packets wait for their verdicts as may.
pub(crate) const TOO_MANY_WAIT: i32 = -116;

/// No packet waits for its verdict.
pub(crate) const NOTHING_WAITS: i32 = -117;

/// A later time was told before.
pub(crate) const TIME_GOES_BACK_AT_LINK: i32 = -100;

/// A time of a later second was told before.
pub(crate) const SECOND_IS_PAST: i32 = -118;

/// No rate has these numbers.
pub(crate) const NO_RATE: i32 = -119;

/// The least rate is 0, or above the most.
pub(crate) const BAD_BOUNDS: i32 = -120;
