//! What an end counts.
ghost use Rattle.std.specs.Prelude.{◌≡◌};
ghost use Rattle.tribes_ends.specs.Sides.{or_zero};

/// What an end counted, and the places that it has free.
#[repr(C)]
#[derive(Clone, Copy, Debug, PartialEq, Eq)]
pub struct Counts {
    /// The number of the last data packet that was sent, 0 where none was.
    pub sent: u32,
    /// The least number of a data packet that has no verdict.
    pub unjudged: u32,
    /// The number of the last data packet that came and was taken, 0 where none was.
    pub taken: u32,
    /// Guaranteed events that came in, those that wait to be handed out included.
    pub delivered: u32,
    /// Events that wait to be handed out.
    pub waiting: u32,
    /// Moves: accepted at the server, sampled at the client.
    pub moves: u32,
    /// Moves that the server accepted, at the client as far as it was told.
    pub accepted: u32,
    /// Guaranteed events that may be posted before one is refused as too many.
    pub event_places: u32,
    /// Unguaranteed events that may be posted before one is dropped.
    pub loose_places: u32,
    /// Moves that may be sampled before one is refused as too many; none at the server.
    pub move_places: u32,
}

/// The number of a data packet, or 0.
pub(crate) fn or_zero(number: Option<u32>) -> u32
    ensures { result ≡ or_zero number }
{
    match number {
        Some(number) => number,
        None => 0,
    }
}
