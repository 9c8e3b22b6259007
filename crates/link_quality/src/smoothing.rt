//! The round trip, smoothed.
ghost use Rattle.std.specs.Prelude.{◌≡◌, ◌≤◌, ◌<◌, ◌+◌, ◌*◌, Option, Some, IfSome};
ghost use Rattle.link_quality.specs.Smoothing.{gap, first_trip, next_trip, after_trip, IsSmall};

/// The longest round trip that is counted, in milliseconds: a longer one counts as this.
pub const MAX_ROUND_TRIP: u64 = 65_535;

/// A smoothed round trip.
#[derive(Clone, Copy, Debug, PartialEq, Eq)]
pub struct RoundTrip {
    /// Its length, in eighths of a millisecond.
    pub eighths: u64,
    /// How far single ones differ from it, in quarters of a millisecond.
    pub quarters: u64,
}

// How far two numbers lie apart.
fn gap(one: u64, other: u64) -> u64
    ensures { result ≡ gap one other }
{
    if one < other {
        other - one
    } else {
        one - other
    }
}

// The first one that is known.
fn first_trip(trip: u64) -> RoundTrip
    requires trip { trip ≤ MAX_ROUND_TRIP }
    ensures value { result ≡ first_trip trip }
    ensures small { IsSmall result }
{
    RoundTrip {
        eighths: trip * 8,
        quarters: trip * 2,
    }
}

// The smoothed one after one more.
fn next_trip(smoothed: RoundTrip, trip: u64) -> RoundTrip
    requires trip { trip ≤ MAX_ROUND_TRIP }
    requires small { IsSmall smoothed }
    ensures value { result ≡ next_trip smoothed trip }
    ensures small { IsSmall result }
{
    let off = gap(smoothed.eighths / 8, trip);
    RoundTrip {
        eighths: smoothed.eighths - smoothed.eighths / 8 + trip,
        quarters: smoothed.quarters - smoothed.quarters / 4 + off,
    }
}

/// The smoothed round trip after one more: its length goes an eighth of the way there, what it differs by a quarter.
pub(crate) fn after_trip(smoothed: Option<RoundTrip>, trip: u64) -> RoundTrip
    requires trip { trip ≤ MAX_ROUND_TRIP }
    requires small { IfSome smoothed IsSmall }
    ensures value { result ≡ after_trip smoothed trip }
    ensures small { IsSmall result }
{
    match smoothed {
        None => first_trip(trip),
        Some(smoothed) => next_trip(smoothed, trip),
    }
}
