//! What is counted of a report, and what one line adds.

/// The counts of a report (docs/maker.md, "The summary of a large match").
#[derive(Clone, Copy, Debug, PartialEq, Eq)]
pub struct Counts {
    /// `pack` lines that print `data`.
    pub data_packets: u64,
    /// `pack` lines that print `ping`.
    pub pings: u64,
    /// `down` lines that print `ok`.
    pub down: u64,
    /// `down` and `up` lines that print `old`.
    pub old_packets: u64,
    /// Words of guaranteed events on `down` lines.
    pub events: u64,
    /// The newly accepted moves that `up` lines print.
    pub moves: u64,
    /// Bytes of the datagrams that `pack` lines print.
    pub bytes: u64,
}

impl Counts {
    ghost use Rattle.std.specs.Prelude.{◌≡◌, []};
    ghost use Rattle.match_count.specs.Counting.{counts_of};

    /// The counts of no line.
    #[tactic(auto, unfolding(crate::specs::Counting::counts_of))]
    pub(crate) fn none() -> Counts
        ensures { result ≡ counts_of [] }
    {
        Counts {
            data_packets: 0,
            pings: 0,
            down: 0,
            old_packets: 0,
            events: 0,
            moves: 0,
            bytes: 0,
        }
    }
}
