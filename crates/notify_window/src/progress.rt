//! How far something is on its way that is sent until a packet that carries it is received.

ghost use Rattle.std.specs.Prelude.{◌≡◌};

use tn_types::Verdict;

/// Where an event or a block is that is sent until it is received.
#[derive(Clone, Copy, Debug, PartialEq, Eq)]
pub enum Progress {
    /// No packet carries it, or all that do are lost.
    Due,
    /// This packet carries it and is unjudged, and every earlier one is lost.
    Carried(u32),
    /// A packet that carries it was received.
    Done,
}

impl Progress {
    ghost use Rattle.notify_window.specs.Carriers.{progress_is_due, progress_is_done, progress_after};

    /// Whether the next packet may carry it.
    pub fn is_due(self) -> bool
        ensures { result ≡ progress_is_due self }
    {
        matches!(self, Progress::Due)
    }

    /// Whether it was received.
    pub fn is_done(self) -> bool
        ensures { result ≡ progress_is_done self }
    {
        matches!(self, Progress::Done)
    }

    /// Where it is after the verdict of packet `seq`.
    pub fn after_verdict(self, seq: u32, verdict: Verdict) -> Progress
        ensures { result ≡ progress_after seq verdict self }
    {
        match self {
            Progress::Carried(carrier) if carrier == seq => match verdict {
                Verdict::Received => Progress::Done,
                Verdict::Lost => Progress::Due,
            },
            other => other,
        }
    }
}
