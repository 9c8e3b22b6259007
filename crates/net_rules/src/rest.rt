//! How long a link may rest.
ghost use Rattle.std.specs.Prelude.{◌≡◌, ◌+◌, ◌^◌, ◌-◌, min};
ghost use Rattle.net_rules.specs.Rests.{rest_for};

use crate::limits::{LARGE_BATCH, TURN_MILLISECONDS};

/// How long a link may rest before it says that nothing came: what docs/serving.md says of a turn's listening.
#[derive(Clone, Copy)]
pub struct Rest {
    /// The next call may rest for so many milliseconds.
    pub milliseconds: u64,
    /// So many datagrams came since a call found nothing.
    pub came: u32,
}

impl Rest {
    /// Of a turn that begins: what stands ready is taken first.
    pub fn new() -> Rest
        ensures rest { result.milliseconds ≡ 0 }
        ensures counted { result.came ≡ 0 }
    {
        Rest {
            milliseconds: 0,
            came: 0,
        }
    }

    /// A datagram came: what stands ready behind it is taken first.
    pub fn datagram(&mut self)
        ensures rest { self.new.milliseconds ≡ 0 }
        ensures counted { self.new.came ≡ min (self.old.came + 1) (2 ^ 32 - 1) }
    {
        self.milliseconds = 0;
        self.came = self.came.saturating_add(1);
    }

    /// Nothing came, and the turn is due in so many milliseconds.
    pub fn silence(&mut self, left: u64)
        ensures rest { self.new.milliseconds ≡ rest_for self.old.came left }
        ensures counted { self.new.came ≡ 0 }
    {
        let most = if self.came >= LARGE_BATCH {
            1
        } else {
            TURN_MILLISECONDS
        };
        self.milliseconds = left.min(most);
        self.came = 0;
    }
}
