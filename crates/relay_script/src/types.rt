//! A relay script: a match, and between its lines those of a relay.
ghost use Rattle.std.specs.Prelude.{◌≡◌, length};

use match_script::Script;
use std::marker::Model;

/// Spectators of a relay at the most.
pub const MAX_SPECTATORS: u8 = 16;

/// What a line asks of the relay, for one spectator. Each spectator is below the number of them in the first line.
#[derive(Clone, Copy, Debug, PartialEq, Eq)]
pub enum RelayLine {
    /// `r scan S`: the relay shows a spectator the copies that it isn't shown.
    Scan { spectator: u8 },
    /// `r pack S`: the relay makes a datagram for a spectator.
    Pack { spectator: u8 },
    /// `r cpack S`: a spectator makes a datagram.
    ClientPack { spectator: u8 },
    /// `r down S K`: a spectator gets the K-th datagram that the relay sent it, counted from 0.
    Down { spectator: u8, packet: u32 },
    /// `r up S K`: the relay gets the K-th datagram of a spectator, counted from 0.
    Up { spectator: u8, packet: u32 },
    /// `r show S`: what a spectator has is told.
    Show { spectator: u8 },
}

/// A relay line, and how many lines of the match's body stand before it.
#[derive(Clone, Copy, Debug, PartialEq, Eq)]
pub struct PlacedLine {
    pub behind: u32,
    pub line: RelayLine,
}

/// The relay's lines, in order; contracts see them as a list.
#[derive(Drop)]
pub struct RelayLines {
    lines: Vec<PlacedLine>,
}

impl Model for RelayLines {
    ghost use Rattle.std.specs.Prelude.{List};
    ghost use Rattle.relay_script.specs.declared.types.PlacedLine.{PlacedLine};

    ghost Value = { List PlacedLine };

    ghost view = { λ l. l.lines.items };
}

impl RelayLines {
    /// These lines.
    pub fn from_vec(lines: Vec<PlacedLine>) -> RelayLines
        ensures { result ≡ lines.items }
    {
        RelayLines { lines }
    }

    /// The lines, lent.
    pub fn as_slice(&self) -> &[PlacedLine]
        ensures { result.now ≡ self.now }
    {
        self.lines.as_slice()
    }

    /// How many lines these are.
    pub fn len(&self) -> usize
        ensures { result ≡ length self.now }
    {
        self.lines.len()
    }
}

/// A relay script: which client of the match is the relay, how many spectators it has, the match, and the relay's lines.
#[derive(Drop)]
pub struct RelayScript {
    /// The client that is the relay: one of the match.
    pub client: u8,
    /// How many spectators there are: 1 to 16.
    pub spectators: u8,
    /// The match: what is left of the text without its first line and the relay's.
    pub script: Script,
    /// The relay's lines, each with its place among those of the match.
    pub lines: RelayLines,
}
