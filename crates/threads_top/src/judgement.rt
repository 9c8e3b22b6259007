//! What the judgement of a race says.
ghost use Rattle.std.specs.Prelude.{◌≡◌, true, false};

use std::marker::Model;

/// Whether the race that threads made was refused, since it is not legal, and a plain race told in its place. The run alone refuses.
#[derive(Drop)]
pub struct Judgement {
    refused: bool,
}

impl Model for Judgement {
    ghost use Rattle.std.specs.Prelude.{Bool};

    ghost Value = { Bool };

    ghost view = { λ j. j.refused };
}

impl Judgement {
    /// No race was refused.
    pub fn new() -> Judgement
        ensures { result ≡ false }
    {
        Judgement { refused: false }
    }

    /// Whether one was.
    pub fn is_refused(&self) -> bool
        ensures { result ≡ self.now }
    {
        self.refused
    }

    /// One was.
    pub(crate) fn refuse(&mut self)
        ensures { self.new ≡ true }
    {
        self.refused = true;
    }
}
