//! A match that is served: its lines come one by one from outside, and each datagram is handed on.
ghost use Rattle.std.specs.Prelude.{◌≡◌, ◌<◌, List, [], IfOk, OnOk, nat_le};
ghost use Rattle.std.specs.Option.{option_copied};
ghost use Rattle.match_script.specs.Ranges.{HeadFits, LineFits};

use crate::game::{Game, Keeps};
use crate::played::let_go;
use match_report::Told;
use match_script::{BodyLine, MAX_COUNTED_LINES, Script};
use std::alloc::Global;
use std::marker::Model;
use tn_types::NoMemory;

/// A match that is served to up to 16 clients which are somewhere else. What it told of a pack is its datagram, until the next line is
/// done: nothing of it is kept, so a served match takes no more memory as it goes on. After an error it has ended: no other line
/// may be done.
///
/// A clause sees `ServedState`, and what it means by the lines that were done.
pub struct Served<'a> {
    script: &'a Script,
    game: Game<'a>,
    // what the last line tells
    told: Option<Told>,
}

// Written out, so that a function that lets a match go calls this, and doesn't prove again how its parts are let go.
impl Drop for Served<'_> {
    fn drop(self) {
        let Served {
            script: _script,
            game: _game,
            told: _told,
        } = self;
    }
}

impl<'a> Model for Served<'a> {
    ghost use Rattle.match_engine.specs.Served.{ServedState};

    ghost Value = { ServedState };

    ghost view = { λ m. record {
      script = m.script.now;
      game = m.game;
      told = m.told;
    } };
}

impl<'a> Served<'a> {
    ghost use Rattle.match_script.specs.declared.types.BodyLine.{BodyLine as OneLine};
    ghost use Rattle.match_engine.specs.Stands.{IsDown};
    ghost use Rattle.match_engine.specs.Match.{last_told};
    ghost use Rattle.match_engine.specs.Served.{StandsFor, Does};

    /// A match of this script's header, of which no line was done. The script's own lines are not done.
    pub fn new(alloc: Global, script: &'a Script) -> Result<Served<'a>, NoMemory>
        requires { HeadFits script.now.head }
        ensures stands { IfOk result (λ m. StandsFor m []) }
        ensures script { IfOk result (λ m. m.script ≡ script.now) }
    {
        let game = Game::new(alloc, &script.head, Keeps::Newest)?;
        Ok(Served {
            script,
            game,
            told: None,
        })
    }

    /// No further line may be done: as many were done of those that are counted (a tick, a scan, a pack of either end) as may be.
    pub fn is_full(&self) -> bool
        ensures { result ≡ nat_le MAX_COUNTED_LINES self.now.game.done }
    {
        self.game.is_full()
    }

    /// Does this line, which is no `down`: what a server sent is handed on, and comes to no client here.
    pub fn feed(&mut self, alloc: Global, line: &BodyLine) -> Result<(), NoMemory>
        requires stands { (past : List OneLine) × StandsFor self.old past }
        requires fits { LineFits self.old.script.head.clients line.now }
        requires few { self.old.game.done < MAX_COUNTED_LINES }
        requires no_down { IsDown line.now → ⊥ }
        ensures stands { OnOk result (Does self.old line.now self.new) }
        ensures script { self.new.script ≡ self.old.script }
    {
        let_go(&mut self.told, &mut self.game);
        self.told = Some(self.game.feed(alloc, line)?);
        Ok(())
    }

    /// What the last line tells. None exactly before the first one.
    pub fn told(&self) -> Option<&Told>
        ensures value { option_copied result ≡ self.now.told }
        ensures last { (past : List OneLine) → StandsFor self.now past → option_copied result ≡ last_told self.now.script.head past }
    {
        self.told.as_ref()
    }
}
