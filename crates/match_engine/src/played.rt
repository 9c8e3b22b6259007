//! The match of a script, line by line.
ghost use Rattle.std.specs.Prelude.{◌≡◌, ◌<◌, ◌≤◌, ◌+◌, ◌↔◌, List, [], IfOk, OnOk, Ok, Some, None, true, false, length, nat_le, slice_get, slice_index_or};
ghost use Rattle.std.specs.Option.{option_copied};
ghost use Rattle.match_script.specs.Ranges.{HeadFits, HasRanges, LineFits};
ghost use Rattle.client_scope.specs.StandsFor.{Table};
ghost use Rattle.match_laws.specs.client_seat.Stands.{SeatState};

use crate::game::{Game, Keeps};
use client_scope::Scope;
use match_laws::pair_core::Pair;
use match_report::Told;
use match_script::{BodyLine, MAX_COUNTED_LINES, Script};
use std::alloc::Global;
use std::marker::Model;
use tn_types::NoMemory;
use world_sim::World;

/// A match of up to 16 clients, each with a connection of its own, by a script. After an error it has ended: no other line
/// may be done.
///
/// A clause sees `MatchState`, and what it means by the lines that were done.
pub struct Match<'a> {
    script: &'a Script,
    game: Game<'a>,
    // so many lines of the script were done by `next`
    place: usize,
    // what the last line tells
    told: Option<Told>,
}

// Written out, so that a function that lets a match go calls this, and doesn't prove again how its parts are let go.
impl Drop for Match<'_> {
    fn drop(self) {
        let Match {
            script: _script,
            game: _game,
            place: _place,
            told: _told,
        } = self;
    }
}

/// Where the last line told of a datagram, it is told no more, and its bytes go back to its connection.
pub(crate) fn let_go(told: &mut Option<Told>, game: &mut Game)
    ensures { game.new ≡ game.old }
{
    if !is_datagram(told) {
        return;
    }
    if let Some(
        Told::Packed {
            by: _,
            client,
            place: _,
            kind: _,
            bytes,
        },
    ) = told.take()
    {
        game.give_back(client, bytes);
    }
}

// Whether a datagram was told of: where not, nothing is to be given back, and nothing is moved.
fn is_datagram(told: &Option<Told>) -> bool {
    matches!(told, Some(Told::Packed { .. }))
}

impl<'a> Model for Match<'a> {
    ghost use Rattle.match_engine.specs.Match.{MatchState};

    ghost Value = { MatchState };

    ghost view = { λ m. record {
      script = m.script.now;
      game = m.game;
      place = m.place;
      told = m.told;
    } };
}

impl<'a> Match<'a> {
    ghost use Rattle.match_script.specs.declared.types.BodyLine.{BodyLine as OneLine};
    ghost use Rattle.match_engine.specs.Match.{StandsFor, IsPlayed, Does, last_told};

    /// A match of this script, of which no line was done. It keeps each datagram, for lines `down`.
    pub fn new(alloc: Global, script: &'a Script) -> Result<Match<'a>, NoMemory>
        requires { HeadFits script.now.head }
        ensures stands { IfOk result (λ m. StandsFor m []) }
        ensures script { IfOk result (λ m. m.script ≡ script.now) }
        ensures place { IfOk result (λ m. m.place ≡ 0) }
    {
        let game = Game::new(alloc, &script.head, Keeps::All)?;
        Ok(Match {
            script,
            game,
            place: 0,
            told: None,
        })
    }

    /// No further line may be done: as many were done of those that are counted (a tick, a scan, a pack of either end) as may be.
    pub fn is_full(&self) -> bool
        ensures { result ≡ nat_le MAX_COUNTED_LINES self.now.game.done }
    {
        self.game.is_full()
    }

    /// Does the next line of the script. The answer is false exactly at its end, where nothing changes.
    pub fn next(&mut self, alloc: Global) -> Result<bool, NoMemory>
        requires stands { (past : List OneLine) × StandsFor self.old past }
        requires ranges { HasRanges self.old.script }
        requires few { self.old.game.done < MAX_COUNTED_LINES }
        ensures end { (result ≡ Ok false) ↔ (length self.old.script.body ≤ self.old.place) }
        ensures unchanged { result ≡ Ok false → self.new ≡ self.old }
        // It is `feed` of the script's line at this place.
        ensures stands { result ≡ Ok true → (line : OneLine) → slice_get self.old.script.body self.old.place ≡ Some line
            → Does self.old line self.new }
        ensures place { result ≡ Ok true → self.new.place ≡ self.old.place + 1 }
        ensures script { self.new.script ≡ self.old.script }
        // Where only the script's lines were done, it is so again.
        ensures played { OnOk result (IsPlayed self.old → IsPlayed self.new) }
    {
        let script = self.script;
        let Some(line) = script.body.as_slice().get(self.place) else {
            return Ok(false);
        };
        self.feed(alloc, line)?;
        self.place += 1;
        Ok(true)
    }

    /// Does this line, as if it stood next in the script, which goes on after it.
    pub fn feed(&mut self, alloc: Global, line: &BodyLine) -> Result<(), NoMemory>
        requires stands { (past : List OneLine) × StandsFor self.old past }
        requires fits { LineFits self.old.script.head.clients line.now }
        requires few { self.old.game.done < MAX_COUNTED_LINES }
        ensures stands { OnOk result (Does self.old line.now self.new) }
        ensures place { self.new.place ≡ self.old.place }
        ensures script { self.new.script ≡ self.old.script }
    {
        let_go(&mut self.told, &mut self.game);
        self.told = Some(self.game.feed(alloc, line)?);
        Ok(())
    }

    /// What the last line tells: its line of the report. None exactly before the first one.
    pub fn told(&self) -> Option<&Told>
        ensures value { option_copied result ≡ self.now.told }
        ensures last { (past : List OneLine) → StandsFor self.now past → option_copied result ≡ last_told self.now.script.head past }
    {
        self.told.as_ref()
    }

    /// The connection of a client, after what its own list leaves of its course.
    pub fn pair(&self, client: u8) -> &Pair
        requires { client < length self.now.game.seats }
        ensures { (d : SeatState) → result.now ≡ (slice_index_or self.now.game.seats client d).pair }
    {
        self.game.pair(client)
    }

    /// How many accepted moves of a client wait for a tick, at most 32.
    pub fn waiting(&self, client: u8) -> u32
        requires { client < length self.now.game.seats }
        ensures { (d : SeatState) → result ≡ length (slice_index_or self.now.game.seats client d).waiting }
    {
        self.game.waiting(client)
    }

    /// The scope of a client, after its scans: its shown periods, and what the last scan changed.
    pub fn scope(&self, client: u8) -> &Scope
        requires { client < length self.now.game.scopes }
        ensures { (e : Table) → result.now ≡ slice_index_or self.now.game.scopes client e }
    {
        self.game.scope(client)
    }

    /// The world as it is.
    pub fn world(&self) -> &World
        ensures { result.now ≡ self.now.game.world }
    {
        self.game.world()
    }
}
