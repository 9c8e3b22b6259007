//! The own list of one client, item by item, as a match makes it.
ghost use Rattle.std.specs.Prelude.{◌≡◌, ◌<◌, ◌+◌, ◌∷◌, List, IfOk, OnOk, Ok, Some, None, true, false, if◌then◌else◌, length, slice_get};
ghost use Rattle.match_script.specs.declared.types.BodyLine.{BodyLine as OneLine};
ghost use Rattle.match_script.specs.Named.{client_named};
ghost use Rattle.match_script.specs.Ranges.{HasRanges};
ghost use Rattle.own_lists.specs.Own.{is_named};
ghost use Rattle.own_lists.specs.Past.{after, taken_from};
ghost use Rattle.match_engine.specs.Match.{StandsFor as MatchStandsFor};
ghost use Rattle.own_items.specs.Items.{item_of};
ghost use Rattle.own_items.specs.Source.{Stands, StandsFor, Added, made, whole_own};

use crate::items::OwnItem;
use crate::making::{scan_item, tick_item};
use match_engine::Match;
use match_script::{BodyLine, Script};
use std::alloc::Global;
use std::marker::Model;
use tn_types::NoMemory;

/// The own list of one client, which a match by a script makes item by item (docs/proofs/match.md, "Own lists"). After an error it has
/// ended: no other item may be asked for.
///
/// A clause sees `SourceState`, and what it means by the lines that were done.
pub struct OwnSource<'a> {
    script: &'a Script,
    client: u8,
    game: Match<'a>,
    // so many lines of the script were done
    place: usize,
}

// Written out, so that a function that lets a source go calls this, and doesn't prove again how a match is let go.
impl Drop for OwnSource<'_> {
    fn drop(self) {
        let OwnSource {
            script: _script,
            client: _client,
            game: _game,
            place: _place,
        } = self;
    }
}

impl<'a> Model for OwnSource<'a> {
    ghost use Rattle.own_items.specs.Source.{SourceState};

    ghost Value = { SourceState };

    ghost view = { λ s. record {
      script = s.script.now;
      client = s.client;
      game = s.game;
      place = s.place;
    } };
}

// The same line again, where it names this client.
fn named_again(alloc: Global, line: &BodyLine, client: u8) -> Result<Option<BodyLine>, NoMemory>
    ensures { IfOk result (λ l. l ≡ (if is_named client (client_named line.now) then Some line.now else None)) }
{
    if line.client() != Some(client) {
        return Ok(None);
    }
    Ok(Some(line.copy(alloc)?))
}

/// What the last line adds to the client's own list. As a tick it took so many moves from the client.
fn item_of_line(
    alloc: Global,
    game: &Match,
    line: &BodyLine,
    client: u8,
    taken: u32,
) -> Result<Option<OwnItem>, NoMemory>
    requires client { client < game.now.script.head.clients }
    requires stands { (past : List OneLine) × MatchStandsFor game.now (line.now ∷ past)
        × (taken ≡ taken_from game.now.script.head (after game.now.script.head past) client) }
    ensures { IfOk result (λ item. (past : List OneLine) → MatchStandsFor game.now (line.now ∷ past)
        → taken ≡ taken_from game.now.script.head (after game.now.script.head past) client
        → Added game.now.script.head past line.now client item) }
{
    match line {
        BodyLine::Tick => Ok(Some(tick_item(alloc, game.world(), game.scope(client), taken)?)),
        BodyLine::Scan { client: named } => {
            if *named != client {
                return Ok(None);
            }
            Ok(Some(scan_item(alloc, game.world(), game.scope(client), client)?))
        }
        _ => match named_again(alloc, line, client)? {
            Some(line) => Ok(Some(OwnItem::Line { line })),
            None => Ok(None),
        },
    }
}

impl<'a> OwnSource<'a> {
    /// The own list of a client by this script, of which no item was made.
    pub fn new(alloc: Global, script: &'a Script, client: u8) -> Result<OwnSource<'a>, NoMemory>
        requires ranges { HasRanges script.now }
        requires client { client < script.now.head.clients }
        ensures stands { IfOk result Stands }
        ensures script { IfOk result (λ s. s.script ≡ script.now) }
        ensures client { IfOk result (λ s. s.client ≡ client) }
        ensures place { IfOk result (λ s. s.place ≡ 0) }
    {
        let game = Match::new(alloc, script)?;
        Ok(OwnSource {
            script,
            client,
            game,
            place: 0,
        })
    }

    // How many moves the next tick takes from the client.
    fn taken(&self) -> u32
        requires { Stands self.now }
        ensures { (past : List OneLine) → StandsFor self.now past
            → result ≡ taken_from self.now.script.head (after self.now.script.head past) self.now.client }
    {
        if self.game.waiting(self.client) == 0 {
            0
        } else {
            1
        }
    }

    // Does the next line of the script; whether it made an item.
    fn step(&mut self, alloc: Global, line: &BodyLine, item: &mut OwnItem) -> Result<bool, NoMemory>
        requires stands { Stands self.old }
        requires next { slice_get self.old.script.body self.old.place ≡ Some line.now }
        ensures stands { OnOk result (Stands self.new) }
        ensures item { result ≡ Ok true → made self.new ≡ item_of item.new ∷ made self.old }
        ensures no_item { result ≡ Ok false → made self.new ≡ made self.old }
        ensures unchanged { result ≡ Ok false → item.new ≡ item.old }
        ensures place { OnOk result (self.new.place ≡ self.old.place + 1) }
        ensures script { self.new.script ≡ self.old.script }
        ensures client { self.new.client ≡ self.old.client }
    {
        let taken = self.taken();
        self.game.feed(alloc, line)?;
        self.place += 1;
        match item_of_line(alloc, &self.game, line, self.client, taken)? {
            Some(next) => {
                *item = next;
                Ok(true)
            }
            None => Ok(false),
        }
    }

    /// Makes the next item of the client's own list: lines of the script are done until one adds an item. False exactly at the
    /// list's end, where the item stays as it was.
    pub fn next(&mut self, alloc: Global, item: &mut OwnItem) -> Result<bool, NoMemory>
        requires { Stands self.old }
        ensures stands { OnOk result (Stands self.new) }
        ensures item { result ≡ Ok true → made self.new ≡ item_of item.new ∷ made self.old }
        ensures end { result ≡ Ok false → made self.old ≡ whole_own self.old.script self.old.client }
        ensures unchanged { result ≡ Ok false → item.new ≡ item.old }
        ensures place { result ≡ Ok true → self.old.place < self.new.place }
        ensures script { self.new.script ≡ self.old.script }
        ensures client { self.new.client ≡ self.old.client }
    {
        let script = self.script;
        let body = script.body.as_slice();
        'lines: while self.place < body.len() {
            if self.step(alloc, &body[self.place], item)? {
                return Ok(true);
            }
        }
        Ok(false)
    }
}
