//! The count of a script's report.
ghost use Rattle.std.specs.Prelude.{◌≡◌, ◌≤◌, ◌+◌, Ok, true, false, IfOk, length};
ghost use Rattle.match_script.specs.Ranges.{HasRanges};
ghost use Rattle.match_engine.specs.Match.{IsPlayed};
ghost use Rattle.match_count.specs.Counting.{tellings, counts_of, TellingsAreReport};
ghost use Rattle.match_count.specs.Bounds.{AreCounts};

use crate::adding::add;
use crate::counts::Counts;
use match_engine::Match;
use match_script::Script;
use std::alloc::Global;
use tn_types::NoMemory;

// What a script's lines tell, written as lines, is its report.
fn tellings_are_report()
    ensures { TellingsAreReport }
{}

// Does the next line of a script, and adds what it tells to the counts; false at the script's end.
fn count_next(alloc: Global, game: &mut Match<'_>, counts: &mut Counts) -> Result<bool, NoMemory>
    requires played { IsPlayed game.old }
    requires ranges { HasRanges game.old.script }
    requires counted { AreCounts game.old.script game.old.place counts.old }
    ensures end { result ≡ Ok false → (length game.old.script.body ≤ game.old.place)
        × (game.new ≡ game.old) × (counts.new ≡ counts.old) }
    ensures played { result ≡ Ok true → IsPlayed game.new }
    ensures script { game.new.script ≡ game.old.script }
    ensures place { result ≡ Ok true → game.new.place ≡ game.old.place + 1 }
    ensures more { result ≡ Ok true → game.old.place + 1 ≤ length game.old.script.body }
    ensures counted { result ≡ Ok true → AreCounts game.old.script (game.old.place + 1) counts.new }
{
    if !game.next(alloc)? {
        return Ok(false);
    }
    let Some(told) = game.told() else {
        unreachable!()
    };
    add(counts, told);
    Ok(true)
}

/// Runs a script and counts its report line by line. No report is kept (docs/maker.md, "The summary of a large match").
pub fn count(alloc: Global, script: &Script) -> Result<Counts, NoMemory>
    requires { HasRanges script.now }
    ensures counts { IfOk result (λ n. n ≡ counts_of (tellings script.now)) }
    // Written as lines, what is counted is the report.
    ensures report { TellingsAreReport }
{
    tellings_are_report();
    let mut game = Match::new(alloc, script)?;
    let mut counts = Counts::none();
    'lines: while count_next(alloc, &mut game, &mut counts)? {}
    Ok(counts)
}
