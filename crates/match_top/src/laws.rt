//! What the commands keep.
ghost use Rattle.match_top.specs.Rows.{CommandLaws};

use match_count::match_laws::laws_of_matches;
use report_laws::laws_of_reports;

/// What every report keeps, and what `alone` writes of it.
pub fn laws_of_commands()
    ensures { CommandLaws }
{
    laws_of_matches();
    laws_of_reports();
}
