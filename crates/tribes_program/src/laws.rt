//! What the program keeps.
ghost use Rattle.tribes_program.specs.Answers.{ProgramLaws};

use demo_top::laws_of_demos;
use match_top::laws_of_commands;
use net_top::laws_of_links;
use predict_top::laws_of_predictions;
use relay_top::laws_of_relays;
use threads_top::laws_of_races;

/// What every report keeps, every prediction, every race, every demo, every relay, and every match over a link.
pub fn laws_of_the_program()
    ensures { ProgramLaws }
{
    laws_of_commands();
    laws_of_predictions();
    laws_of_races();
    laws_of_demos();
    laws_of_relays();
    laws_of_links();
}
