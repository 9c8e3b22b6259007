//! What the texts of races keep.
ghost use Rattle.threads_top.specs.Telling.{RaceLaws};

use race_laws::settled_shows_newest;

/// What a text of a race shows as settled.
pub fn laws_of_races()
    ensures { RaceLaws }
{
    settled_shows_newest();
}
