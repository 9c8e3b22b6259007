//! The law.
ghost use Rattle.race_laws.specs.Settled.{SettledShowsNewest};

use pair_copies::copies_show_reads;

/// In the text of a legal race a field that is marked settled, of a client to which no raw bytes came, shows the newest value that the
/// text tells of the object (docs/threads.md, "What may be relied on").
pub fn settled_shows_newest()
    ensures { SettledShowsNewest }
{
    copies_show_reads();
}
