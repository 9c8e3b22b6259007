//! The law of a relay script's lines.
ghost use Rattle.relay_node.specs.Order.{StandAsInTheText};

/// The lines of the match and those of the relay, which a relay script has apart, are gone over as they stand in the text.
pub fn lines_stand_as_in_the_text()
    ensures { StandAsInTheText }
{}
