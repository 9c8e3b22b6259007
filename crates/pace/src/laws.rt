//! What holds of every pace.
ghost use Rattle.pace.specs.Laws.{RateStaysBetween, NoMoreThanTheMost};

/// The rate lies between the least and the most, whatever was told.
pub fn rate_stays_between()
    ensures { RateStaysBetween }
{}

/// Who sends no datagram above what is allowed sends no more bytes than the most rate gives in that time, and what was saved up at the beginning.
pub fn no_more_than_the_most()
    ensures { NoMoreThanTheMost }
{}
