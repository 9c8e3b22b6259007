//! The laws.
ghost use Rattle.std.specs.Prelude.{ℕ, List};
ghost use Rattle.demo_view.specs.stream_manager.Limits.{Terms};
ghost use Rattle.pair_core.specs.History.{PairStep};
ghost use Rattle.demo_taken.specs.Taken.{TakesTheSame, ShowsTheSame, RecordsWhatCame};

/// A viewer that is given the datagrams that a client took has taken the same packets, whatever else came to either end.
pub fn taken_are_viewed()
    ensures { (t : Terms) (steps : List PairStep) → TakesTheSame t steps }
{}

/// So it shows what the client shows.
pub fn replay_shows_what_the_client_shows()
    ensures { (t : Terms) (steps : List PairStep) → ShowsTheSame t steps }
{}

/// A delivery records its datagram exactly where it is answered `Came`.
pub fn taken_come_with_the_answer()
    ensures { (t : Terms) (steps : List PairStep) (k : ℕ) → RecordsWhatCame t steps k }
{}
