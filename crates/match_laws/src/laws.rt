//! What the report of a script and the journals of its clients promise.

ghost use Rattle.match_laws.specs.Laws.{Isolation, EventsInOrder, MovesInOrder, LooseInOrder, LittleIsRefused};
ghost use Rattle.match_laws.specs.Others.{NonInterference};

/// The `pack c` lines of a report are those of a server that is fed with client c's own list alone: a function of that list,
/// and of `client`, `life`, `size`, the blocks and the kinds (docs/proofs/match.md, "Isolation").
pub fn isolation()
    ensures { Isolation }
{}

/// A line that names another client, whatever it is, leaves a client's own list, what its scans saw and the world as they were, and each
/// line in an own list names its client (docs/proofs/match.md, "Isolation").
pub fn non_interference()
    ensures { NonInterference }
{}

/// In each honest client's journal, at every line, the guaranteed events that an end delivered are the first that the other
/// end posted (docs/proofs/connection.md, "Delivered prefixes").
pub fn events_in_order()
    ensures { EventsInOrder }
{}

/// In each honest client's journal, at every line, the moves that the server accepted are the first that the client sampled,
/// in order (docs/proofs/connection.md, "Accepted prefixes").
pub fn moves_in_order()
    ensures { MovesInOrder }
{}

/// In each honest client's journal, at every line, the unguaranteed events that an end delivered are some of those that the
/// other end posted, in their order and each once at most (docs/proofs/connection.md, "Unguaranteed events in order").
pub fn loose_events_in_order()
    ensures { LooseInOrder }
{}

/// Whatever line of an honest client comes next, it tells no refusal of a datagram, but of an old one (docs/proofs/connection.md,
/// "Little is refused").
pub fn little_is_refused()
    ensures { LittleIsRefused }
{}
