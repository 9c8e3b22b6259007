//! What becomes of unguaranteed events.

ghost use Rattle.pair_laws.specs.Laws.{Always};
ghost use Rattle.pair_laws.specs.LooseEvents.{LooseDown, LooseUp};

/// The unguaranteed events that an end delivered are some of those that the other end posted, in the order of posting and
/// each once at most, both ways, whatever the network did.
pub fn loose_events_in_order()
    ensures down { Always LooseDown }
    ensures up { Always LooseUp }
{}
