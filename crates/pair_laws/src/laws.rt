//! What is promised of one connection, over all that it did.

ghost use Rattle.pair_laws.specs.Laws.{Always, DeliversDown, DeliversUp, AcceptsInOrder};
ghost use Rattle.pair_laws.specs.Acknowledged.{DeliveredDown, DeliveredUp};

/// The guaranteed events that an end delivered are the first ones that the other end posted, both ways, whatever the
/// network did.
pub fn delivers_in_order()
    ensures down { Always DeliversDown }
    ensures up { Always DeliversUp }
{}

/// The guaranteed events of an end before the first one that is not acknowledged were delivered at the other end, and once all are
/// acknowledged all were, both ways.
pub fn acknowledged_is_delivered()
    ensures down { Always DeliveredDown }
    ensures up { Always DeliveredUp }
{}

/// The moves that the server accepted are the first ones that the client sampled, each once and in order, whatever the
/// network did.
pub fn accepts_in_order()
    ensures { Always AcceptsInOrder }
{}
