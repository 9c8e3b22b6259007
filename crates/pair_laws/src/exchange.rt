//! Datagrams are read as the packets that were sent.
ghost use Rattle.pair_laws.specs.Laws.{Always};
ghost use Rattle.pair_laws.specs.Exchange.{IsExchange};

/// Between honest ends the same happens as where packets themselves go over the network: a delivery hands over the packet that was sent
/// at its place, whichever version the datagrams are of, and whatever the client's copies and what was delivered have become since.
pub fn packets_are_exchanged()
    ensures { Always IsExchange }
{}
