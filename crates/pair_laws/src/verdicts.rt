//! What the verdicts of one end say of the other, over all that a connection did.

ghost use Rattle.pair_laws.specs.Laws.{Always, AlwaysLater};
ghost use Rattle.pair_laws.specs.Verdicts.{VerdictsAreTrueDown, VerdictsAreTrueUp, LostForGoodDown, LostForGoodUp};

/// A packet that was judged is Received exactly where the other end processed it, both ways, and one that is Lost is never
/// processed, whatever the network does later.
pub fn verdicts_are_true()
    ensures down { Always VerdictsAreTrueDown }
    ensures up { Always VerdictsAreTrueUp }
    ensures lost_down { AlwaysLater LostForGoodDown }
    ensures lost_up { AlwaysLater LostForGoodUp }
{}
