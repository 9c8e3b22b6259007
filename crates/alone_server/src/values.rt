//! The values of a client's shown periods as packs ask for them.
ghost use Rattle.std.specs.Prelude.{◌≡◌};
ghost use Rattle.alone_server.specs.Periods.{Rise};

use crate::periods::{OwnPeriod, period_in};
use tn_types::{Read, Values};

/// The newest values of a client's shown periods, which are those that its own list told. Reads have no versions.
#[derive(Drop)]
pub(crate) struct AloneValues<'a> {
    pub(crate) periods: &'a [OwnPeriod],
    ghost rising: { Rise periods.now },
}

impl<'a> Values for AloneValues<'a> {
    ghost use Rattle.std.specs.Prelude.{◌≡◌, [], All, refl};
    ghost use Rattle.std.proofs.Common.{◌∙◌, subst};
    ghost use Rattle.std.proofs.lemmas.List.Elements.{All-append, All-from_recursion};
    ghost use Rattle.alone_server.specs.Values.{ranges as ranges_of, IsOwnRead};

    ghost ranges = { λ v n f. ranges_of v.periods.now n f };

    ghost asks = { λ a reads b. (b.periods.now ≡ a.periods.now) × All (IsOwnRead a.periods.now) reads };

    fn value(&mut self, n: u32, field: u8) -> Read {
        let Some(period) = period_in(self.periods, n) else {
            unreachable!()
        };
        let values = period.values.as_slice();
        Read {
            n,
            field,
            version: 0,
            value: values[field as usize],
        }
    }

    ghost asks_none = { λ x. (refl, All-from_recursion (IsOwnRead x.periods.now) [] tt) };

    ghost asks_more = { λ x y z first later p q. (
      q.0 ∙ p.0,
      All-append (IsOwnRead x.periods.now) first later p.1 (subst (λ ps. All (IsOwnRead ps) later) p.0 q.1),
    ) };

    ghost asks_ranges = { λ x y reads n f p j. ranges_of (p.0 j) n f };
}
