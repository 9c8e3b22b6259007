//! Values where no period is shown.

use tn_types::{Read, Values};

/// The value 0 for each field that is asked for; or none, so that nothing may be asked for.
#[derive(Drop)]
pub(crate) struct ZeroValues {
    pub(crate) given: bool,
}

impl Values for ZeroValues {
    ghost use Rattle.std.specs.Prelude.{◌≡◌, true, pos, [], All, Some, None, if◌then◌else◌, refl};
    ghost use Rattle.std.proofs.Common.{◌∙◌, subst};
    ghost use Rattle.tn_types.specs.declared.choices.Read.{Read as OneRead};
    ghost use Rattle.std.proofs.lemmas.List.Elements.{All-append, All-from_recursion};

    ghost ranges = { λ s n f. if s.given then Some (pos 0, pos 0) else None };

    ghost asks = { λ a reads b. (b.given ≡ a.given) × All (λ (r : OneRead). (a.given ≡ true) × (r.value ≡ pos 0)) reads };

    fn value(&mut self, n: u32, field: u8) -> Read {
        Read {
            n,
            field,
            version: 0,
            value: 0,
        }
    }

    ghost asks_none = { λ x. (refl, All-from_recursion (λ (r : OneRead). (x.given ≡ true) × (r.value ≡ pos 0)) [] tt) };

    ghost asks_more = { λ x y z first later p q. (
      q.0 ∙ p.0,
      All-append (λ (r : OneRead). (x.given ≡ true) × (r.value ≡ pos 0)) first later p.1
          (subst (λ given. All (λ (r : OneRead). (given ≡ true) × (r.value ≡ pos 0)) later) p.0 q.1),
    ) };

    ghost asks_ranges = { λ x y reads n f p j. if p.0 j then Some (pos 0, pos 0) else None };
}
