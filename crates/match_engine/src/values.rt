//! The values of a world as packs ask for them.
ghost use Rattle.std.specs.Prelude.{◌≡◌, IfSome, None};
ghost use Rattle.std.specs.Option.{option_copied};
ghost use Rattle.match_engine.specs.Values.{period_of, Rise, IsAt};

use client_scope::ShownPeriod;
use ghost_scope::PlaceNotes;
use tn_types::{Read, Values};
use world_sim::World;

/// The newest values of the objects of a client's shown periods. The world holds them, so that none is copied, and reads
/// have no versions.
#[derive(Drop)]
pub(crate) struct WorldValues<'a> {
    pub(crate) world: &'a World,
    pub(crate) shown: &'a [ShownPeriod],
    // where shown periods stand
    pub(crate) places: &'a PlaceNotes,
    ghost rising: { Rise shown.now },
}

/// Notes where these periods stand.
pub(crate) fn note_all(places: &mut PlaceNotes, shown: &[ShownPeriod]) {
    for at in 0..shown.len() {
        places.note(shown[at].n, at);
    }
}

// Where the shown period of this number stands.
fn place(shown: &[ShownPeriod], n: u32) -> Option<usize>
    requires rising { Rise shown.now }
    ensures found { IfSome result (IsAt shown.now n) }
    ensures absent { result ≡ None → period_of shown.now n ≡ None }
{
    shown.binary_search_by_key(&n, |p| p.n).ok()
}

// The same. Where it stands as noted, it is found at once.
fn place_noted(shown: &[ShownPeriod], places: &PlaceNotes, n: u32) -> Option<usize>
    requires rising { Rise shown.now }
    ensures found { IfSome result (IsAt shown.now n) }
    ensures absent { result ≡ None → period_of shown.now n ≡ None }
{
    let at = places.place(n);
    if at < shown.len() && shown[at].n == n {
        return Some(at);
    }
    place(shown, n)
}

/// The shown period of this number, which stands at this place.
fn period_of(shown: &[ShownPeriod], place: Option<usize>, n: u32) -> Option<&ShownPeriod>
    requires rising { Rise shown.now }
    requires found { IfSome place (IsAt shown.now n) }
    requires absent { place ≡ None → period_of shown.now n ≡ None }
    ensures { option_copied result ≡ period_of shown.now n }
{
    match place {
        Some(at) => Some(&shown[at]),
        None => None,
    }
}

impl<'a> Values for WorldValues<'a> {
    ghost use Rattle.std.specs.Prelude.{◌≡◌, [], All, refl};
    ghost use Rattle.std.proofs.Common.{◌∙◌, subst};
    ghost use Rattle.std.proofs.lemmas.List.Elements.{All-append, All-from_recursion};
    ghost use Rattle.match_engine.specs.Values.{ranges as ranges_of, IsNewest};

    ghost ranges = { λ v n f. ranges_of v.world.now v.shown.now n f };

    ghost asks = { λ a reads b. (b.world.now ≡ a.world.now) × (b.shown.now ≡ a.shown.now) × All (IsNewest a.world.now a.shown.now) reads };

    fn value(&mut self, n: u32, field: u8) -> Read {
        let place = place_noted(self.shown, self.places, n);
        let Some(period) = period_of(self.shown, place, n) else {
            unreachable!()
        };
        let values = self.world.values(period.object);
        Read {
            n,
            field,
            version: 0,
            value: values[field as usize],
        }
    }

    ghost asks_none = { λ x. (refl, refl, All-from_recursion (IsNewest x.world.now x.shown.now) [] tt) };

    ghost asks_more = { λ x y z first later p q. (
      q.0 ∙ p.0,
      q.1 ∙ p.1,
      All-append (IsNewest x.world.now x.shown.now) first later p.2
          (subst (λ w. All (IsNewest w x.shown.now) later) p.0 (subst (λ ps. All (IsNewest y.world.now ps) later) p.1 q.2)),
    ) };

    ghost asks_ranges = { λ x y reads n f p j. ranges_of (p.0 j) (p.1 j) n f };
}
