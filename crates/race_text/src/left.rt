//! What was left in the mask words at the end.
ghost use Rattle.std.specs.Prelude.{◌≡◌, ◌<◌, ◌++◌, ◌∷◌, List, [], IfOk, OnOk, slice_get};
ghost use Rattle.std.specs.List.{AllByRecursion};
ghost use Rattle.ghost_scope.specs.Shown.{IsUp};
ghost use Rattle.stream_manager.specs.Limits.{Terms};
ghost use Rattle.pair_core.specs.History.{PairStep as Step};
ghost use Rattle.pair_core.specs.Stands.{StandsFor};
ghost use Rattle.race_text.specs.Showing.{word_of, left_over};

use dirty_lanes::FinalWords;
use lane_periods::Objects;
use pair_core::Pair;
use std::alloc::Global;
use tn_types::{Drain, NoMemory};

/// The mask word of the object of a period; 0 where there is none.
fn word_of(words: &FinalWords, client: u8, objects: &Objects, n: u32) -> u32
    requires { client < words.now.clients }
    ensures { result ≡ word_of words.now client (slice_get objects.now n) }
{
    match objects.get(n) {
        None => 0,
        Some(object) => {
            if object < words.objects() {
                words.mask(client, object)
            } else {
                0
            }
        }
    }
}

// One more period.
fn add(left: &mut Vec<Drain>, period: Drain) -> Result<(), NoMemory>
    ensures { OnOk result (left.new.items ≡ left.old.items ++ period ∷ []) }
{
    match left.push(period) {
        Ok(()) => Ok(()),
        Err(_) => Err(NoMemory),
    }
}

/// The periods that are up, each with the mask word of its object.
pub(crate) fn left_over(
    alloc: Global,
    pair: &Pair,
    client: u8,
    objects: &Objects,
    words: &FinalWords,
) -> Result<Vec<Drain>, NoMemory>
    requires { client < words.now.clients }
    ensures told { IfOk result (λ left. (t : Terms) (steps : List Step) → StandsFor pair.now t steps
        → left.items ≡ left_over words.now client objects.now steps) }
    ensures up { IfOk result (λ left. AllByRecursion (λ d. IsUp pair.now.conn.masks.periods d.n) left.items) }
{
    let mut left = Vec::new(alloc);
    for n in 0..pair.conn().shows() {
        if pair.conn().is_up(n) {
            let bits = word_of(words, client, objects, n);
            add(&mut left, Drain { n, bits })?;
        }
    }
    Ok(left)
}
