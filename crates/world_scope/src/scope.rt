//! The visible objects of a client.
ghost use Rattle.std.specs.Prelude.{◌≡◌, ◌≤◌, ◌<◌, ◌+◌, ◌↔◌, [], OnOk, OnErr, length, map, vec_capacity, Some, true};
ghost use Rattle.std.specs.List.{All, Contains};
ghost use Rattle.std.specs.List.Sorted.{IsStrictlyIncreasing};
ghost use Rattle.world_sim.specs.Worlds.{alive_at};
ghost use Rattle.world_scope.specs.Scope.{seen_at, visible_list};
ghost use Rattle.world_scope.specs.Square.{most_looks};

use crate::candidates::add_candidates;
use crate::gather::gather;
use crate::viewer::{Seen, Viewer};
use crate::word_set::WordSet;
use std::alloc::Global;
use std::marker::Brand;
use std::sync::ledger::{Blank, Ledger};
use tn_types::{NoMemory, Steps};
use world_sim::World;

/// The objects that a client sees, by rising number, in place of what was in `out` (docs/world.md, "Scope"). It takes
/// memory only where `out` has no room for them, and for want of memory `out` is empty.
pub fn visible(
    alloc: Global,
    world: &World,
    client: u8,
    out: &mut Vec<Seen>,
) -> Result<(), NoMemory>
    ensures ok { OnOk result (out.new.items ≡ visible_list world.now client) }
    ensures err { OnErr result (out.new.items ≡ []) }

    // Memory is wanted only where the list has to grow, and the room of `out` never shrinks.
    ensures room { OnErr result (vec_capacity out.old < length (visible_list world.now client)) }
    ensures kept { vec_capacity out.old ≤ vec_capacity out.new }

    // What holds of each list of visible objects.
    ensures exactly { OnOk result ((s : Seen) → Contains out.new.items s ↔ (seen_at world.now client s.object ≡ Some s)) }
    ensures levels { All (λ s. s.level ≤ 3) out.new.items }
    ensures rising { IsStrictlyIncreasing (map (λ s. s.object) out.new.items) }
    ensures there { All (λ s. s.object < length world.now.objects) out.new.items }
    ensures alive { All (λ s. alive_at world.now s.object ≡ Some true) out.new.items }
{
    visible_blank::<Brand>(alloc, world, client, out, Blank::new(1))
}

// `visible_counted` with a counter that nobody reads.
fn visible_blank<L: Ledger>(
    alloc: Global,
    world: &World,
    client: u8,
    out: &mut Vec<Seen>,
    blank: Blank,
) -> Result<(), NoMemory>
    requires name { blank.name ≡ L.name }
    requires parts { blank.parts ≡ L.parts }
    requires some { 0 < blank.parts }
    ensures ok { OnOk result (out.new.items ≡ visible_list world.now client) }
    ensures err { OnErr result (out.new.items ≡ []) }

    // Memory is wanted only where the list has to grow, and the room of `out` never shrinks.
    ensures room { OnErr result (vec_capacity out.old < length (visible_list world.now client)) }
    ensures kept { vec_capacity out.old ≤ vec_capacity out.new }

    // What holds of each list of visible objects.
    ensures exactly { OnOk result ((s : Seen) → Contains out.new.items s ↔ (seen_at world.now client s.object ≡ Some s)) }
    ensures levels { All (λ s. s.level ≤ 3) out.new.items }
    ensures rising { IsStrictlyIncreasing (map (λ s. s.object) out.new.items) }
    ensures there { All (λ s. s.object < length world.now.objects) out.new.items }
    ensures alive { All (λ s. alive_at world.now s.object ≡ Some true) out.new.items }
{
    let mut steps: Steps<L> = Steps::new(blank);
    visible_counted(alloc, world, client, out, &mut steps)
}

/// The same, with a step for each look at an object: at most as many as there are living objects in the cells that the
/// square round the client's player touches, whose sides are twice the radius, and as there are flags and clocks, and 1.
pub fn visible_counted<L: Ledger>(
    alloc: Global,
    world: &World,
    client: u8,
    out: &mut Vec<Seen>,
    steps: &mut Steps<L>,
) -> Result<(), NoMemory>
    ensures ok { OnOk result (out.new.items ≡ visible_list world.now client) }
    ensures err { OnErr result (out.new.items ≡ []) }

    // Memory is wanted only where the list has to grow, and the room of `out` never shrinks.
    ensures room { OnErr result (vec_capacity out.old < length (visible_list world.now client)) }
    ensures kept { vec_capacity out.old ≤ vec_capacity out.new }
    ensures steps { steps.new ≤ steps.old + most_looks world.now client }

    // What holds of each list of visible objects.
    ensures exactly { OnOk result ((s : Seen) → Contains out.new.items s ↔ (seen_at world.now client s.object ≡ Some s)) }
    ensures levels { All (λ s. s.level ≤ 3) out.new.items }
    ensures rising { IsStrictlyIncreasing (map (λ s. s.object) out.new.items) }
    ensures there { All (λ s. s.object < length world.now.objects) out.new.items }
    ensures alive { All (λ s. alive_at world.now s.object ≡ Some true) out.new.items }
{
    let objects = world.all_objects();
    let viewer = Viewer::of(client, world.radius(), objects);
    let mut words = WordSet::new();
    add_candidates(&viewer, world, &mut words);
    match gather(alloc, &viewer, world, world.places(), &words, out, steps) {
        Ok(()) => Ok(()),
        Err(_) => {
            out.clear();
            Err(NoMemory)
        }
    }
}
