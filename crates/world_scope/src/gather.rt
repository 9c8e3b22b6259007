//! The walk over the objects that a client may see: a look at each, and what is seen of them, by rising number.
ghost use Rattle.std.specs.Prelude.{◌≡◌, ℕ, ◌≤◌, ◌<◌, ◌+◌, ◌++◌, [], ◌∷◌, OnOk, OnErr, IfOk, IfErr, length, map, drop, count_by, vec_capacity, ◌-◌, ◌^◌, nat_le, Some, true, false, if◌then◌else◌, min, ◌⊎◌};
ghost use Rattle.std.specs.Int.{bit_at, trailing_zeros, w64};
ghost use Rattle.world_rules.specs.Ranges.{PlaceFits};
ghost use Rattle.std.specs.List.{cons_option, filter_map, enumerate_from};
ghost use Rattle.world_places.specs.Places.{AreOf64, ArePlaced, place_at};
ghost use Rattle.world_sim.specs.Worlds.{alive_at};
ghost use Rattle.world_sim.specs.Glances.{glance_of};
ghost use Rattle.world_scope.specs.Scope.{seen};
ghost use Rattle.world_scope.specs.Views.{look, IsReady};
ghost use Rattle.world_scope.specs.Rings.{AreLevels, HasPlaces};
ghost use Rattle.world_scope.specs.Walks.{IsWalked};
ghost use Rattle.world_scope.specs.Candidates.{AreThose, HasOnePlayer, may_see, seen_in, to_come};

use crate::viewer::{Seen, Viewer};
use crate::whole_words::{add_all, has_levels, has_room};
use crate::word_set::WordSet;
use std::alloc::{AllocError, Global};
use std::mem;
use std::sync::ledger::Ledger;
use tn_types::{MAX_OBJECTS, Steps};
use world_places::{PlaceWord, Places};
use world_rules::Place;
use world_sim::{Glance, World};

/// What a walk reads: who looks, the world, and a glance at each of its objects.
#[derive(Clone, Copy)]
pub struct Walk<'w> {
    pub viewer: &'w Viewer,
    pub world: &'w World,
    pub glances: &'w [Glance],
}

/// A word of a walk: the places of the 64 objects from a number on.
#[derive(Clone, Copy)]
pub struct WalkWord<'p> {
    pub places: PlaceWord<'p>,
    pub from: usize,
}

// Room for one more.
#[inline(never)]
fn grown(list: Vec<Seen>) -> Result<Vec<Seen>, Vec<Seen>>
    ensures ok { IfOk result (λ longer. (longer.items ≡ list.items) × (length longer.items < vec_capacity longer)) }
    ensures room { OnErr result (vec_capacity list < length list.items + 1) }
    ensures kept { IfOk result (λ longer. vec_capacity list ≤ vec_capacity longer) }
    ensures kept_err { IfErr result (λ longer. vec_capacity list ≤ vec_capacity longer) }
{
    let mut longer = list;
    match longer.reserve(1) {
        Ok(()) => Ok(longer),
        Err(_) => Err(longer),
    }
}

// One more that is seen, where there is room.
#[inline(always)]
fn pushed(seen: Seen, list: Vec<Seen>) -> Vec<Seen>
    requires { length list.items < vec_capacity list }
    ensures items { result.items ≡ list.items ++ seen ∷ [] }
    ensures kept { vec_capacity result ≡ vec_capacity list }
{
    let mut longer = list;
    longer.push_reserved(seen);
    longer
}

// One more that is seen, if there is one. The list is given and taken back, so that its end stays in a register.
#[inline(always)]
fn add(seen: Option<Seen>, list: Vec<Seen>) -> Result<Vec<Seen>, Vec<Seen>>
    ensures ok { IfOk result (λ longer. longer.items ≡ list.items ++ cons_option seen []) }
    ensures room { OnErr result (vec_capacity list < length (list.items ++ cons_option seen [])) }
    ensures kept { IfOk result (λ longer. vec_capacity list ≤ vec_capacity longer) }
    ensures kept_err { IfErr result (λ longer. vec_capacity list ≤ vec_capacity longer) }
{
    match seen {
        None => Ok(list),
        Some(seen) => {
            if list.len() < list.capacity() {
                Ok(pushed(seen, list))
            } else {
                Ok(pushed(seen, grown(list)?))
            }
        }
    }
}

// The place of one of 64 objects.
fn place(places: &PlaceWord<'_>, k: usize) -> Place
    requires many { AreOf64 places.now }
    requires few { k < 64 }
    ensures value { result ≡ place_at places.now k }
    ensures fits { PlaceFits result }
{
    Place {
        x: u32::from(places.xs[k]),
        y: u32::from(places.ys[k]),
    }
}

// Whether one of 64 objects is more than its place.
fn is_special(places: &PlaceWord<'_>, k: usize) -> bool
    requires { k < 64 }
    ensures { bit_at places.now.special k ≡ 1 → result ≡ true }
{
    places.special >> k & 1 != 0
}

// Looks at one living object of 64 from a number on.
fn look_at<L: Ledger>(
    viewer: &Viewer,
    world: &World,
    glances: &[Glance],
    places: &PlaceWord<'_>,
    from: usize,
    k: usize,
    steps: &mut Steps<L>,
) -> Option<Seen>
    requires glances { glances.now ≡ map glance_of world.now.objects }
    requires places { HasPlaces places.now from world.now.objects }
    requires few { k < 64 }
    requires small { from ≤ MAX_OBJECTS }
    requires there { from + k < length world.now.objects }
    requires alive { alive_at world.now (from + k) ≡ Some true }
    requires owned { HasOnePlayer (look viewer.now) world.now.objects }
    requires ready { IsReady viewer.now }
    ensures seen { result ≡ seen_in (look viewer.now) world.now.objects (from + k) }
    ensures steps { steps.new ≡ steps.old + 1 }
{
    let object = from + k;
    let _ = world.look(object as u32, steps);
    let special = is_special(places, k);
    viewer.sight(object as u32, place(places, k), special, &glances[object])
}

// A word without its lowest bit.
fn without_lowest(word: u64) -> u64
    requires { 0 < word }
    ensures less { result < word }
    ensures bits { (k : ℕ) → bit_at result k ≡ (if nat_le k (trailing_zeros w64 word) then 0 else bit_at word k) }
{
    word & (word - 1)
}

// Looks at each object of a word that has a bit, one by one.
#[inline(always)]
fn gather_bits<L: Ledger>(
    walk: &Walk<'_>,
    part: &WalkWord<'_>,
    bits: u64,
    list: Vec<Seen>,
    steps: &mut Steps<L>,
) -> Result<Vec<Seen>, Vec<Seen>>
    requires part { IsWalked walk.now part.now bits }
    ensures ok { IfOk result (λ longer. longer.items ++ to_come (look walk.now.viewer.now) walk.now.world.now.objects (part.now.from + 64)
        ≡ list.items ++ to_come (look walk.now.viewer.now) walk.now.world.now.objects part.now.from) }
    ensures room { OnErr result (vec_capacity list
        < length (list.items ++ to_come (look walk.now.viewer.now) walk.now.world.now.objects part.now.from)) }
    ensures kept { IfOk result (λ longer. vec_capacity list ≤ vec_capacity longer) }
    ensures kept_err { IfErr result (λ longer. vec_capacity list ≤ vec_capacity longer) }
    ensures steps { steps.new + count_by (may_see (look walk.now.viewer.now)) (drop (part.now.from + 64) walk.now.world.now.objects)
        ≤ steps.old + count_by (may_see (look walk.now.viewer.now)) (drop part.now.from walk.now.world.now.objects) }
{
    let Walk {
        viewer,
        world,
        glances,
    } = *walk;
    let from = part.from;
    let mut next = from;
    let mut rest = bits;
    let mut out = list;
    while rest != 0 {
        let k = rest.trailing_zeros() as usize;
        out = add(
            look_at(viewer, world, glances, &part.places, from, k, steps),
            out,
        )?;
        next = from + k + 1;
        rest = without_lowest(rest);
    }
    Ok(out)
}

// Whether any that has a bit is more than its place.
fn has_special(places: &PlaceWord<'_>, word: u64) -> bool
    ensures { result ≡ false → (k : ℕ) → k < 64 → bit_at word k ≡ 1 → bit_at places.now.special k ≡ 0 }
{
    word & places.special != 0
}

// How many of 64 objects from a number on are there.
fn count_from(world: &World, from: usize) -> usize
    ensures { result ≡ min 64 (length world.now.objects - from) }
{
    (world.objects() as usize).saturating_sub(from).min(64)
}

// Whether a word has a bit for each of so many objects.
fn is_full(word: u64, count: usize) -> bool
    requires { count ≤ 64 }
    ensures some { result ≡ true → 0 < count }
    ensures word { result ≡ true → word ≡ 2 ^ count - 1 }
{
    if count < 64 {
        count > 0 && word == (1 << count) - 1
    } else {
        word == u64::MAX
    }
}

// The same where a word's bits are its first ones, and else 0: most words are told so not to be full.
fn front_count(world: &World, from: usize, word: u64) -> usize
    ensures count { 0 < result → result ≡ min 64 (length world.now.objects - from) }
    ensures few { result ≤ 64 }
{
    if word & word.wrapping_add(1) == 0 {
        count_from(world, from)
    } else {
        0
    }
}

// Whether each of 64 objects that is there is looked at, so that the levels of all may be found at once without a look that isn't
// counted, and it serves: there is a player, and none of them is more than its place.
fn is_plain(viewer: &Viewer, places: &PlaceWord<'_>, word: u64, count: usize) -> bool
    requires { count ≤ 64 }
    ensures some { result ≡ true → 0 < count }
    ensures word { result ≡ true → word ≡ 2 ^ count - 1 }
    ensures player { result ≡ true → 0 < viewer.now.reach }
    ensures plain { result ≡ true → (k : ℕ) → k < 64 → bit_at word k ≡ 1 → bit_at places.now.special k ≡ 0 }
{
    is_full(word, count) && !has_special(places, word) && viewer.reach > 0
}

// The same, and whether a list has room for all 64 and all lie within reach: then the level of each.
#[inline(always)]
fn is_whole(
    viewer: &Viewer,
    places: &PlaceWord<'_>,
    word: u64,
    count: usize,
    list: &Vec<Seen>,
    levels: &mut [u16; 64],
) -> bool
    requires many { AreOf64 places.now }
    requires ready { IsReady viewer.now }
    requires count { count ≤ 64 }
    ensures some { result ≡ true → 0 < count }
    ensures word { result ≡ true → word ≡ 2 ^ count - 1 }
    ensures player { result ≡ true → 0 < viewer.now.reach }
    ensures plain { result ≡ true → (k : ℕ) → k < 64 → bit_at word k ≡ 1 → bit_at places.now.special k ≡ 0 }
    ensures room { result ≡ true → (count ≡ 64) ⊎ (length list.now.items + 64 ≤ vec_capacity list.now) }
    ensures levels { result ≡ true → AreLevels levels.new viewer.now places.now }
{
    is_plain(viewer, places, word, count)
        && has_room(list, count)
        && has_levels(viewer, places, levels)
}

// Looks at each object of a word that has a bit, all at once where that serves.
#[inline(always)]
fn gather_word<L: Ledger>(
    walk: &Walk<'_>,
    part: &WalkWord<'_>,
    bits: u64,
    list: Vec<Seen>,
    levels: &mut [u16; 64],
    steps: &mut Steps<L>,
) -> Result<Vec<Seen>, Vec<Seen>>
    requires part { IsWalked walk.now part.now bits }
    ensures ok { IfOk result (λ longer. longer.items ++ to_come (look walk.now.viewer.now) walk.now.world.now.objects (part.now.from + 64)
        ≡ list.items ++ to_come (look walk.now.viewer.now) walk.now.world.now.objects part.now.from) }
    ensures room { OnErr result (vec_capacity list
        < length (list.items ++ to_come (look walk.now.viewer.now) walk.now.world.now.objects part.now.from)) }
    ensures kept { IfOk result (λ longer. vec_capacity list ≤ vec_capacity longer) }
    ensures kept_err { IfErr result (λ longer. vec_capacity list ≤ vec_capacity longer) }
    ensures steps { steps.new + count_by (may_see (look walk.now.viewer.now)) (drop (part.now.from + 64) walk.now.world.now.objects)
        ≤ steps.old + count_by (may_see (look walk.now.viewer.now)) (drop part.now.from walk.now.world.now.objects) }
{
    let count = front_count(walk.world, part.from, bits);
    if is_whole(walk.viewer, &part.places, bits, count, &list, levels) {
        add_all(walk.world, levels, part.from, count, list, steps)
    } else {
        gather_bits(walk, part, bits, list, steps)
    }
}

// Looks at each object of the set, and puts those that are seen into an empty list. Room for levels is made once and lent, so that it
// isn't zeroed for each word.
#[inline(always)]
fn gather_words<L: Ledger>(
    viewer: &Viewer,
    world: &World,
    places: &Places,
    set: &WordSet,
    list: Vec<Seen>,
    steps: &mut Steps<L>,
) -> Result<Vec<Seen>, Vec<Seen>>
    requires few { length world.now.objects ≤ MAX_OBJECTS }
    requires placed { ArePlaced places.now world.now.objects }
    requires those { AreThose set.now (may_see (look viewer.now)) world.now.objects }
    requires owned { HasOnePlayer (look viewer.now) world.now.objects }
    requires ready { IsReady viewer.now }
    requires empty { list.items ≡ [] }
    ensures ok { IfOk result (λ longer. longer.items ≡ to_come (look viewer.now) world.now.objects 0) }
    ensures room { OnErr result (vec_capacity list < length (to_come (look viewer.now) world.now.objects 0)) }
    ensures kept { IfOk result (λ longer. vec_capacity list ≤ vec_capacity longer) }
    ensures kept_err { IfErr result (λ longer. vec_capacity list ≤ vec_capacity longer) }
    ensures steps { steps.new ≤ steps.old + count_by (may_see (look viewer.now)) world.now.objects }
{
    let walk = Walk {
        viewer,
        world,
        glances: world.glances(),
    };
    let mut levels = [0; 64];
    let mut next = 0;
    let mut rest = set.marks();
    let mut out = list;
    while rest != 0 {
        let word = rest.trailing_zeros() as usize;
        let part = WalkWord {
            places: places.word(word),
            from: 64 * word,
        };
        let bits = set.word(word);
        out = gather_word(&walk, &part, bits, out, &mut levels, steps)?;
        next = word + 1;
        rest = without_lowest(rest);
    }
    Ok(out)
}

/// Looks at each object of the set, and puts those that are seen in place of what was in `out`.
pub fn gather<L: Ledger>(
    alloc: Global,
    viewer: &Viewer,
    world: &World,
    places: &Places,
    set: &WordSet,
    out: &mut Vec<Seen>,
    steps: &mut Steps<L>,
) -> Result<(), AllocError>
    requires few { length world.now.objects ≤ MAX_OBJECTS }
    requires placed { ArePlaced places.now world.now.objects }
    requires those { AreThose set.now (may_see (look viewer.now)) world.now.objects }
    requires owned { HasOnePlayer (look viewer.now) world.now.objects }
    requires ready { IsReady viewer.now }
    ensures ok { OnOk result (out.new.items ≡ filter_map (seen (look viewer.now)) (enumerate_from 0 world.now.objects)) }
    ensures room { OnErr result (vec_capacity out.old
        < length (filter_map (seen (look viewer.now)) (enumerate_from 0 world.now.objects))) }
    ensures kept { vec_capacity out.old ≤ vec_capacity out.new }
    ensures steps { steps.new ≤ steps.old + count_by (may_see (look viewer.now)) world.now.objects }
{
    out.clear();
    let list = mem::replace(out, Vec::new(alloc));
    match gather_words(viewer, world, places, set, list, steps) {
        Ok(longer) => {
            *out = longer;
            Ok(())
        }
        Err(longer) => {
            *out = longer;
            Err(AllocError)
        }
    }
}
