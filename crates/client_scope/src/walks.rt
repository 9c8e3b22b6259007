//! The two walks of a scan: over the periods that were shown, and over what it saw.
ghost use Rattle.std.specs.Prelude.{◌≡◌, ◌<◌, ◌≤◌, ◌+◌, ◌^◌, ◌++◌, [], ◌∷◌, ℕ, length, map, filter, vec_capacity};
ghost use Rattle.std.specs.List.{All, filter_map};
ghost use Rattle.client_scope.specs.Scans.{is_new};
ghost use Rattle.client_scope.specs.Changes.{hidden, moved};
ghost use Rattle.client_scope.specs.Marks.{told, marked, aged, stays, goes_on, begun};

use crate::marks::marked;
use crate::period::{Near, ShownPeriod};
use std::mem;
use tn_types::MAX_OBJECTS;
use world_scope::Seen;

// The level at which the object of one shown period is seen now, if it is.
fn age_one(p: &mut ShownPeriod, mark: u8, hides: &mut Vec<u32>, nears: &mut Vec<Near>)
    requires hides_room { length hides.old.items < vec_capacity hides.old }
    requires nears_room { length nears.old.items < vec_capacity nears.old }
    ensures hides { hides.new.items ≡ hides.old.items ++ filter_map (hidden (λ _. told mark)) (p.old ∷ []) }
    ensures nears { nears.new.items ≡ nears.old.items ++ filter_map (moved (λ _. told mark)) (p.old ∷ []) }
    ensures aged { p.new ≡ aged (λ _. told mark) p.old }
    ensures hides_same { vec_capacity hides.new ≡ vec_capacity hides.old }
    ensures nears_same { vec_capacity nears.new ≡ vec_capacity nears.old }
{
    if mark == 0 {
        hides.push_reserved(p.n);
        return;
    }
    let level = mark - 1;
    if level == p.level {
        return;
    }
    p.level = level;
    nears.push_reserved(Near { n: p.n, level });
}

// Gives the shown periods the levels at which their objects are marked, and tells which ones are hidden, as their objects aren't.
fn age(shown: &mut [ShownPeriod], marks: &[u8], hides: &mut Vec<u32>, nears: &mut Vec<Near>)
    requires marks { length marks.now ≡ MAX_OBJECTS }
    requires there { All (λ p. p.object < MAX_OBJECTS) shown.old }
    requires hides_room { length shown.old ≤ vec_capacity hides.old }
    requires nears_room { length shown.old ≤ vec_capacity nears.old }
    ensures hides { hides.new.items ≡ filter_map (hidden (marked marks.now)) shown.old }
    ensures nears { nears.new.items ≡ filter_map (moved (marked marks.now)) shown.old }
    ensures aged { shown.new ≡ map (aged (marked marks.now)) shown.old }
    ensures length { length shown.new ≡ length shown.old }
{
    hides.clear();
    nears.clear();
    for i in 0..shown.len() {
        let mark = marks[shown[i].object as usize];
        age_one(&mut shown[i], mark, hides, nears);
    }
}

// The periods whose objects are marked.
fn sift(shown: &[ShownPeriod], marks: &[u8], kept: &mut Vec<ShownPeriod>)
    requires marks { length marks.now ≡ MAX_OBJECTS }
    requires there { All (λ p. p.object < MAX_OBJECTS) shown.now }
    requires kept_room { length shown.now ≤ vec_capacity kept.old }
    ensures kept { kept.new.items ≡ filter (stays (marked marks.now)) shown.now }
    ensures few { length kept.new.items ≤ length shown.now }
    ensures room { vec_capacity kept.new ≡ vec_capacity kept.old }
{
    kept.clear();
    for p in shown {
        if marks[p.object as usize] != 0 {
            kept.push_reserved(*p);
        }
    }
}

// The shown periods whose objects are marked go on, and the others are hidden.
pub(crate) fn go_on(
    shown: &mut Vec<ShownPeriod>,
    marks: &[u8],
    hides: &mut Vec<u32>,
    nears: &mut Vec<Near>,
    kept: &mut Vec<ShownPeriod>,
)
    requires marks { length marks.now ≡ MAX_OBJECTS }
    requires there { All (λ p. p.object < MAX_OBJECTS) shown.old.items }
    requires hides_room { length shown.old.items ≤ vec_capacity hides.old }
    requires nears_room { length shown.old.items ≤ vec_capacity nears.old }
    requires kept_room { length shown.old.items ≤ vec_capacity kept.old }
    ensures hides { hides.new.items ≡ filter_map (hidden (marked marks.now)) shown.old.items }
    ensures nears { nears.new.items ≡ filter_map (moved (marked marks.now)) shown.old.items }
    ensures shown { shown.new.items ≡ filter_map (goes_on (marked marks.now)) shown.old.items }
    ensures few { length shown.new.items ≤ length shown.old.items }
    ensures room { (n : ℕ) → n ≤ vec_capacity shown.old → n ≤ vec_capacity kept.old → n ≤ vec_capacity shown.new }
{
    age(shown, marks, hides, nears);
    if hides.is_empty() {
        return;
    }
    sift(shown, marks, kept);
    mem::swap(shown, kept);
}

// Begins a period with each object that was seen and isn't marked, and tells the number of the next one.
pub(crate) fn begin(
    seen: &[Seen],
    marks: &[u8],
    count: u32,
    shows: &mut Vec<Seen>,
    kept: &mut Vec<ShownPeriod>,
) -> u32
    requires marks { length marks.now ≡ MAX_OBJECTS }
    requires there { All (λ s. s.object < MAX_OBJECTS) seen.now }
    requires few { count + length seen.now < 2 ^ 32 }
    requires shows_room { length seen.now ≤ vec_capacity shows.old }
    requires kept_room { length kept.old.items + length seen.now ≤ vec_capacity kept.old }
    ensures shows { shows.new.items ≡ filter (is_new (marked marks.now)) seen.now }
    ensures kept { kept.new.items ≡ kept.old.items ++ begun count (filter (is_new (marked marks.now)) seen.now) }
    ensures count { result ≡ count + length (filter (is_new (marked marks.now)) seen.now) }
    ensures few { result ≤ count + length seen.now }
{
    shows.clear();
    let mut n = count;
    for s in seen {
        if marked(marks, s.object).is_none() {
            shows.push_reserved(*s);
            kept.push_reserved(ShownPeriod {
                n,
                object: s.object,
                level: s.level,
            });
            n += 1;
        }
    }
    n
}
