//! What a tick finds of the objects before anything moves, so that each rule looks through a short list only.
ghost use Rattle.std.specs.Prelude.{◌≡◌, ◌≤◌, ◌+◌, ◌&&◌, ◌||◌, ◌++◌, ◌∷◌, ◌<◌, [], true, slice_set, OnOk, IfSome, position, filter, map, length, count_by, List, if◌then◌else◌};
ghost use Rattle.std.specs.List.{list_any, AllByRecursion};
ghost use Rattle.world_rules.specs.declared.object.Object.{Object};
ghost use Rattle.world_rules.specs.Near.{is_standing, is_other_near};
ghost use Rattle.world_rules.specs.Discs.{is_of, is_hitting};
ghost use Rattle.world_rules.specs.Flags.{captures, is_player};
ghost use Rattle.world_rules.specs.Identity.{LivesOn};
ghost use Rattle.world_rules.specs.Ranges.{PlaceFits, ObjectFits};
ghost use Rattle.world_sim.specs.Searches.{AreWatched, IsSearch};
ghost use Rattle.world_cells.specs.Cells.{IsGrid};
ghost use Rattle.world_sim.specs.Found.{is_triggered_by, is_flag, is_players, PlayersFirst, IsPlayersEnd, AreFound};
ghost use Rattle.world_sim.specs.Glances.{glance_of};
ghost use Rattle.world_sim.specs.Turns.{HasGoing};

use crate::glance::Glance;
use crate::near::any_target_round;
use crate::watch::{PLOTS, is_watched, watch_all};
use std::alloc::{AllocError, Global};
use std::slice::from_ref;
use tn_types::MAX_OBJECTS;
use world_cells::{Cells, NumberSet};
use world_rules::flags::{is_captured, is_player};
use world_rules::measures::MINE_REACH;
use world_rules::{Object, State};

/// What is picked out of all objects for a tick.
#[derive(Drop)]
pub struct Picked {
    pub flags: Vec<Object>,
    /// The discs that hit.
    pub hitting: Vec<Object>,
    /// The mines that are triggered.
    pub triggered: Vec<Object>,
    /// For each object whether it is one of these discs or mines.
    pub marks: Vec<bool>,
}

/// What a tick found. All room is made at the start.
#[derive(Drop)]
pub struct Found {
    pub players: Vec<Object>,
    pub standing: Vec<Object>,
    pub picked: Picked,
}

/// What a tick looks through: all objects with their cells, and those that stand with the plots that they watch.
#[derive(Clone, Copy)]
pub struct Search<'s> {
    pub cells: &'s Cells,
    pub objects: &'s [Object],
    pub watched: &'s [bool],
    pub standing: &'s [Object],
}

/// Nothing found yet.
pub fn nothing(alloc: Global) -> Result<Found, AllocError> {
    Ok(Found {
        players: Vec::with_capacity(alloc, MAX_OBJECTS)?,
        standing: Vec::with_capacity(alloc, MAX_OBJECTS)?,
        picked: Picked {
            flags: Vec::with_capacity(alloc, MAX_OBJECTS)?,
            hitting: Vec::with_capacity(alloc, MAX_OBJECTS)?,
            triggered: Vec::with_capacity(alloc, MAX_OBJECTS)?,
            marks: Vec::with_capacity(alloc, MAX_OBJECTS)?,
        },
    })
}

// Whether an object of the other team is that near.
fn any_near(reach: u32, o: &Object, others: &[Object]) -> bool
    ensures { result ≡ list_any (is_other_near reach o.now) others.now }
{
    others.iter().any(|t| o.is_other_near(reach, t))
}

/// How many of these are of the other team and that near.
pub fn count_near(reach: u32, o: &Object, others: &[Object]) -> usize
    ensures value { result ≡ count_by (is_other_near reach o.now) others.now }
    ensures few { result ≤ length others.now }
{
    others.iter().filter(|t| o.is_other_near(reach, t)).count()
}

/// How many of these discs are of this client.
pub fn count_of(client: u8, discs: &[Object]) -> usize
    ensures value { result ≡ count_by (λ d. is_of client d.state) discs.now }
    ensures few { result ≤ length discs.now }
{
    discs.iter().filter(|d| d.is_of(client)).count()
}

// Whether an object is a living disc that hits, by the cells of all objects.
#[tactic(auto, unfolding(world_rules::specs::Discs::is_hitting))]
fn is_hitting(cells: &Cells, objects: &[Object], o: &Object) -> bool
    requires grid { IsGrid cells.now objects.now }
    requires alive { AllByRecursion LivesOn objects.now }
    requires fits { AllByRecursion ObjectFits objects.now }
    ensures { result ≡ is_hitting objects.now o.now }
{
    o.is_flying() && any_target_round(cells, objects, o)
}

// Whether an object is an armed mine that one of these players triggers. Most lie in plots that nobody is near.
fn is_triggered_by(watched: &[bool], standing: &[Object], o: &Object) -> bool
    requires room { length watched.now ≡ PLOTS }
    requires watched { AreWatched standing.now watched.now }
    requires fits { PlaceFits o.now.place }
    ensures { result ≡ is_triggered_by standing.now o.now }
{
    o.is_armed() && (is_watched(watched, &o.place) && any_near(MINE_REACH, o, standing))
}

// Whether an object is anybody's player.
fn is_players(o: &Object) -> bool
    ensures { result ≡ is_players o.now }
{
    matches!(o.state, State::Player(_))
}

fn is_flag(o: &Object) -> bool
    ensures { result ≡ is_flag o.now }
{
    matches!(o.state, State::Flag(_))
}

// One more, if it passes.
fn keep(passes: bool, o: &Object, list: &mut Vec<Object>) -> Result<(), AllocError>
    ensures { OnOk result (list.new.items ≡ list.old.items ++ (if passes then o.now ∷ [] else [])) }
{
    if passes {
        list.extend_from_slice(from_ref(o))?;
    }
    Ok(())
}

// The players and those that stand.
#[tactic(auto, using(crate::proofs::Gathered::filter_more))]
fn gather(
    objects: &[Object],
    players: &mut Vec<Object>,
    standing: &mut Vec<Object>,
) -> Result<(), AllocError>
    ensures players { OnOk result (players.new.items ≡ filter is_players objects.now) }
    ensures standing { OnOk result (standing.new.items ≡ filter is_standing objects.now) }
{
    players.clear();
    standing.clear();
    for o in objects {
        keep(is_players(o), o, players)?;
        keep(o.is_standing(), o, standing)?;
    }
    Ok(())
}

// Where the players end, who stand first.
fn players_end(glances: &[Glance]) -> usize
    ensures within { result ≤ length glances.now }
    ensures end { (os : List Object) → glances.now ≡ map glance_of os → IsPlayersEnd os result }
{
    for (n, g) in glances.iter().enumerate() {
        if !g.is_player() {
            return n;
        }
    }
    glances.len()
}

// Marks the object of this number, if it ends.
fn mark(hits: bool, triggers: bool, number: usize, marks: &mut Vec<bool>)
    requires { number < length marks.old.items }
    ensures { marks.new.items ≡ (if hits || triggers then slice_set marks.old.items number true else marks.old.items) }
{
    if hits || triggers {
        marks[number] = true;
    }
}

// Whether this one is a flag, a disc that hits or a mine that is triggered.
fn find_this(
    search: &Search<'_>,
    number: usize,
    o: &Object,
    picked: &mut Picked,
) -> Result<(), AllocError>
    requires search { IsSearch search.now }
    requires place { PlaceFits o.now.place }
    requires number { number < length picked.old.marks.items }
    ensures flags { OnOk result (picked.new.flags.items ≡ picked.old.flags.items ++ (if is_flag o.now then o.now ∷ [] else [])) }
    ensures hitting { OnOk result (picked.new.hitting.items
        ≡ picked.old.hitting.items ++ (if is_hitting search.now.objects.now o.now then o.now ∷ [] else [])) }
    ensures triggered { OnOk result (picked.new.triggered.items
        ≡ picked.old.triggered.items ++ (if is_triggered_by search.now.standing.now o.now then o.now ∷ [] else [])) }
    ensures marks { OnOk result (picked.new.marks.items
        ≡ (if is_hitting search.now.objects.now o.now || is_triggered_by search.now.standing.now o.now
        then slice_set picked.old.marks.items number true else picked.old.marks.items)) }
{
    let hits = is_hitting(search.cells, search.objects, o);
    let triggers = is_triggered_by(search.watched, search.standing, o);
    keep(is_flag(o), o, &mut picked.flags)?;
    keep(hits, o, &mut picked.hitting)?;
    keep(triggers, o, &mut picked.triggered)?;
    mark(hits, triggers, number, &mut picked.marks);
    Ok(())
}

// The same by a glance at it first, since most are none of these.
fn find_one(
    search: &Search<'_>,
    number: usize,
    o: &Object,
    glance: &Glance,
    picked: &mut Picked,
) -> Result<(), AllocError>
    requires search { IsSearch search.now }
    requires glance { glance.now ≡ glance_of o.now }
    requires place { PlaceFits o.now.place }
    requires number { number < length picked.old.marks.items }
    ensures flags { OnOk result (picked.new.flags.items ≡ picked.old.flags.items ++ (if is_flag o.now then o.now ∷ [] else [])) }
    ensures hitting { OnOk result (picked.new.hitting.items
        ≡ picked.old.hitting.items ++ (if is_hitting search.now.objects.now o.now then o.now ∷ [] else [])) }
    ensures triggered { OnOk result (picked.new.triggered.items
        ≡ picked.old.triggered.items ++ (if is_triggered_by search.now.standing.now o.now then o.now ∷ [] else [])) }
    ensures marks { OnOk result (picked.new.marks.items
        ≡ (if is_hitting search.now.objects.now o.now || is_triggered_by search.now.standing.now o.now
        then slice_set picked.old.marks.items number true else picked.old.marks.items)) }
{
    if glance.may_matter(search.watched, &o.place) {
        find_this(search, number, o, picked)
    } else {
        Ok(())
    }
}

// The flags, the discs that hit and the mines that are triggered, with a mark for each that ends: only among those that may
// still change.
#[tactic(auto, using(crate::proofs::Gathered::filter_more, crate::proofs::Watching::place_fits))]
fn gather_ending(
    search: &Search<'_>,
    glances: &[Glance],
    going: &NumberSet,
    picked: &mut Picked,
) -> Result<(), AllocError>
    requires search { IsSearch search.now }
    requires glances { glances.now ≡ map glance_of search.now.objects.now }
    requires going { HasGoing going.now search.now.objects.now }
    requires most { length search.now.objects.now ≤ MAX_OBJECTS }
    ensures flags { OnOk result (picked.new.flags.items ≡ filter is_flag search.now.objects.now) }
    ensures hitting { OnOk result (picked.new.hitting.items ≡ filter (is_hitting search.now.objects.now) search.now.objects.now) }
    ensures triggered { OnOk result (picked.new.triggered.items
        ≡ filter (is_triggered_by search.now.standing.now) search.now.objects.now) }
    ensures marks { OnOk result (picked.new.marks.items
        ≡ map (λ o. is_hitting search.now.objects.now o || is_triggered_by search.now.standing.now o) search.now.objects.now) }
{
    let objects = search.objects;
    picked.flags.clear();
    picked.hitting.clear();
    picked.triggered.clear();
    picked.marks.clear();
    picked.marks.resize(objects.len(), false)?;
    let many = objects.len();
    let mut i = going.next(0, many);
    while i < many {
        find_one(search, i, &objects[i], &glances[i], picked)?;
        i = going.next(i + 1, many);
    }
    Ok(())
}

/// What a tick looks through, written anew.
#[tactic(auto, using(crate::proofs::Gathered::are_found))]
pub fn find_all(
    cells: &Cells,
    objects: &[Object],
    glances: &[Glance],
    going: &NumberSet,
    found: &mut Found,
) -> Result<(), AllocError>
    requires glances { glances.now ≡ map glance_of objects.now }
    requires going { HasGoing going.now objects.now }
    requires most { length objects.now ≤ MAX_OBJECTS }
    requires first { PlayersFirst objects.now }
    requires grid { IsGrid cells.now objects.now }
    requires alive { AllByRecursion LivesOn objects.now }
    requires fits { AllByRecursion ObjectFits objects.now }
    ensures { OnOk result (AreFound objects.now found.new) }
{
    gather(
        &objects[..players_end(glances)],
        &mut found.players,
        &mut found.standing,
    )?;
    let mut watched = [false; 4096];
    watch_all(&found.standing, &mut watched);
    let search = Search {
        cells,
        objects,
        watched: &watched,
        standing: &found.standing,
    };
    gather_ending(&search, glances, going, &mut found.picked)?;
    Ok(())
}

/// How many flags the team captures in the tick, where these are the flags of all objects.
#[tactic(auto, using(crate::proofs::Gathered::captures_are))]
pub fn captures_of(objects: &[Object], flags: &[Object], team: u8) -> usize
    requires { flags.now ≡ filter is_flag objects.now }
    ensures value { result ≡ captures objects.now team }
    ensures few { result ≤ length flags.now }
{
    flags
        .iter()
        .filter(|f| is_captured(objects, team, f))
        .count()
}

/// The place of the client's player.
pub fn place_of_player(client: u8, objects: &[Object]) -> Option<usize>
    ensures place { result ≡ position (is_player client) objects.now }
    ensures few { IfSome result (λ place. place < length objects.now) }
{
    objects.iter().position(|o| is_player(client, o))
}
