//! A mine's tick.
ghost use Rattle.std.specs.Prelude.{◌≡◌, ◌<◌, ◌+◌, ◌++◌, ◌∷◌, List, length};
ghost use Rattle.world_rules.specs.declared.object.Object.{Object};
ghost use Rattle.world_rules.specs.declared.object.State.TheVariants.{Mine as mine_of};
ghost use Rattle.world_rules.specs.Mines.{is_armed_part, mine_next};
ghost use Rattle.world_rules.specs.Ranges.{PlaceFits};
ghost use Rattle.world_places.specs.Places.{ArePlaced, is_special};
ghost use Rattle.world_sim.specs.Rows.{as_number};
ghost use Rattle.world_sim.specs.Keeping.{HasTurn, KeepsUp};
ghost use Rattle.world_sim.specs.Glances.{glance_of};

use crate::glance::{Glance, glance_of};
use crate::rows::{Row, change_three};
use crate::table::Beside;
use tn_types::MAX_OBJECTS;
use world_cells::spot;
use world_places::Places;
use world_rules::movers::turn_mine;
use world_rules::{Mine, Object, State};

// Whether a mine is armed.
fn armed_number(o: &Object) -> u32
    ensures { result ≡ as_number (is_armed_part o.now.state) }
{
    match &o.state {
        State::Mine(m) => u32::from(m.armed),
        _ => 0,
    }
}

// A mine that is armed since this turn asks for a look from now on. It stays where it is.
fn note_armed(was: bool, number: u32, object: &Object, places: &mut Places)
    requires number { number < MAX_OBJECTS }
    requires mine { is_special object.now ≡ is_armed_part object.now.state }
    ensures { (before behind : List Object) (old : Object) → length before ≡ number → object.now.place ≡ old.place
        → is_special old ≡ was → PlaceFits object.now.place
        → ArePlaced places.old (before ++ old ∷ behind) → ArePlaced places.new (before ++ object.now ∷ behind) }
{
    if !was && armed_number(object) > 0 {
        places.settle(number, object);
    }
}

/// A mine's tick, where it lies.
#[inline(never)]
pub fn step_mine(
    number: u32,
    ending: bool,
    m: Mine,
    object: &mut Object,
    row: &mut Row,
    glance: &mut Glance,
    beside: &mut Beside,
)
    requires turn { HasTurn number object.old row.old beside.old }
    requires mine { object.old.state ≡ mine_of m }
    requires glance { glance.old ≡ glance_of object.old }
    ensures object { object.new ≡ mine_next ending object.old m }
    ensures glance { glance.new ≡ glance_of object.new }
    ensures keeps_up { KeepsUp number object.old object.new row.old row.new beside.old beside.new }
{
    let from = spot(object);
    turn_mine(ending, object, &m);
    let armed = armed_number(object);
    let now = object.place;
    change_three(number, row, now.x, now.y, armed, &mut beside.writes);
    *glance = glance_of(object);
    note_armed(m.armed, number, object, &mut beside.places);
    beside.cells.shift(number, from, spot(object));
}
