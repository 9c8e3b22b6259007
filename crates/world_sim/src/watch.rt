//! Which plots lie so near a standing player that it triggers a mine in them: at most four for each, since a mine reaches
//! less than a plot is wide. Plots are smaller than cells, so that few mines lie in one that is watched.
ghost use Rattle.std.specs.Prelude.{◌≡◌, ℕ, ◌<◌, ◌+◌, ◌-◌, ◌*◌, ◌/◌, min, true, false, length, slice_set, slice_index_or};
ghost use Rattle.world_rules.specs.declared.object.Place.{Place};
ghost use Rattle.world_rules.specs.Places.{is_within};
ghost use Rattle.world_rules.specs.Ranges.{PlaceFits};
ghost use Rattle.world_sim.specs.Searches.{plot_of, AreWatched};

use world_rules::measures::MINE_REACH;
use world_rules::{Object, Place};

// How wide and how high a plot is, in centimetres.
const PLOT_SIDE: u32 = 1024;

// Plots in a row, and rows.
const PLOTS_ACROSS: u32 = 64;

/// All plots.
pub const PLOTS: usize = 4096;

// The plot that a place lies in.
fn plot_of(place: &Place) -> u16
    ensures { result ≡ plot_of place.now }
{
    let row = place.y / PLOT_SIDE % PLOTS_ACROSS;
    let column = place.x / PLOT_SIDE % PLOTS_ACROSS;
    (row * PLOTS_ACROSS + column) as u16
}

/// Whether a place lies in a plot that is watched.
pub fn is_watched(watched: &[bool], place: &Place) -> bool
    requires { length watched.now ≡ PLOTS }
    ensures { result ≡ slice_index_or watched.now (plot_of place.now) false }
{
    watched[plot_of(place) as usize]
}

// This plot is watched.
fn watch_plot(row: u16, column: u16, watched: &mut [bool])
    requires row { row < PLOTS_ACROSS }
    requires column { column < PLOTS_ACROSS }
    requires room { length watched.old ≡ PLOTS }
    ensures { watched.new ≡ slice_set watched.old (row * PLOTS_ACROSS + column) true }
{
    watched[(row * PLOTS_ACROSS as u16 + column) as usize] = true;
}

// The first column or row of plots that is near enough.
fn first_near(at: u32) -> u16
    ensures { result ≡ min ((at - MINE_REACH) / PLOT_SIDE) (PLOTS_ACROSS - 1) }
{
    (at.saturating_sub(MINE_REACH) / PLOT_SIDE).min(PLOTS_ACROSS - 1) as u16
}

// The last one.
fn last_near(at: u32) -> u16
    ensures { result ≡ min ((at + MINE_REACH) / PLOT_SIDE) (PLOTS_ACROSS - 1) }
{
    (at.saturating_add(MINE_REACH) / PLOT_SIDE).min(PLOTS_ACROSS - 1) as u16
}

// The plots near a place are watched.
#[tactic(auto, using(crate::proofs::Watching::four_long))]
fn watch_round(place: &Place, watched: &mut [bool])
    requires { length watched.old ≡ PLOTS }
    ensures room { length watched.new ≡ PLOTS }
    ensures kept { (c : ℕ) → slice_index_or watched.old c false ≡ true → slice_index_or watched.new c false ≡ true }
    ensures near { (q : Place) → PlaceFits q → is_within MINE_REACH place.now q ≡ true
        → slice_index_or watched.new (plot_of q) false ≡ true }
{
    let columns = (first_near(place.x), last_near(place.x));
    let rows = (first_near(place.y), last_near(place.y));
    watch_plot(rows.0, columns.0, watched);
    watch_plot(rows.0, columns.1, watched);
    watch_plot(rows.1, columns.0, watched);
    watch_plot(rows.1, columns.1, watched);
}

/// The plots near each of these are watched.
pub fn watch_all(standing: &[Object], watched: &mut [bool])
    requires { length watched.old ≡ PLOTS }
    ensures room { length watched.new ≡ PLOTS }
    ensures near { AreWatched standing.now watched.new }
{
    for p in standing {
        watch_round(&p.place, watched);
    }
}
