//! A client's scans, packs and shows, which read the world.
ghost use Rattle.std.specs.Prelude.{◌≡◌, ℕ, ◌<◌, ◌+◌, ◌^◌, List, ◌∷◌, OnOk, IfOk, length, map};
ghost use Rattle.std.specs.List.{All};
ghost use Rattle.match_script.specs.declared.types.BodyLine.{BodyLine as OneLine};
ghost use Rattle.match_script.specs.declared.types.Head.{Head};
ghost use Rattle.match_laws.specs.own_lists.Counted.{counted_in};
ghost use Rattle.match_laws.specs.own_lists.Kept.{packs, drains_of};
ghost use Rattle.world_sim.specs.Worlds.{Worlds};
ghost use Rattle.match_engine.specs.Stands.{IsMarked};
ghost use Rattle.match_laws.specs.own_lists.Past.{client_terms, kept_by, after, showing_of};
ghost use Rattle.match_script.specs.declared.types.BodyLine.TheVariants as script;
ghost use Rattle.match_laws.specs.Report.{told_after};
ghost use Rattle.match_engine.specs.Serving.{Serves, OthersStay};

use crate::lanes::{clear_all, drain_all, written_of};
use crate::values::{WorldValues, note_all};
use client_scope::Scope;
use dirty_lanes::PlainLanes;
use ghost_scope::PlaceNotes;
use match_laws::client_seat::Seat;
use match_laws::own_lists::Showing;
use match_report::Told;
use match_script::MAX_COUNTED_LINES;
use notify_window::SendState;
use std::alloc::{AllocError, Global};
use tn_types::{Drain, NoMemory};
use world_rules::flags::is_player;
use world_scope::{Seen, visible};
use world_sim::World;

/// What a pack of this seat drains.
fn drains_for(
    seat: &Seat,
    scope: &Scope,
    lanes: &mut PlainLanes,
    client: u8,
    drains: &mut Vec<Drain>,
) -> Result<(), AllocError>
    requires serves { (w : Worlds) × (h : Head) × (past : List OneLine) × Serves seat.now scope.now w lanes.old client h past }
    ensures drains { OnOk result ((w : Worlds) (h : Head) (past : List OneLine) → Serves seat.now scope.now w lanes.old client h past
        → drains.new.items ≡ drains_of (client_terms h client) (kept_by h (after h past) client)) }
    ensures marks { OnOk result ((w : Worlds) (h : Head) (past : List OneLine) → Serves seat.now scope.now w lanes.old client h past
        → All (IsMarked lanes.new client (packs (client_terms h client) (kept_by h (after h past) client))) scope.now.shown) }
    ensures others { OthersStay client lanes.old lanes.new }
{
    drains.clear();
    match seat.pack_state() {
        SendState::Room => drain_all(lanes, client, scope.shown(), drains),
        SendState::Held | SendState::Worn => Ok(()),
    }
}

/// The server packs for a client.
pub(crate) fn pack_for(
    alloc: Global,
    seat: &mut Seat,
    scope: &Scope,
    world: &World,
    lanes: &mut PlainLanes,
    client: u8,
    room: &mut Room,
) -> Result<Told, NoMemory>
    requires serves { (h : Head) × (past : List OneLine) × Serves seat.old scope.now world.now lanes.old client h past
        × (counted_in past < MAX_COUNTED_LINES) }
    ensures told { IfOk result (λ told. (h : Head) (past : List OneLine) → Serves seat.old scope.now world.now lanes.old client h past
        → told ≡ told_after h past (script.Pack client)) }
    ensures serves { OnOk result ((h : Head) (past : List OneLine) → Serves seat.old scope.now world.now lanes.old client h past
        → counted_in past < MAX_COUNTED_LINES → Serves seat.new scope.now world.now lanes.new client h (script.Pack client ∷ past)) }
    ensures others { OnOk result (OthersStay client lanes.old lanes.new) }
    ensures keeping { seat.new.pair.keeps_all ≡ seat.old.pair.keeps_all }
{
    let Ok(()) = drains_for(seat, scope, lanes, client, &mut room.drains) else {
        return Err(NoMemory);
    };
    let shown = scope.shown();
    note_all(&mut room.places, shown);
    let mut values = WorldValues {
        world,
        shown,
        places: &room.places,
    };
    seat.pack(alloc, client, &room.drains, &mut values)
}

/// What a client has is told.
pub(crate) fn show_for(
    alloc: Global,
    seat: &Seat,
    scope: &Scope,
    lanes: &PlainLanes,
    client: u8,
    written: &mut Vec<Drain>,
) -> Result<Told, NoMemory>
    requires serves { (w : Worlds) × (h : Head) × (past : List OneLine) × Serves seat.now scope.now w lanes.now client h past }
    ensures { IfOk result (λ told. (w : Worlds) (h : Head) (past : List OneLine) → Serves seat.now scope.now w lanes.now client h past
        → told ≡ told_after h past (script.Show client)) }
{
    let Ok(()) = written_of(lanes, client, scope.shown(), written) else {
        return Err(NoMemory);
    };
    seat.show(alloc, client, written)
}

/// How periods of these objects begin.
fn showings(
    world: &World,
    client: u8,
    shows: &[Seen],
    out: &mut Vec<Showing>,
) -> Result<(), AllocError>
    requires { All (λ s. s.object < length world.now.objects) shows.now }
    ensures { OnOk result (out.new.items ≡ map (showing_of world.now client) shows.now) }
{
    out.clear();
    for s in shows {
        let object = &world.all_objects()[s.object as usize];
        out.push(Showing {
            kind: object.kind(),
            block: object.block,
            level: s.level,
            control: is_player(client, object),
        })?;
    }
    Ok(())
}

/// The scope of a client is brought up to date.
pub(crate) fn scan_for(
    alloc: Global,
    seat: &mut Seat,
    scope: &mut Scope,
    world: &World,
    lanes: &mut PlainLanes,
    client: u8,
    room: &mut Room,
) -> Result<Told, NoMemory>
    requires serves { (h : Head) × (past : List OneLine) × Serves seat.old scope.old world.now lanes.old client h past
        × (counted_in past < MAX_COUNTED_LINES) }
    ensures told { IfOk result (λ told. (h : Head) (past : List OneLine) → Serves seat.old scope.old world.now lanes.old client h past
        → told ≡ told_after h past (script.Scan client)) }
    ensures serves { OnOk result ((h : Head) (past : List OneLine) → Serves seat.old scope.old world.now lanes.old client h past
        → counted_in past < MAX_COUNTED_LINES → Serves seat.new scope.new world.now lanes.new client h (script.Scan client ∷ past)) }
    ensures others { OnOk result (OthersStay client lanes.old lanes.new) }
    ensures keeping { seat.new.pair.keeps_all ≡ seat.old.pair.keeps_all }
{
    visible(alloc, world, client, &mut room.seen)?;
    scope.scan(alloc, &room.seen)?;
    let Ok(()) = showings(world, client, scope.shows(), &mut room.shows) else {
        return Err(NoMemory);
    };
    clear_all(lanes, client, scope.shows());
    seat.scan(scope.hides(), scope.nears(), &room.shows);
    Ok(Told::Scan {
        client,
        hides: scope.hides().len(),
        nears: scope.nears().len(),
        shows: scope.shows().len(),
    })
}

/// Room that a line works in.
#[derive(Drop)]
pub(crate) struct Room {
    pub(crate) seen: Vec<Seen>,
    pub(crate) shows: Vec<Showing>,
    pub(crate) drains: Vec<Drain>,
    pub(crate) places: PlaceNotes,
}
