//! The items of scans and ticks, read from a match.
ghost use Rattle.std.specs.Prelude.{◌≡◌, ◌<◌, ◌++◌, [], ◌∷◌, IfOk, OnOk, length, map};
ghost use Rattle.std.specs.List.{All, filter_map};
ghost use Rattle.own_lists.specs.Own as own;
ghost use Rattle.own_lists.specs.Past as past;
ghost use Rattle.own_items.specs.Items.{show_of, write_of, item_of};

use crate::items::{Hides, Nears, OwnItem, OwnShow, OwnWrite, OwnWrites, Shows};
use client_scope::{Scope, ShownPeriod};
use match_report::ValueList;
use std::alloc::{AllocError, Global};
use tn_types::NoMemory;
use world_rules::flags::is_player;
use world_scope::Seen;
use world_sim::{World, Write};

/// How periods of these objects begin, with the values of each.
fn shows_of(
    alloc: Global,
    world: &World,
    client: u8,
    seen: &[Seen],
) -> Result<Vec<OwnShow>, AllocError>
    requires { All (λ s. s.object < length world.now.objects) seen.now }
    ensures { IfOk result (λ shows. map show_of shows.items ≡ map (past.own_show world.now client) seen.now) }
{
    let mut shows = Vec::new(alloc);
    for s in seen {
        let object = &world.all_objects()[s.object as usize];
        shows.push(OwnShow {
            kind: object.kind(),
            block: object.block,
            level: s.level,
            control: is_player(client, object),
            values: ValueList::from_slice(world.values(s.object)),
        })?;
    }
    Ok(shows)
}

/// Puts a write to a period's object after the others.
#[tactic(auto, using(crate::proofs::MadeItems::no_write, crate::proofs::MadeItems::one_write))]
fn put_write(period: &ShownPeriod, w: &Write, out: &mut Vec<OwnWrite>) -> Result<(), AllocError>
    ensures { OnOk result (map write_of out.new.items
        ≡ map write_of out.old.items ++ filter_map (past.write_of period.now) (w.now ∷ [])) }
{
    let same = w.object == period.object;
    if same {
        out.push(OwnWrite {
            n: period.n,
            field: w.field,
            value: w.value,
        })?;
        return Ok(());
    }
    Ok(())
}

/// Puts the writes to a period's object after the others.
fn put_writes(
    period: &ShownPeriod,
    writes: &[Write],
    out: &mut Vec<OwnWrite>,
) -> Result<(), AllocError>
    ensures { OnOk result (map write_of out.new.items
        ≡ map write_of out.old.items ++ filter_map (past.write_of period.now) writes.now) }
{
    for w in writes {
        put_write(period, w, out)?;
    }
    Ok(())
}

/// The writes of the world's last tick to the objects of these periods, by period.
fn writes_of(
    alloc: Global,
    world: &World,
    periods: &[ShownPeriod],
) -> Result<Vec<OwnWrite>, AllocError>
    ensures { IfOk result (λ writes. map write_of writes.items ≡ past.own_writes world.now periods.now) }
{
    let mut all = Vec::new(alloc);
    for period in periods {
        put_writes(period, world.writes(), &mut all)?;
    }
    Ok(all)
}

/// The item of a client's last scan.
pub(crate) fn scan_item(
    alloc: Global,
    world: &World,
    scope: &Scope,
    client: u8,
) -> Result<OwnItem, NoMemory>
    requires { All (λ s. s.object < length world.now.objects) scope.now.shows }
    ensures { IfOk result (λ item. item_of item
        ≡ own.Scan scope.now.hides scope.now.nears (map (past.own_show world.now client) scope.now.shows)) }
{
    let Ok(hides) = scope.hides().to_vec(alloc) else {
        return Err(NoMemory);
    };
    let Ok(nears) = scope.nears().to_vec(alloc) else {
        return Err(NoMemory);
    };
    let Ok(shows) = shows_of(alloc, world, client, scope.shows()) else {
        return Err(NoMemory);
    };
    Ok(OwnItem::Scan {
        hides: Hides::from_vec(hides),
        nears: Nears::from_vec(nears),
        shows: Shows::from_vec(shows),
    })
}

/// The item of a tick, which took so many moves from the client.
pub(crate) fn tick_item(
    alloc: Global,
    world: &World,
    scope: &Scope,
    taken: u32,
) -> Result<OwnItem, NoMemory>
    ensures { IfOk result (λ item. item_of item ≡ own.Tick (past.own_writes world.now scope.now.shown) taken) }
{
    let Ok(writes) = writes_of(alloc, world, scope.shown()) else {
        return Err(NoMemory);
    };
    Ok(OwnItem::Tick {
        writes: OwnWrites::from_vec(writes),
        taken,
    })
}
