//! The messages of one scan.
ghost use Rattle.std.specs.Prelude.{◌≡◌, ◌<◌, ◌≤◌, ◌+◌, ◌^◌, List, ◌∷◌, ◌++◌, OnOk, length, map};
ghost use Rattle.std.specs.List.{All};
ghost use Rattle.world_scope.specs.declared.viewer.Seen.{Seen as OneSeen};
ghost use Rattle.world_scope.specs.Scope.{visible_list};
ghost use Rattle.client_scope.specs.StandsFor.{StandsFor};
ghost use Rattle.race_course.specs.Messages.{hide_message, near_message, show_message, scan_messages};

use client_scope::{Near, Scope};
use race_messages::Message;
use std::alloc::{AllocError, Global};
use tn_types::{MAX_OBJECTS, NoMemory};
use world_rules::flags::is_player;
use world_scope::{Seen, visible};
use world_sim::World;

#[tactic(auto, using(crate::proofs::Adding::one_added))]
fn add_hides(hides: &[u32], into: &mut Vec<Message>) -> Result<(), AllocError>
    ensures { OnOk result (into.new.items ≡ into.old.items ++ map hide_message hides.now) }
{
    for n in hides {
        into.push(Message::Hide { n: *n })?;
    }
    Ok(())
}

#[tactic(auto, using(crate::proofs::Adding::one_added))]
fn add_nears(nears: &[Near], into: &mut Vec<Message>) -> Result<(), AllocError>
    ensures { OnOk result (into.new.items ≡ into.old.items ++ map near_message nears.now) }
{
    for p in nears {
        into.push(Message::Near {
            n: p.n,
            level: p.level,
        })?;
    }
    Ok(())
}

#[tactic(auto, using(crate::proofs::Adding::one_added))]
fn add_shows(
    world: &World,
    client: u8,
    shows: &[Seen],
    into: &mut Vec<Message>,
) -> Result<(), AllocError>
    requires { All (λ s. s.object < length world.now.objects) shows.now }
    ensures { OnOk result (into.new.items ≡ into.old.items ++ map (show_message world.now client) shows.now) }
{
    for s in shows {
        let object = &world.all_objects()[s.object as usize];
        into.push(Message::Show {
            object: s.object,
            kind: object.kind(),
            block: object.block,
            level: s.level,
            control: is_player(client, object),
        })?;
    }
    Ok(())
}

// What the last scan changed.
fn add_changes(
    world: &World,
    client: u8,
    scope: &Scope,
    into: &mut Vec<Message>,
) -> Result<(), AllocError>
    requires { All (λ s. s.object < length world.now.objects) scope.now.shows }
    ensures { OnOk result (into.new.items ≡ into.old.items ++ (map hide_message scope.now.hides ++ (map near_message scope.now.nears
        ++ map (show_message world.now client) scope.now.shows))) }
{
    add_hides(scope.hides(), into)?;
    add_nears(scope.nears(), into)?;
    add_shows(world, client, scope.shows(), into)
}

/// Makes a scan of a client in this world, and adds its messages: first the hides, then the new levels, then the shows, each by
/// rising number. After an `Err` the scan may have been made, and some of its messages may be missing.
pub fn scan_messages(
    alloc: Global,
    world: &World,
    client: u8,
    scope: &mut Scope,
    into: &mut Vec<Message>,
) -> Result<(), NoMemory>
    requires stands { (scans : List (List OneSeen)) × StandsFor scope.old scans }
    requires few { scope.old.count + MAX_OBJECTS < 2 ^ 32 }
    ensures stands { OnOk result ((scans : List (List OneSeen)) → StandsFor scope.old scans
        → StandsFor scope.new (visible_list world.now client ∷ scans)) }
    ensures messages { OnOk result ((scans : List (List OneSeen)) → StandsFor scope.old scans
        → into.new.items ≡ into.old.items ++ scan_messages world.now client (visible_list world.now client ∷ scans)) }
    ensures some { (scans : List (List OneSeen)) × StandsFor scope.new scans }
    ensures count { scope.new.count ≤ scope.old.count + MAX_OBJECTS }
{
    let Ok(mut seen) = Vec::with_capacity(alloc, world.objects() as usize) else {
        return Err(NoMemory);
    };
    visible(alloc, world, client, &mut seen)?;
    scope.scan(alloc, &seen)?;
    let Ok(()) = add_changes(world, client, scope, into) else {
        return Err(NoMemory);
    };
    Ok(())
}
