//! A viewer as it is kept.
ghost use Rattle.std.specs.Prelude.{◌≡◌, ◌<◌, ◌≤◌, IfOk, IfSome, reverse, length};
ghost use Rattle.tn_types.specs.declared.limits.TheConstants.{MAX_SLOTS};
ghost use Rattle.ghost_client.specs.StandsFor.{StandsFor as CopiesStandFor};
ghost use Rattle.demo_view.specs.Stands.{AreFew, AreSeen};
ghost use Rattle.demo_view.specs.Keeping.{AreCreates};

use crate::viewer::Viewer;
use datablocks::BlockReceiver;
use event_manager::EventReceiver;
use ghost_client::{Copies, GhostCopy};
use quantised_fields::KindTable;
use std::alloc::Global;
use std::marker::Model;
use tn_types::{MAX_SLOTS, NoMemory};
use wire_format::{GhostItem, GhostList, Levels};

/// What is kept of a viewer: all but the place where packets are read and the table of kinds, and of its copies those alone that
/// are there.
pub struct KeptViewer {
    pub(crate) client: u8,
    pub(crate) version: u8,
    pub(crate) horizon: u32,
    pub(crate) blocks: BlockReceiver,
    pub(crate) events: EventReceiver,
    // what would create each copy, by rising slot
    pub(crate) creates: Vec<GhostItem>,
}

// Written out, as for a viewer.
impl Drop for KeptViewer {
    fn drop(self) {
        let KeptViewer {
            client: _client,
            version: _version,
            horizon: _horizon,
            blocks: _blocks,
            events: _events,
            creates: _creates,
        } = self;
    }
}

impl Model for KeptViewer {
    ghost use Rattle.std.specs.Prelude.{reverse};
    ghost use Rattle.demo_view.specs.Stands.{AreFew};
    ghost use Rattle.demo_view.specs.Keeping.{KeptState};

    ghost Value = { KeptState };

    ghost view = { λ k. record {
      client = k.client;
      version = k.version;
      horizon = k.horizon;
      blocks = k.blocks;
      events = k.events;
      creates = reverse k.creates.items;
    } };

    ghost invariant = { λ k. AreFew k.horizon k.events };
}

impl KeptViewer {
    ghost use Rattle.demo_view.specs.Keeping.{Keeps, StandsLike};

    /// The viewer that was kept, in memory of its own; the table of kinds is that of this viewer.
    pub fn again(&self, alloc: Global, kinds: &KindTable) -> Result<Viewer, NoMemory>
        requires fits { AreCreates kinds.now MAX_SLOTS self.now.creates }
        ensures same { IfOk result (λ v. Keeps v self.now) }
        ensures stands { IfOk result (StandsLike self.now) }
        ensures kinds { IfOk result (λ v. v.copies.kinds ≡ kinds.now) }
    {
        let blocks = self.blocks.try_clone(alloc)?;
        let events = self.events.try_clone(alloc)?;
        let copies = created(alloc, kinds, self.creates.as_slice())?;
        Viewer::of_parts(
            alloc,
            self.client,
            self.version,
            self.horizon,
            blocks,
            events,
            copies,
        )
    }
}

/// How many copies there are.
fn count_copies(copies: &Copies) -> usize
    ensures { result ≤ MAX_SLOTS }
{
    let mut count = 0;
    'slots: for slot in 0..MAX_SLOTS {
        if copies.get(slot as u8).is_some() {
            count += 1;
        }
    }
    count
}

/// What would create each copy, by rising slot.
pub(crate) fn creates_of(alloc: Global, copies: &Copies) -> Result<Vec<GhostItem>, NoMemory>
    requires { AreSeen copies.now }
    ensures creates { IfOk result (λ all. AreCreates copies.now.kinds MAX_SLOTS (reverse all.items)) }
    ensures stands { IfOk result (λ all. CopiesStandFor copies.now (reverse all.items)) }
{
    let Ok(mut all) = Vec::with_capacity(alloc, count_copies(copies)) else {
        return Err(NoMemory);
    };
    'slots: for slot in 0..MAX_SLOTS {
        if let Some(copy) = copies.get(slot as u8) {
            let Ok(()) = all.push(create_of(slot as u8, copy)) else {
                return Err(NoMemory);
            };
        }
    }
    Ok(all)
}

/// What would create a copy in a slot.
fn create_of(slot: u8, copy: &GhostCopy) -> GhostItem
    ensures { result ≡ GhostItem.Create slot copy.now.kind copy.now.block copy.now.levels }
{
    GhostItem::Create {
        slot,
        kind: copy.kind,
        block: copy.block,
        levels: copied(&copy.levels),
    }
}

/// The same levels again.
fn copied(levels: &Levels) -> Levels
    ensures { result ≡ levels.now }
{
    let mut list = Levels::new();
    'levels: for level in levels.as_slice() {
        list.push(*level);
    }
    list
}

/// The same item again.
fn copied_item(item: &GhostItem) -> GhostItem
    ensures { result ≡ item.now }
{
    match item {
        GhostItem::Kill { slot } => GhostItem::Kill { slot: *slot },
        GhostItem::Create {
            slot,
            kind,
            block,
            levels,
        } => GhostItem::Create {
            slot: *slot,
            kind: *kind,
            block: *block,
            levels: copied(levels),
        },
        GhostItem::Update {
            slot,
            kind,
            mask,
            levels,
        } => GhostItem::Update {
            slot: *slot,
            kind: *kind,
            mask: *mask,
            levels: copied(levels),
        },
    }
}

/// The copies that these create.
fn created(alloc: Global, kinds: &KindTable, creates: &[GhostItem]) -> Result<Copies, NoMemory>
    requires { AreCreates kinds.now MAX_SLOTS (reverse creates.now) }
    ensures kinds { IfOk result (λ c. c.kinds ≡ kinds.now) }
    ensures stands { IfOk result (λ c. CopiesStandFor c (reverse creates.now)) }
    ensures seen { IfOk result AreSeen }
{
    let mut copies = Copies::new(alloc, kinds)?;
    let mut one = GhostList::new();
    'creates: for create in creates {
        one.clear();
        one.push(copied_item(create));
        // which datablocks are held was asked when the copy came
        copies.take_checked(&one, u64::MAX);
    }
    Ok(copies)
}
