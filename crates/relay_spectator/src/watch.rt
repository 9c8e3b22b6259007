//! Which period of a spectator watches each slot of the relay's copies.
ghost use Rattle.std.specs.Prelude.{◌≡◌, ◌<◌, ◌≤◌, ◌+◌, ◌^◌, ℕ, None, Some, OnOk, IfOk, length, map, filter_map, if◌then◌else◌};
ghost use Rattle.ghost_client.specs.State.{copy_in};
ghost use Rattle.alone_server.specs.own_items.Items.{show_of as show_told, write_of as write_told};
ghost use Rattle.relay_model.specs.Watching.{Watched, all_watched};
ghost use Rattle.relay_model.specs.Items.{shown_of, values_of};
ghost use Rattle.alone_server.specs.Periods.{is_among};
ghost use Rattle.relay_spectator.specs.Watches.{period_at, write_at, IsWatch};
ghost use Rattle.relay_spectator.specs.Beginning.{BeginsAt, ShowsAt};

use alone_server::own_items::{Hides, OwnShow, OwnWrite, OwnWrites, Shows};
use ghost_client::{Copies, GhostCopy};
use match_report::ValueList;
use relay_board::{Change, none_beyond, value_of};
use std::alloc::{AllocError, Global};
use std::marker::Model;
use tn_types::{MAX_SLOTS, NoMemory};

/// For each slot of the relay's copies the period of a spectator that watches it, if one does, and how many periods there were.
///
/// A clause sees `WatchState`.
#[derive(Drop)]
pub(crate) struct Watch {
    periods: Vec<Option<u32>>,
    shows: u32,
}

impl Model for Watch {
    ghost use Rattle.std.specs.Prelude.{◌≡◌, length};
    ghost use Rattle.tn_types.specs.declared.limits.TheConstants.{MAX_SLOTS};
    ghost use Rattle.relay_spectator.specs.Watches.{WatchState};

    ghost Value = { WatchState };

    ghost view = { λ w. record { periods = w.periods.items; shows = w.shows } };

    ghost invariant = { λ w. length w.periods.items ≡ MAX_SLOTS };
}

// No slot is watched.
fn none_watched(alloc: Global) -> Result<Vec<Option<u32>>, AllocError>
    ensures len { IfOk result (λ periods. length periods.items ≡ MAX_SLOTS) }
    ensures none { IfOk result (λ periods. (slot : ℕ) → period_at periods.items slot ≡ None) }
{
    let mut periods = Vec::with_capacity(alloc, MAX_SLOTS)?;
    while periods.len() < MAX_SLOTS {
        periods.push(None)?;
    }
    Ok(periods)
}

// The values that the fields of the copy in a slot show.
fn values_of(copies: &Copies, slot: u8, copy: &GhostCopy) -> ValueList
    requires { copy_in copies.now.slots slot ≡ Some copy.now }
    ensures { result ≡ values_of copies.now.kinds copy.now }
{
    let mut values = ValueList::new();
    for field in 0..copy.levels.as_slice().len() {
        values.push(value_of(copies, slot, field as u8));
    }
    values
}

impl Watch {
    /// Nothing is watched.
    pub(crate) fn new(alloc: Global) -> Result<Watch, NoMemory>
        ensures none { IfOk result (λ w. (slot : ℕ) → period_at w.periods slot ≡ None) }
        ensures shows { IfOk result (λ w. w.shows ≡ 0) }
    {
        match none_watched(alloc) {
            Ok(periods) => Ok(Watch { periods, shows: 0 }),
            Err(_) => Err(NoMemory),
        }
    }

    // The period that watches a slot.
    fn period(&self, slot: u8) -> Option<u32>
        ensures { result ≡ period_at self.now.periods slot }
    {
        self.periods[slot as usize]
    }

    /// The periods that watch these slots.
    pub(crate) fn hides(&self, alloc: Global, killed: &[u8]) -> Result<Hides, AllocError>
        ensures { IfOk result (λ hides. hides ≡ filter_map (period_at self.now.periods) killed.now) }
    {
        let mut hides = Vec::new(alloc);
        for slot in killed {
            if let Some(n) = self.period(*slot) {
                hides.push(n)?;
            }
        }
        Ok(Hides::from_vec(hides))
    }

    /// What is written of the periods that watch the slots of these changes.
    pub(crate) fn writes(&self, alloc: Global, changed: &[Change]) -> Result<OwnWrites, AllocError>
        ensures { IfOk result (λ writes. map write_told writes ≡ filter_map (write_at self.now.periods) changed.now) }
    {
        let mut writes = Vec::new(alloc);
        for change in changed {
            if let Some(n) = self.period(change.slot) {
                writes.push(OwnWrite {
                    n,
                    field: change.field,
                    value: change.value,
                })?;
            }
        }
        Ok(OwnWrites::from_vec(writes))
    }

    /// These slots are watched no more.
    pub(crate) fn leave(&mut self, killed: &[u8])
        ensures periods { (slot : ℕ) → period_at self.new.periods slot
            ≡ (if is_among slot killed.now then None else period_at self.old.periods slot) }
        ensures shows { self.new.shows ≡ self.old.shows }
    {
        for slot in killed {
            self.periods[*slot as usize] = None;
        }
    }

    // A period begins for the copy in a slot, where none watches it.
    fn begin_at(
        &mut self,
        copies: &Copies,
        slot: u8,
        shows: &mut Vec<OwnShow>,
    ) -> Result<(), AllocError>
        requires { self.old.shows + 1 < 2 ^ 32 }
        ensures watched { OnOk result (BeginsAt self.old copies.now slot self.new) }
        ensures shows { OnOk result (ShowsAt self.old copies.now slot shows.old.items shows.new.items) }
        ensures few { self.new.shows ≤ self.old.shows + 1 }
    {
        if self.period(slot).is_some() {
            return Ok(());
        }
        let Some(copy) = copies.get(slot) else {
            return Ok(());
        };
        shows.push(OwnShow {
            kind: copy.kind,
            block: copy.block,
            level: 0,
            control: false,
            values: values_of(copies, slot, copy),
        })?;
        self.periods[slot as usize] = Some(self.shows);
        self.shows += 1;
        Ok(())
    }

    /// A period begins for each copy that none watches, by rising slot.
    pub(crate) fn begin(&mut self, alloc: Global, copies: &Copies) -> Result<Shows, AllocError>
        requires { self.old.shows + MAX_SLOTS < 2 ^ 32 }
        ensures shows { IfOk result (λ shows. (w : Watched) → IsWatch self.old w
            → map show_told shows ≡ shown_of copies.now.kinds (copy_in copies.now.slots) w) }
        ensures watched { OnOk result ((w : Watched) → IsWatch self.old w
            → IsWatch self.new (all_watched (copy_in copies.now.slots) w)) }
    {
        none_beyond(copies);
        let mut shows = Vec::new(alloc);
        for slot in 0..MAX_SLOTS {
            self.begin_at(copies, slot as u8, &mut shows)?;
        }
        Ok(Shows::from_vec(shows))
    }
}
