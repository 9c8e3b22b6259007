//! What a packet changed of the copies of the relay's client, found once for all spectators.
ghost use Rattle.std.specs.Prelude.{◌≡◌, ◌≤◌, ◌++◌, ◌&&◌, not, ℕ, is_some, None, Some, OnOk, IfOk, length, slice_index_or};
ghost use Rattle.std.specs.List.{filter_map};
ghost use Rattle.ghost_model.specs.Words.{upto};
ghost use Rattle.ghost_client.specs.declared.copy.GhostCopy.{GhostCopy as Ghost};
ghost use Rattle.ghost_client.specs.State.{copy_in};
ghost use Rattle.relay_model.specs.Items.{shown_at, is_changed};
ghost use Rattle.relay_board.specs.Changes.{killed_between, changed_between, change_of, changes_in};

use ghost_client::{Copies, GhostCopy};
use std::alloc::{AllocError, Global};
use std::marker::Model;
use tn_types::{MAX_SLOTS, NoMemory};
use wire_format::Levels;

// The greatest slot.
const LAST_SLOT: u8 = 255;

/// A field of a copy that shows another level than before, with the value that it shows now.
#[derive(Clone, Copy, Debug, PartialEq, Eq)]
pub struct Change {
    /// The copy's slot, 0 to 255.
    pub slot: u8,
    /// The field's number, 0 to 15.
    pub field: u8,
    /// The value of its new level.
    pub value: i64,
}

/// The copies of the relay's client as they were after the last packet that it took, and what this packet changed of them.
///
/// A clause sees `BoardState`.
#[derive(Drop)]
pub struct Board {
    slots: Vec<Option<GhostCopy>>,
    killed: Vec<u8>,
    changed: Vec<Change>,
}

impl Model for Board {
    ghost use Rattle.std.specs.Prelude.{◌≡◌, length};
    ghost use Rattle.tn_types.specs.declared.limits.TheConstants.{MAX_SLOTS};
    ghost use Rattle.relay_board.specs.Changes.{BoardState};

    ghost Value = { BoardState };

    ghost view = { λ b. record { slots = b.slots.items; killed = b.killed.items; changed = b.changed.items } };

    ghost invariant = { λ b. length b.slots.items ≡ MAX_SLOTS };
}

// No copy in any slot.
fn empty_slots(alloc: Global) -> Result<Vec<Option<GhostCopy>>, AllocError>
    ensures len { IfOk result (λ slots. length slots.items ≡ MAX_SLOTS) }
    ensures empty { IfOk result (λ slots. (slot : ℕ) → copy_in slots.items slot ≡ None) }
{
    let mut slots = Vec::with_capacity(alloc, MAX_SLOTS)?;
    while slots.len() < MAX_SLOTS {
        slots.push(None)?;
    }
    Ok(slots)
}

// The same levels again.
fn levels_again(levels: &Levels) -> Levels
    ensures { result ≡ levels.now }
{
    let mut list = Levels::new();
    for level in levels.as_slice() {
        list.push(*level);
    }
    list
}

// The copy in a slot once more, where there is one.
fn copy_again(copies: &Copies, slot: u8) -> Option<GhostCopy>
    ensures { result ≡ copy_in copies.now.slots slot }
{
    match copies.get(slot) {
        Some(copy) => Some(GhostCopy {
            kind: copy.kind,
            block: copy.block,
            levels: levels_again(&copy.levels),
        }),
        None => None,
    }
}

// The level of a field; 0 where the copy has no such field.
fn level_of(copy: &GhostCopy, field: usize) -> u32
    ensures { result ≡ slice_index_or copy.now.levels field 0 }
{
    match copy.levels.as_slice().get(field) {
        Some(level) => *level,
        None => 0,
    }
}

/// The value that a field of the copy in a slot shows.
pub fn value_of(copies: &Copies, slot: u8, field: u8) -> i64
    ensures { (copy : Ghost) → copy_in copies.now.slots slot ≡ Some copy → result ≡ shown_at copies.now.kinds copy field }
{
    copies.value(slot, field).unwrap_or(0)
}

// Whether a slot's copy isn't there any more.
fn is_killed(old: &[Option<GhostCopy>], copies: &Copies, slot: u8) -> bool
    requires { length old.now ≡ MAX_SLOTS }
    ensures { result ≡ (is_some (copy_in old.now slot) && not (is_some (copy_in copies.now.slots slot))) }
{
    old[slot as usize].is_some() && copies.get(slot).is_none()
}

// The slots whose copies aren't there any more.
fn find_killed(
    old: &[Option<GhostCopy>],
    copies: &Copies,
    killed: &mut Vec<u8>,
) -> Result<(), AllocError>
    requires { length old.now ≡ MAX_SLOTS }
    ensures { OnOk result (killed.new.items ≡ killed_between (copy_in old.now) (copy_in copies.now.slots)) }
{
    killed.clear();
    for slot in 0..MAX_SLOTS {
        if is_killed(old, copies, slot as u8) {
            killed.push(slot as u8)?;
        }
    }
    Ok(())
}

// Whether a field has another level than before.
fn is_changed(old: &GhostCopy, new: &GhostCopy, field: usize) -> bool
    ensures { result ≡ is_changed old.now new.now field }
{
    level_of(old, field) != level_of(new, field)
}

// The fields of a copy that have another level than before, put after the others.
fn put_changed(
    copies: &Copies,
    slot: u8,
    old: &GhostCopy,
    new: &GhostCopy,
    changed: &mut Vec<Change>,
) -> Result<(), AllocError>
    requires { copy_in copies.now.slots slot ≡ Some new.now }
    ensures { OnOk result (changed.new.items
        ≡ changed.old.items ++ filter_map (change_of copies.now.kinds slot old.now new.now) (upto (length new.now.levels))) }
{
    for field in 0..new.levels.as_slice().len() {
        if is_changed(old, new, field) {
            changed.push(Change {
                slot,
                field: field as u8,
                value: value_of(copies, slot, field as u8),
            })?;
        }
    }
    Ok(())
}

// The same for a slot, where it has a copy still.
fn put_slot(
    copies: &Copies,
    slot: u8,
    old: &Option<GhostCopy>,
    changed: &mut Vec<Change>,
) -> Result<(), AllocError>
    ensures { OnOk result (changed.new.items
        ≡ changed.old.items ++ changes_in copies.now.kinds slot old.now (copy_in copies.now.slots slot)) }
{
    match old {
        None => Ok(()),
        Some(was) => match copies.get(slot) {
            None => Ok(()),
            Some(is) => put_changed(copies, slot, was, is, changed),
        },
    }
}

// The fields of all copies that have another level than before.
fn find_changed(
    old: &[Option<GhostCopy>],
    copies: &Copies,
    changed: &mut Vec<Change>,
) -> Result<(), AllocError>
    requires { length old.now ≡ MAX_SLOTS }
    ensures { OnOk result (changed.new.items ≡ changed_between copies.now.kinds (copy_in old.now) (copy_in copies.now.slots)) }
{
    changed.clear();
    for slot in 0..MAX_SLOTS {
        put_slot(copies, slot as u8, &old[slot], changed)?;
    }
    Ok(())
}

/// No slot beyond the last one has a copy.
pub fn none_beyond(copies: &Copies)
    ensures { (slot : ℕ) → MAX_SLOTS ≤ slot → copy_in copies.now.slots slot ≡ None }
{
    let _none = copies.next_full(Some(LAST_SLOT));
}

// Keeps the copies as they are now.
fn keep(slots: &mut [Option<GhostCopy>], copies: &Copies)
    requires { length slots.old ≡ MAX_SLOTS }
    ensures { (slot : ℕ) → copy_in slots.new slot ≡ copy_in copies.now.slots slot }
{
    none_beyond(copies);
    for slot in 0..MAX_SLOTS {
        slots[slot] = copy_again(copies, slot as u8);
    }
}

impl Board {
    /// A relay's, whose client has no copies.
    pub fn new(alloc: Global) -> Result<Board, NoMemory>
        ensures { IfOk result (λ b. (slot : ℕ) → copy_in b.slots slot ≡ None) }
    {
        match empty_slots(alloc) {
            Ok(slots) => Ok(Board {
                slots,
                killed: Vec::new(alloc),
                changed: Vec::new(alloc),
            }),
            Err(_) => Err(NoMemory),
        }
    }

    /// The relay's client took a packet, and these are its copies now. After an error it may not be called again.
    pub fn follow(&mut self, copies: &Copies) -> Result<(), NoMemory>
        ensures killed { OnOk result (self.new.killed ≡ killed_between (copy_in self.old.slots) (copy_in copies.now.slots)) }
        ensures changed { OnOk result
            (self.new.changed ≡ changed_between copies.now.kinds (copy_in self.old.slots) (copy_in copies.now.slots)) }
        ensures slots { OnOk result ((slot : ℕ) → copy_in self.new.slots slot ≡ copy_in copies.now.slots slot) }
    {
        let Ok(()) = find_killed(&self.slots, copies, &mut self.killed) else {
            return Err(NoMemory);
        };
        let Ok(()) = find_changed(&self.slots, copies, &mut self.changed) else {
            return Err(NoMemory);
        };
        keep(&mut self.slots, copies);
        Ok(())
    }

    /// The slots whose copies the last packet killed, by rising slot.
    pub fn killed(&self) -> &[u8]
        ensures { result.now ≡ self.now.killed }
    {
        &self.killed
    }

    /// The fields to which the last packet gave another level, by rising slot and field.
    pub fn changed(&self) -> &[Change]
        ensures { result.now ≡ self.now.changed }
    {
        &self.changed
    }
}
