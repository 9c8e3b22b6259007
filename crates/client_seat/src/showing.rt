//! What a client has: its counts and its copies.
ghost use Rattle.std.specs.Prelude.{◌≡◌, ◌<◌, ℕ, List, false, Option, IfOk, OnOk, length, option_map, slice_index_or, None, Some};
ghost use Rattle.std.specs.Option.{option_map_or};
ghost use Rattle.std.specs.List.{AllByRecursion};
ghost use Rattle.ghost_scope.specs.Shown.{IsUp};
ghost use Rattle.stream_manager.specs.Limits.{Terms};
ghost use Rattle.own_lists.specs.pair_core.History.{PairStep as Step, history};
ghost use Rattle.own_lists.specs.pair_core.Stands.{StandsFor};
ghost use Rattle.tn_types.specs.declared.choices.Drain.{Drain as Written};
ghost use Rattle.ghost_client.specs.declared.copy.GhostCopy.{GhostCopy as Ghost};
ghost use Rattle.ghost_client.specs.Copies.{copy_of};
ghost use Rattle.stream_manager.specs.Client.{ghosts_came};
ghost use Rattle.client_seat.specs.Told.{show_told, holder_at, is_newest, fields_told, copies_told};

use crate::seat::Seat;
use match_report::{CopyList, CopyTold, FieldList, FieldTold, Told};
use own_lists::pair_core::Pair;
use std::alloc::Global;
use tn_types::{Drain, MAX_FIELDS, MAX_SLOTS, NoMemory};

/// The period that holds each slot, of these.
fn holders(pair: &Pair, written: &[Drain]) -> [Option<Drain>; MAX_SLOTS]
    requires up { AllByRecursion (λ d. IsUp pair.now.conn.masks.periods d.n) written.now }
    ensures { (t : Terms) (steps : List Step) → StandsFor pair.now t steps → (at : ℕ) → at < MAX_SLOTS
        → slice_index_or result at None ≡ holder_at t steps written.now at }
{
    let mut holders = [None; MAX_SLOTS];
    for d in written {
        if let Some(slot) = pair.conn().slot(d.n) {
            if holders[slot as usize].is_none() {
                holders[slot as usize] = Some(*d);
            }
        }
    }
    holders
}

/// Whether the client has the newest value of the field of the period, if there is one.
fn is_settled(pair: &Pair, holder: &Option<Drain>, field: u8) -> bool
    requires field { field < MAX_FIELDS }
    requires up { (d : Written) → holder.now ≡ Some d → IsUp pair.now.conn.masks.periods d.n }
    ensures { (t : Terms) (steps : List Step) → StandsFor pair.now t steps
        → result ≡ option_map_or (is_newest t steps field) holder.now false }
{
    match holder {
        None => false,
        Some(d) => {
            let conn = pair.conn();
            conn.has_fields(d.n, 1 << field) && conn.settled(d.n, field) && d.bits >> field & 1 == 0
        }
    }
}

/// What is told of the fields of the copy in a slot, whose period is this one, if one holds it.
fn fields_of(pair: &Pair, slot: u8, holder: &Option<Drain>) -> FieldList
    requires up { (d : Written) → holder.now ≡ Some d → IsUp pair.now.conn.masks.periods d.n }
    ensures { (t : Terms) (steps : List Step) → StandsFor pair.now t steps → (copy : Ghost)
        → copy_of (ghosts_came (history t steps).client) slot ≡ Some copy → result ≡ fields_told t steps holder.now copy }
{
    let mut fields = FieldList::new();
    for field in 0..MAX_FIELDS as u8 {
        if let Some(value) = pair.client().copies().value(slot, field) {
            fields.push(FieldTold {
                value,
                settled: is_settled(pair, holder, field),
            });
        }
    }
    fields
}

/// What is told of a client's copies, by rising slot, where these are its periods that are up, each with its fields that were
/// written and not drained.
pub fn copies_of(alloc: Global, pair: &Pair, written: &[Drain]) -> Result<CopyList, NoMemory>
    requires stands { (t : Terms) × (steps : List Step) × StandsFor pair.now t steps }
    requires up { AllByRecursion (λ d. IsUp pair.now.conn.masks.periods d.n) written.now }
    ensures { IfOk result (λ copies. (t : Terms) (steps : List Step) → StandsFor pair.now t steps
        → copies ≡ copies_told t steps written.now) }
{
    let holders = holders(pair, written);
    let mut copies = CopyList::new(alloc);
    for slot in 0..MAX_SLOTS {
        if let Some(copy) = pair.client().copies().get(slot as u8) {
            copies.push(
                alloc,
                CopyTold {
                    slot: slot as u8,
                    kind: copy.kind,
                    block: copy.block,
                    fields: fields_of(pair, slot as u8, &holders[slot]),
                },
            )?;
        }
    }
    Ok(copies)
}

impl Seat {
    ghost use Rattle.client_seat.specs.Stands.{Stands, AreUp, Answers};

    /// What the client has, where these are its shown periods, each with its fields that were written and not drained.
    pub fn show(&self, alloc: Global, client: u8, written: &[Drain]) -> Result<Told, NoMemory>
        requires stands { Stands self.now }
        requires up { AreUp self.now written.now }
        ensures { IfOk result (Answers self.now (λ t k. show_told t k client written.now)) }
    {
        let copies = copies_of(alloc, &self.pair, written)?;
        let client_end = self.pair.client();
        Ok(Told::Show {
            client,
            events: client_end.delivered(),
            sampled: client_end.sampled(),
            accepted: self.pair.conn().accepted(),
            taken: self.taken,
            control: client_end.control(),
            copies,
        })
    }
}
