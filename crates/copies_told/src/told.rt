//! The copies as a list that a report prints.
ghost use Rattle.std.specs.Prelude.{◌≡◌, IfOk, List, Some};
ghost use Rattle.wire_format.specs.declared.ghosts.GhostItem.{GhostItem as Item};
ghost use Rattle.ghost_client.specs.declared.copy.GhostCopy.{GhostCopy as Ghost};
ghost use Rattle.ghost_client.specs.State.{copy_in};
ghost use Rattle.ghost_client.specs.StandsFor.{StandsFor};
ghost use Rattle.copies_told.specs.Told.{fields_told, copies_told};

use ghost_client::Copies;
use match_report::{CopyList, CopyTold, FieldList, FieldTold};
use std::alloc::Global;
use tn_types::{MAX_FIELDS, MAX_SLOTS, NoMemory};

// What is told of the fields of the copy in a slot.
fn fields_of(copies: &Copies, slot: u8) -> FieldList
    ensures { (copy : Ghost) → copy_in copies.now.slots slot ≡ Some copy → result ≡ fields_told copies.now.kinds copy }
{
    let mut fields = FieldList::new();
    for field in 0..MAX_FIELDS as u8 {
        if let Some(value) = copies.value(slot, field) {
            fields.push(FieldTold {
                value,
                settled: false,
            });
        }
    }
    fields
}

/// What is told of the copies, by rising slot: for every list of ghosts that they stand for, each slot's copy with the value that each
/// level shows, and no field marked as settled. An error says that memory was not to be had.
pub fn copies_told(alloc: Global, copies: &Copies) -> Result<CopyList, NoMemory>
    ensures { IfOk result (λ list. (items : List Item) → StandsFor copies.now items → list ≡ copies_told copies.now.kinds items) }
{
    let mut list = CopyList::new(alloc);
    for slot in 0..MAX_SLOTS {
        if let Some(copy) = copies.get(slot as u8) {
            list.push(
                alloc,
                CopyTold {
                    slot: slot as u8,
                    kind: copy.kind,
                    block: copy.block,
                    fields: fields_of(copies, slot as u8),
                },
            )?;
        }
    }
    Ok(list)
}
