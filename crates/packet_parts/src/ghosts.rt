//! The ghosts of a packet, part by part.
ghost use Rattle.std.specs.Prelude.{◌≡◌, ◌≤◌, ◌<◌, All, length, map, None, Some};
ghost use Rattle.wire_format.specs.Ghosts.{widths, held_in};
ghost use Rattle.packet_parts.specs.Parts.{Tells};
ghost use Rattle.packet_parts.specs.Telling.{carries, level_told, levels_told, create_told, update_kind_told, update_told, ghost_told};

use crate::part::PartName;
use crate::reader::{Halt, PartReader};
use crate::widths::{BLOCK_NUMBER_WIDTH, CREATE, KILL, LOW_VERSION, OP_WIDTH, SLOT_WIDTH, UPDATE};
use quantised_fields::{FieldSpec, KindTable};
use tn_types::{MAX_FIELD_BITS, MAX_FIELDS};
use wire_format::{BitsCause, HeldKinds};

/// The fields of a kind; none where the table has no such kind.
fn fields_of(kinds: &KindTable, kind: u8) -> &[FieldSpec]
    ensures value { map (λ f. f.bits) result.now ≡ widths kinds.now kind }
    ensures few { length result.now ≤ MAX_FIELDS }
    ensures narrow { All (λ f. f.bits ≤ MAX_FIELD_BITS) result.now }
{
    match kinds.kind(kind) {
        None => &[],
        Some(kind) => kind.fields.as_slice(),
    }
}

/// Whether a mask has a field; with no mask each field is carried.
fn is_carried(mask: Option<u32>, field: usize) -> bool
    requires { field < MAX_FIELDS }
    ensures { result ≡ carries mask field }
{
    match mask {
        None => true,
        Some(mask) => (mask >> field) % 2 == 1,
    }
}

impl<'a> PartReader<'a> {
    /// The level of a field, where it is carried.
    #[tactic(auto, unfolding(crate::specs::Telling::level_told))]
    fn level(&mut self, kind: u8, mask: Option<u32>, field: usize, width: u32) -> Result<(), Halt>
        requires field { field < MAX_FIELDS }
        requires narrow { width ≤ MAX_FIELD_BITS }
        ensures read { Tells result self.new (level_told kind mask field width self.old) }
        ensures whole { self.new.whole ≡ self.old.whole }
    {
        if is_carried(mask, field) {
            let name = PartName::Level {
                kind,
                field: field as u8,
            };
            self.part(name, width)?;
        }
        Ok(())
    }

    /// The levels of the carried fields.
    fn levels(&mut self, kind: u8, mask: Option<u32>, fields: &[FieldSpec]) -> Result<(), Halt>
        requires few { length fields.now ≤ MAX_FIELDS }
        requires narrow { All (λ f. f.bits ≤ MAX_FIELD_BITS) fields.now }
        ensures read { Tells result self.new (levels_told kind mask 0 (map (λ f. f.bits) fields.now) self.old) }
        ensures whole { self.new.whole ≡ self.old.whole }
    {
        for field in 0..fields.len() {
            self.level(kind, mask, field, fields[field].bits)?;
        }
        Ok(())
    }

    /// What stands after the op of a create.
    #[tactic(auto, unfolding(crate::specs::Telling::create_told))]
    fn create(&mut self, kinds: &KindTable) -> Result<(), Halt>
        ensures read { Tells result self.new (create_told kinds.now self.old) }
        ensures whole { self.new.whole ≡ self.old.whole }
    {
        let kind = self.kind_number(kinds)?;
        self.part(PartName::GhostBlock, BLOCK_NUMBER_WIDTH)?;
        self.levels(kind, None, fields_of(kinds, kind))
    }

    /// The kind of an update: in version 2 the one that its slot held, which is no part.
    fn update_kind(&mut self, version: u8, kinds: &KindTable, held: Option<u8>) -> Result<u8, Halt>
        ensures read { Tells result self.new (update_kind_told version kinds.now held self.old) }
        ensures whole { self.new.whole ≡ self.old.whole }
    {
        if version < LOW_VERSION {
            return self.kind_number(kinds);
        }
        match held {
            Some(kind) => Ok(kind),
            None => Err(Halt::Fault(BitsCause::UnknownSlot)),
        }
    }

    /// What stands after the op of an update.
    #[tactic(auto, unfolding(crate::specs::Telling::update_told))]
    fn update(&mut self, version: u8, kinds: &KindTable, held: Option<u8>) -> Result<(), Halt>
        ensures read { Tells result self.new (update_told version kinds.now held self.old) }
        ensures whole { self.new.whole ≡ self.old.whole }
    {
        let kind = self.update_kind(version, kinds, held)?;
        let fields = fields_of(kinds, kind);
        let mask = self.field_mask(kind, fields.len() as u32)?;
        self.levels(kind, Some(mask), fields)
    }

    /// A ghost.
    #[tactic(auto, unfolding(crate::specs::Telling::ghost_told))]
    pub(crate) fn one_ghost(
        &mut self,
        version: u8,
        kinds: &KindTable,
        held: &HeldKinds,
    ) -> Result<(), Halt>
        ensures read { Tells result self.new (ghost_told version kinds.now (held_in held.now) self.old) }
        ensures whole { self.new.whole ≡ self.old.whole }
    {
        let slot = self.part(PartName::Slot, SLOT_WIDTH)?;
        let op = self.within(PartName::Op, BitsCause::OpBits, KILL, UPDATE, OP_WIDTH)?;
        if op == KILL {
            Ok(())
        } else if op == CREATE {
            self.create(kinds)
        } else {
            self.update(version, kinds, held.get(slot as u8))
        }
    }
}
