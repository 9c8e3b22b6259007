//! The items of a packet, part by part.
ghost use Rattle.std.specs.Prelude.{◌≡◌, ◌≤◌};
ghost use Rattle.packet_parts.specs.Parts.{Tells, counted_told};
ghost use Rattle.packet_parts.specs.Telling.{header_told, optional_told, byte_told, block_told, event_told, world_move_told, wide_move_told, move_told, item_told, listed_told};

use crate::part::PartName;
use crate::reader::{Halt, PartReader};
use crate::widths::{
    BLOCK_LENGTH_WIDTH, BLOCK_NUMBER_WIDTH, BYTE_WIDTH, CLIENT_WIDTH, EVENT_LENGTH_WIDTH,
    FLAG_WIDTH, LOW_NUMBER_WIDTH, LOW_VERSION, MASK_WIDTH, MAX_NUMBER, NUMBER_WIDTH, OWN_VERSION,
    STEP_WIDTH,
};
use quantised_fields::KindTable;
use tn_types::{MAX_BLOCK_BYTES, MAX_EVENT_BYTES, MAX_MOVE_BITS, MAX_WORD_BITS};
use wire_format::{BitsCause, HeldKinds, Wire};

/// What stands in a list of a packet, and by what it is read.
#[derive(Drop)]
pub(crate) enum Item<'k> {
    Block,
    Event {
        version: u8,
    },
    Move {
        wire: Wire,
    },
    Ghost {
        version: u8,
        kinds: &'k KindTable,
        held: &'k HeldKinds,
    },
}

impl<'a> PartReader<'a> {
    /// A header after its kind.
    #[tactic(auto, unfolding(crate::specs::Telling::header_told))]
    pub(crate) fn header(&mut self) -> Result<(), Halt>
        ensures read { Tells result self.new (header_told self.old) }
        ensures whole { self.new.whole ≡ self.old.whole }
    {
        self.part(PartName::Client, CLIENT_WIDTH)?;
        self.within(
            PartName::Seq,
            BitsCause::ZeroSeq,
            1,
            MAX_NUMBER,
            NUMBER_WIDTH,
        )?;
        self.part(PartName::Horizon, NUMBER_WIDTH)?;
        self.part(PartName::Mask, MASK_WIDTH)?;
        Ok(())
    }

    /// A flag, and after a set one a number of `width` bits.
    #[tactic(auto, unfolding(crate::specs::Telling::optional_told))]
    pub(crate) fn optional(
        &mut self,
        flag: PartName,
        name: PartName,
        width: u32,
    ) -> Result<(), Halt>
        requires { width ≤ MAX_WORD_BITS }
        ensures read { Tells result self.new (optional_told flag name width self.old) }
        ensures whole { self.new.whole ≡ self.old.whole }
    {
        if self.part(flag, FLAG_WIDTH)? == 0 {
            return Ok(());
        }
        self.part(name, width)?;
        Ok(())
    }

    /// A byte.
    #[tactic(auto, unfolding(crate::specs::Telling::byte_told))]
    fn byte(&mut self, name: PartName) -> Result<(), Halt>
        ensures read { Tells result self.new (byte_told name self.old) }
        ensures whole { self.new.whole ≡ self.old.whole }
    {
        self.part(name, BYTE_WIDTH)?;
        Ok(())
    }

    /// As many bytes as were counted.
    fn bytes(&mut self, name: PartName, count: u32) -> Result<(), Halt>
        ensures read { Tells result self.new (counted_told (byte_told name) count self.old) }
        ensures whole { self.new.whole ≡ self.old.whole }
    {
        for _ in 0..count {
            self.byte(name)?;
        }
        Ok(())
    }

    /// A datablock.
    #[tactic(auto, unfolding(crate::specs::Telling::block_told))]
    fn block(&mut self) -> Result<(), Halt>
        ensures read { Tells result self.new (block_told self.old) }
        ensures whole { self.new.whole ≡ self.old.whole }
    {
        self.part(PartName::BlockNumber, BLOCK_NUMBER_WIDTH)?;
        let count = self.within(
            PartName::BlockLength,
            BitsCause::LengthBits,
            0,
            MAX_BLOCK_BYTES as u32,
            BLOCK_LENGTH_WIDTH,
        )?;
        self.bytes(PartName::BlockByte, count)
    }

    /// An event.
    #[tactic(auto, unfolding(crate::specs::Telling::event_told))]
    fn event(&mut self, version: u8) -> Result<(), Halt>
        ensures read { Tells result self.new (event_told version self.old) }
        ensures whole { self.new.whole ≡ self.old.whole }
    {
        let width = if version >= LOW_VERSION {
            LOW_NUMBER_WIDTH
        } else {
            NUMBER_WIDTH
        };
        self.optional(PartName::EventFlag, PartName::EventNumber, width)?;
        let count = self.within(
            PartName::EventLength,
            BitsCause::LengthBits,
            0,
            MAX_EVENT_BYTES as u32,
            EVENT_LENGTH_WIDTH,
        )?;
        self.bytes(PartName::EventByte, count)
    }

    /// A move of versions 1 and 2.
    #[tactic(auto, unfolding(crate::specs::Telling::world_move_told))]
    fn world_move(&mut self) -> Result<(), Halt>
        ensures read { Tells result self.new (world_move_told self.old) }
        ensures whole { self.new.whole ≡ self.old.whole }
    {
        self.part(PartName::StepX, STEP_WIDTH)?;
        self.part(PartName::StepY, STEP_WIDTH)?;
        self.part(PartName::Fire, FLAG_WIDTH)?;
        self.part(PartName::Use, FLAG_WIDTH)?;
        Ok(())
    }

    /// A move of version 3.
    #[tactic(auto, unfolding(crate::specs::Telling::wide_move_told))]
    fn wide_move(&mut self, width: u32) -> Result<(), Halt>
        requires { width ≤ MAX_MOVE_BITS }
        ensures read { Tells result self.new (wide_move_told width self.old) }
        ensures whole { self.new.whole ≡ self.old.whole }
    {
        if width <= MAX_WORD_BITS {
            self.part(PartName::MoveLow, width)?;
            return Ok(());
        }
        self.part(PartName::MoveLow, MAX_WORD_BITS)?;
        self.part(PartName::MoveHigh, width - MAX_WORD_BITS)?;
        Ok(())
    }

    /// A move.
    fn one_move(&mut self, wire: Wire) -> Result<(), Halt>
        ensures read { Tells result self.new (move_told wire self.old) }
        ensures whole { self.new.whole ≡ self.old.whole }
    {
        if wire.version < OWN_VERSION {
            self.world_move()
        } else {
            self.wide_move(u32::from(wire.move_bits).min(MAX_MOVE_BITS))
        }
    }

    /// An item of a list.
    fn item(&mut self, item: &Item<'_>) -> Result<(), Halt>
        ensures read { Tells result self.new (item_told item.now self.old) }
        ensures whole { self.new.whole ≡ self.old.whole }
    {
        match item {
            Item::Block => self.block(),
            Item::Event { version } => self.event(*version),
            Item::Move { wire } => self.one_move(*wire),
            Item::Ghost {
                version,
                kinds,
                held,
            } => self.one_ghost(*version, kinds, held),
        }
    }

    /// As many items as were counted.
    fn items(&mut self, item: &Item<'_>, count: u32) -> Result<(), Halt>
        ensures read { Tells result self.new (counted_told (item_told item.now) count self.old) }
        ensures whole { self.new.whole ≡ self.old.whole }
    {
        for _ in 0..count {
            self.item(item)?;
        }
        Ok(())
    }

    /// A count of `width` bits, at most `most`, and then so many items.
    #[tactic(auto, unfolding(crate::specs::Telling::listed_told))]
    pub(crate) fn list(
        &mut self,
        name: PartName,
        most: usize,
        width: u32,
        item: &Item<'_>,
    ) -> Result<(), Halt>
        requires width { width ≤ MAX_WORD_BITS }
        requires most { most ≤ 1000 }
        ensures read { Tells result self.new (listed_told name most width (item_told item.now) self.old) }
        ensures whole { self.new.whole ≡ self.old.whole }
    {
        let count = self.within(name, BitsCause::CountBits, 0, most as u32, width)?;
        self.items(item, count)
    }
}
