//! Reading that keeps each part that was read.
ghost use Rattle.std.specs.Prelude.{◌≡◌, ◌≤◌, ◌<◌, ◌↔◌, ◌^◌, [], length, Some, None, Ok, IfOk, OnOk, OnErr, List, Bool};
ghost use Rattle.bit_stream.specs.Bits.{bits_of};
ghost use Rattle.bit_stream.specs.Reading.{end_at};
ghost use Rattle.quantised_fields.specs.declared.kind.Kind.{Kind};
ghost use Rattle.wire_format.specs.Reading.{part_at, such_at, within_at};
ghost use Rattle.wire_format.specs.Ghosts.{kind_number_at, field_mask_at};
ghost use Rattle.packet_parts.specs.Parts.{told, behind, begun, closed, Tells, IsTold};

use crate::packets::Telling;
use crate::part::{Part, PartList, PartName};
use crate::widths::KIND_NUMBER_WIDTH;
use bit_stream::BitReader;
use quantised_fields::KindTable;
use std::alloc::Global;
use std::marker::Model;
use tn_types::{MAX_READ_BYTES, MAX_WORD_BITS};
use wire_format::{BitsCause, BitsFault};

/// Why reading stops.
#[derive(Clone, Copy, Debug, PartialEq, Eq)]
pub(crate) enum Halt {
    /// The part that begins here is faulty.
    Fault(BitsCause),
    /// There was no memory for a further part.
    NoMemory,
}

/// A datagram, the parts that were read, and what is left of it.
#[derive(Drop)]
pub(crate) struct PartReader<'a> {
    bytes: &'a [u8],
    reader: BitReader<'a>,
    parts: PartList,
}

impl<'a> Model for PartReader<'a> {
    ghost use Rattle.bit_stream.specs.Bits.{bits_of};
    ghost use Rattle.packet_parts.specs.Parts.{Told, IsTold};

    ghost Value = { Told };

    ghost view = { λ r. record { whole = bits_of r.bytes.now; parts = r.parts; unread = r.reader } };

    ghost invariant = { λ r. IsTold (record { whole = bits_of r.bytes.now; parts = r.parts; unread = r.reader }) };
}

impl<'a> PartReader<'a> {
    /// Nothing was read of these bytes yet.
    #[tactic(auto, using(crate::proofs::Kept::begins))]
    pub(crate) fn new(alloc: Global, bytes: &'a [u8]) -> Self
        requires { length bytes.now ≤ MAX_READ_BYTES }
        ensures { result ≡ begun bytes.now }
    {
        PartReader {
            bytes,
            reader: BitReader::new(bytes),
            parts: PartList::new(alloc),
        }
    }

    /// The number that the next bits are, and the reader after it, or that there are not so many.
    #[tactic(auto, unfolding(wire_format::specs::Reading::part_at))]
    fn peek(&self, width: u32) -> Result<(u32, BitReader<'a>), BitsFault>
        requires { width ≤ MAX_WORD_BITS }
        ensures read { result ≡ part_at width self.now.unread }
        ensures fits { IfOk result (λ r. r.0 < 2 ^ width) }
    {
        let mut own = self.reader.copy();
        match own.take(width) {
            Ok(value) => Ok((value, own)),
            Err(short) => Err(BitsFault {
                place: short.place,
                cause: BitsCause::Short,
            }),
        }
    }

    /// Keeps the part that was looked at.
    fn keep(
        &mut self,
        name: PartName,
        width: u32,
        value: u32,
        reader: BitReader<'a>,
    ) -> Result<u32, Halt>
        requires { part_at width self.old.unread ≡ Ok (value, reader) }
        ensures read { Tells result self.new (Ok (value, behind name width self.old (value, reader.entry))) }
        ensures whole { self.new.whole ≡ self.old.whole }
        ensures same { IfOk result (λ n. n ≡ value) }
    {
        let part = Part {
            bit: self.reader.place(),
            width,
            name,
            value,
        };
        match self.parts.push(part) {
            Ok(()) => {
                self.reader = reader;
                Ok(value)
            }
            Err(_) => Err(Halt::NoMemory),
        }
    }

    /// A number of `width` bits.
    #[tactic(auto, unfolding(crate::specs::Parts::told))]
    pub(crate) fn part(&mut self, name: PartName, width: u32) -> Result<u32, Halt>
        requires { width ≤ MAX_WORD_BITS }
        ensures read { Tells result self.new (told name width (part_at width) self.old) }
        ensures whole { self.new.whole ≡ self.old.whole }
        ensures fits { IfOk result (λ n. n < 2 ^ width) }
    {
        match self.peek(width) {
            Ok((value, reader)) => self.keep(name, width, value, reader),
            Err(fault) => Err(Halt::Fault(fault.cause)),
        }
    }

    /// A number of `width` bits from `least` to `most`; another one is a fault where it begins.
    #[tactic(auto, unfolding(crate::specs::Parts::told, wire_format::specs::Reading::such_at))]
    pub(crate) fn within(
        &mut self,
        name: PartName,
        cause: BitsCause,
        least: u32,
        most: u32,
        width: u32,
    ) -> Result<u32, Halt>
        requires { width ≤ MAX_WORD_BITS }
        ensures read { Tells result self.new (told name width (within_at cause least most width) self.old) }
        ensures whole { self.new.whole ≡ self.old.whole }
        ensures range { IfOk result (λ n. n ≤ most) }
    {
        match self.peek(width) {
            Ok((value, reader)) => {
                if least <= value && value <= most {
                    self.keep(name, width, value, reader)
                } else {
                    Err(Halt::Fault(cause))
                }
            }
            Err(fault) => Err(Halt::Fault(fault.cause)),
        }
    }

    /// The number of a kind of the table.
    #[tactic(auto, unfolding(crate::specs::Parts::told, wire_format::specs::Reading::such_at))]
    pub(crate) fn kind_number(&mut self, kinds: &KindTable) -> Result<u8, Halt>
        ensures read { Tells result self.new (told PartName.GhostKind KIND_NUMBER_WIDTH (kind_number_at kinds.now) self.old) }
        ensures whole { self.new.whole ≡ self.old.whole }
    {
        match self.peek(KIND_NUMBER_WIDTH) {
            Ok((value, reader)) => {
                if kinds.kind(value as u8).is_none() {
                    return Err(Halt::Fault(BitsCause::UnknownKind));
                }
                self.keep(PartName::GhostKind, KIND_NUMBER_WIDTH, value, reader)?;
                Ok(value as u8)
            }
            Err(fault) => Err(Halt::Fault(fault.cause)),
        }
    }

    /// A mask of the fields of a kind, at least one of them set.
    #[tactic(auto, unfolding(crate::specs::Parts::told, wire_format::specs::Reading::such_at))]
    pub(crate) fn field_mask(&mut self, kind: u8, width: u32) -> Result<u32, Halt>
        requires { width ≤ MAX_WORD_BITS }
        ensures read { Tells result self.new (told (PartName.FieldMask kind) width (field_mask_at width) self.old) }
        ensures whole { self.new.whole ≡ self.old.whole }
    {
        match self.peek(width) {
            Ok((value, reader)) => {
                if value == 0 {
                    return Err(Halt::Fault(BitsCause::EmptyMask));
                }
                self.keep(PartName::FieldMask { kind }, width, value, reader)
            }
            Err(fault) => Err(Halt::Fault(fault.cause)),
        }
    }

    /// What was told, and whether a datagram may end here.
    pub(crate) fn close(self) -> Telling
        ensures telling { result ≡ closed self.entry (end_at self.entry.unread) }
        ensures parts { IsTold self.entry }
    {
        let fault = match self.reader.end() {
            Ok(()) => None,
            Err(_) => Some(BitsFault {
                place: self.reader.place(),
                cause: BitsCause::Padding,
            }),
        };
        Telling {
            parts: self.parts,
            fault,
        }
    }

    /// What was told before a fault.
    pub(crate) fn stop(self, cause: BitsCause) -> Telling
        ensures parts { IsTold self.entry }
        ensures list { result.parts ≡ self.entry.parts }
        ensures fault { result.fault ≡ Some (record { place = self.entry.unread.place; cause = cause }) }
    {
        let place = self.reader.place();
        Telling {
            parts: self.parts,
            fault: Some(BitsFault { place, cause }),
        }
    }
}
