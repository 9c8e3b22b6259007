ghost use Rattle.std.specs.Prelude.{◌≡◌, ◌+◌, ◌-◌, ◌*◌, ◌/◌, ◌%◌, ◌^◌, ◌<◌, ◌≤◌, ◌↔◌, ◌++◌, length, IsErr, OnErr, IfOk, IsNone, IfSome};
ghost use Rattle.bit_stream.specs.Bits.{number, bits_of};
ghost use Rattle.bit_stream.specs.Reading.{number_at, end_at, Gives};

use crate::accumulator::joined;
use std::marker::Model;
use tn_types::{MAX_READ_BYTES, MAX_WORD_BITS};

/// The bytes that are taken at once.
const WORD_BYTES: usize = 4;

/// Fewer bits are left than a number has.
#[derive(Clone, Copy, Debug, PartialEq, Eq)]
pub struct Short {
    /// The bit at which the number begins, counted from 0.
    pub place: u32,
}

/// More is left than zero bits up to a whole byte.
#[derive(Clone, Copy, Debug, PartialEq, Eq)]
pub struct PaddingFault {
    /// The first bit that was not read, counted from 0.
    pub place: u32,
}

/// Bytes that are read as numbers of a few bits each. A contract sees the number of bits read and
/// the bits that are left.
#[derive(Drop)]
pub struct BitReader<'a> {
    rest: &'a [u8],
    pending: u64,
    count: u32,
    place: u32,
}

impl<'a> Model for BitReader<'a> {
    ghost use Rattle.bit_stream.specs.Reading.{Unread};

    ghost Value = { Unread };

    ghost use Rattle.bit_stream.specs.Reader.{unread, IsReader};

    ghost view = { unread };

    ghost invariant = { IsReader };
}

/// The number that four bytes are, the first byte lowest.
fn word_of(bytes: &[u8; WORD_BYTES]) -> u32
    ensures { number MAX_WORD_BITS result ≡ bits_of bytes.now }
{
    u32::from_le_bytes(*bytes)
}

/// Takes bytes into the pending bits, one by one, until there are `width` of them.
fn fill_by_bytes(rest: &[u8], pending: u64, count: u32, width: u32) -> (&[u8], u64, u32)
    requires below { pending < 2 ^ count }
    requires few { count < width }
    requires narrow { width ≤ MAX_WORD_BITS }
    requires enough { width ≤ count + 8 * length rest.now }
    ensures bits { number result.2 result.1 ++ bits_of result.0.now ≡ number count pending ++ bits_of rest.now }
    ensures below { result.1 < 2 ^ result.2 }
    ensures enough { width ≤ result.2 }
    ensures few { result.2 < width + 8 }
    ensures len { result.2 + 8 * length result.0.now ≡ count + 8 * length rest.now }
{
    let mut rest = rest;
    let mut pending = pending;
    let mut count = count;
    while count < width {
        let (first, others) = rest.split_at(1);
        pending = joined(pending, count, u32::from(first[0]), 8);
        count += 8;
        rest = others;
    }
    (rest, pending, count)
}

/// Sees to it that there are `width` pending bits: takes the next four bytes where there are not so many, and the last bytes
/// one by one. None exactly where fewer bits are left, which is only asked where fewer are pending.
fn fill(rest: &[u8], pending: u64, count: u32, width: u32) -> Option<(&[u8], u64, u32)>
    requires below { pending < 2 ^ count }
    requires few { count < 2 * MAX_WORD_BITS }
    requires narrow { width ≤ MAX_WORD_BITS }
    requires fits { length rest.now ≤ MAX_READ_BYTES }
    ensures short { IsNone result ↔ (count + 8 * length rest.now < width) }
    ensures bits { IfSome result (λ r. number r.2 r.1 ++ bits_of r.0.now ≡ number count pending ++ bits_of rest.now) }
    ensures below { IfSome result (λ r. r.1 < 2 ^ r.2) }
    ensures enough { IfSome result (λ r. width ≤ r.2) }
    ensures few { IfSome result (λ r. r.2 < 2 * MAX_WORD_BITS) }
    ensures len { IfSome result (λ r. r.2 + 8 * length r.0.now ≡ count + 8 * length rest.now) }
{
    if width <= count {
        return Some((rest, pending, count));
    }
    if (count as usize + 8 * rest.len()) < width as usize {
        return None;
    }
    match rest.split_first_chunk::<WORD_BYTES>() {
        Some((word, others)) => {
            let more = joined(pending, count, word_of(word), MAX_WORD_BITS);
            Some((others, more, count + MAX_WORD_BITS))
        }
        None => Some(fill_by_bytes(rest, pending, count, width)),
    }
}

/// The lowest `width` bits, and what is above them.
fn split(pending: u64, width: u32) -> (u32, u64)
    requires { width ≤ MAX_WORD_BITS }
    ensures low { result.0 ≡ pending % 2 ^ width }
    ensures high { result.1 ≡ pending / 2 ^ width }
{
    let low = pending & ((1 << width) - 1);
    (low as u32, pending >> width)
}

impl<'a> BitReader<'a> {
    /// Begins at bit 0 of these bytes, at most 65,536 of them.
    pub fn new(bytes: &'a [u8]) -> Self
        requires { length bytes.now ≤ MAX_READ_BYTES }
        ensures place { result.place ≡ 0 }
        ensures rest { result.rest ≡ bits_of bytes.now }
    {
        BitReader {
            rest: bytes,
            pending: 0,
            count: 0,
            place: 0,
        }
    }

    /// A reader that stands where this one does.
    pub fn copy(&self) -> BitReader<'a>
        ensures { result ≡ self.now }
    {
        BitReader {
            rest: self.rest,
            pending: self.pending,
            count: self.count,
            place: self.place,
        }
    }

    /// The number of bits read so far, which is the place of the next bit.
    pub fn place(&self) -> u32
        ensures { result ≡ self.now.place }
    {
        self.place
    }

    /// Reads the number that the next `width` bits are, at most 32, the least bit first.
    ///
    /// Answers [`Short`] exactly where fewer bits are left, and the reader then stays as it was.
    pub fn take(&mut self, width: u32) -> Result<u32, Short>
        requires { width ≤ MAX_WORD_BITS }
        ensures read { Gives result self.new (number_at width self.old) }
        ensures short { IsErr result ↔ (length self.old.rest < width) }
        ensures fits { IfOk result (λ n. n < 2 ^ width) }
        ensures err { OnErr result (self.new ≡ self.old) }
    {
        let Some((rest, pending, count)) = fill(self.rest, self.pending, self.count, width) else {
            return Err(Short { place: self.place });
        };
        let (low, high) = split(pending, width);
        self.rest = rest;
        self.pending = high;
        self.count = count - width;
        self.place += width;
        Ok(low)
    }

    /// Tells whether a datagram may end here: at most seven bits are left, and none of them is set.
    ///
    /// Answers [`PaddingFault`] exactly where more are left or one is set.
    pub fn end(&self) -> Result<(), PaddingFault>
        ensures { result ≡ end_at self.now }
    {
        let left = self.count as usize + 8 * self.rest.len();
        if left < 8 && self.pending == 0 {
            Ok(())
        } else {
            Err(PaddingFault { place: self.place })
        }
    }
}
