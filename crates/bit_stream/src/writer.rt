ghost use Rattle.std.specs.Prelude.{◌≡◌, ◌+◌, ◌*◌, ◌^◌, ◌<◌, ◌≤◌, ◌-◌, [], ◌++◌, length};
ghost use Rattle.bit_stream.specs.Bits.{number, bits_of, datagram, bytes_for};
ghost use Rattle.tn_types.specs.Bytes.{AreBytes};

use arrayvec::ArrayVec;
use std::marker::Model;
use tn_types::{MAX_DATAGRAM_BYTES, MAX_WORD_BITS};

/// The numbers that 32 bits hold.
const WORDS: u64 = 1 << MAX_WORD_BITS;

/// The bits that leave at once.
const LONG_BITS: u32 = 2 * MAX_WORD_BITS;

/// The bytes that these are.
const LONG_BYTES: usize = 8;

/// A buffer that takes numbers of a few bits each. A contract sees the bits so far, the bytes that
/// there is room for in all, and the whole bytes that stand in the buffer already.
#[derive(Drop)]
pub struct BitWriter {
    whole: ArrayVec<u8, MAX_DATAGRAM_BYTES>,
    pending: u64,
    count: u32,
    size: u32,
}

impl Model for BitWriter {
    ghost use Rattle.bit_stream.specs.Bits.{Written};

    ghost Value = { Written };

    ghost use Rattle.bit_stream.specs.Writer.{written, IsWriter};

    ghost view = { written };

    ghost invariant = { IsWriter };
}

/// The number that eight bytes are, the first byte lowest.
fn long_of(bytes: &[u8; LONG_BYTES]) -> u64
    ensures { number LONG_BITS result ≡ bits_of bytes.now }
{
    u64::from_le_bytes(*bytes)
}

/// Puts the `width` bits of a number after the pending bits. Where they are 64 or more, eight whole bytes leave. Gives the
/// bits that are pending then.
fn append(
    whole: &mut ArrayVec<u8, MAX_DATAGRAM_BYTES>,
    pending: u64,
    count: u32,
    value: u64,
    width: u32,
) -> (u64, u32)
    requires below { pending < 2 ^ count }
    requires few { count < LONG_BITS }
    requires fits { value < 2 ^ width }
    requires narrow { width ≤ LONG_BITS }
    requires room { 8 * length whole.old.items + (count + width) ≤ 8 * MAX_DATAGRAM_BYTES }
    ensures bits { bits_of whole.new.items ++ number result.1 result.0
        ≡ bits_of whole.old.items ++ (number count pending ++ number width value) }
    ensures below { result.0 < 2 ^ result.1 }
    ensures few { result.1 < LONG_BITS }
    ensures bytes { AreBytes whole.old.items → AreBytes whole.new.items }
    ensures len { 8 * length whole.new.items + result.1 ≡ 8 * length whole.old.items + (count + width) }
{
    let word = pending + (value << count);
    if count + width < LONG_BITS {
        return (word, count + width);
    }
    let Ok(()) = whole.try_extend_from_slice(&word.to_le_bytes()) else {
        unreachable!()
    };
    (
        (value >> 1) >> (LONG_BITS - 1 - count),
        count + width - LONG_BITS,
    )
}

/// Moves four whole bytes out of the pending bits where there are so many, and gives the bits that
/// are left.
fn flush(whole: &mut ArrayVec<u8, MAX_DATAGRAM_BYTES>, pending: u64, count: u32) -> (u64, u32)
    requires below { pending < 2 ^ count }
    requires few { count < LONG_BITS }
    requires room { 8 * length whole.old.items + count ≤ 8 * MAX_DATAGRAM_BYTES }
    ensures bits { bits_of whole.new.items ++ number result.1 result.0 ≡ bits_of whole.old.items ++ number count pending }
    ensures below { result.0 < 2 ^ result.1 }
    ensures few { result.1 < MAX_WORD_BITS }
    ensures bytes { AreBytes whole.old.items → AreBytes whole.new.items }
    ensures len { 8 * length whole.new.items + result.1 ≡ 8 * length whole.old.items + count }
{
    if count < MAX_WORD_BITS {
        return (pending, count);
    }
    let word = (pending % WORDS) as u32;
    let Ok(()) = whole.try_extend_from_slice(&word.to_le_bytes()) else {
        unreachable!()
    };
    (pending / WORDS, count - MAX_WORD_BITS)
}

/// Moves each whole byte out of the pending bits, and gives the bits that are left.
fn drain(whole: &mut ArrayVec<u8, MAX_DATAGRAM_BYTES>, pending: u64, count: u32) -> (u64, u32)
    requires below { pending < 2 ^ count }
    requires few { count < MAX_WORD_BITS }
    requires room { 8 * length whole.old.items + count ≤ 8 * MAX_DATAGRAM_BYTES }
    ensures bits { bits_of whole.new.items ++ number result.1 result.0 ≡ bits_of whole.old.items ++ number count pending }
    ensures below { result.0 < 2 ^ result.1 }
    ensures few { result.1 < 8 }
    ensures bytes { AreBytes whole.old.items → AreBytes whole.new.items }
    ensures len { 8 * length whole.new.items + result.1 ≡ 8 * length whole.old.items + count }
{
    let mut pending = pending;
    let mut count = count;
    while count >= 8 {
        whole.push((pending % 256) as u8);
        pending /= 256;
        count -= 8;
    }
    (pending, count)
}

/// Moves all of the pending bits out, the last byte filled with zero bits.
fn close(whole: &mut ArrayVec<u8, MAX_DATAGRAM_BYTES>, pending: u64, count: u32)
    requires below { pending < 2 ^ count }
    requires few { count < LONG_BITS }
    requires room { 8 * length whole.old.items + count ≤ 8 * MAX_DATAGRAM_BYTES }
    requires bytes { AreBytes whole.old.items }
    ensures bytes { whole.new.items ≡ datagram (bits_of whole.old.items ++ number count pending) }
    ensures are_bytes { AreBytes whole.new.items }
    ensures len { length whole.new.items ≡ bytes_for (bits_of whole.old.items ++ number count pending) }
{
    let (pending, count) = flush(whole, pending, count);
    let (pending, count) = drain(whole, pending, count);
    if count > 0 {
        whole.push(pending as u8);
    }
}

impl BitWriter {
    /// An empty buffer with room for `size` bytes, at most 1,200.
    pub fn new(size: u32) -> Self
        requires { size ≤ MAX_DATAGRAM_BYTES }
        ensures bits { result.bits ≡ [] }
        ensures size { result.size ≡ size }
    {
        BitWriter {
            whole: ArrayVec::new(),
            pending: 0,
            count: 0,
            size,
        }
    }

    /// Forgets what was written, and has room for `size` bytes from now on, at most 1,200. So one
    /// buffer serves one datagram after the other.
    pub fn begin(&mut self, size: u32)
        requires { size ≤ MAX_DATAGRAM_BYTES }
        ensures bits { self.new.bits ≡ [] }
        ensures size { self.new.size ≡ size }
    {
        self.whole.clear();
        self.pending = 0;
        self.count = 0;
        self.size = size;
    }

    /// The number of bits that there is still room for.
    pub fn room(&self) -> u32
        ensures { result + length self.now.bits ≡ 8 * self.now.size }
    {
        8 * self.size - 8 * self.whole.len() as u32 - self.count
    }

    /// Appends a number as `width` bits, at most 32, the least bit first. The caller sees to it that
    /// the number fits the width and the width fits [`room`](Self::room).
    pub fn put(&mut self, value: u32, width: u32)
        requires width { width ≤ MAX_WORD_BITS }
        requires fits { value < 2 ^ width }
        requires room { length self.old.bits + width ≤ 8 * self.old.size }
        ensures bits { self.new.bits ≡ self.old.bits ++ number width value }
        ensures len { length self.new.bits ≡ length self.old.bits + width }
        ensures size { self.new.size ≡ self.old.size }
    {
        self.put_long(u64::from(value), width);
    }

    /// Appends a number as `width` bits, at most 64, the least bit first, as [`put`](Self::put) does.
    pub fn put_long(&mut self, value: u64, width: u32)
        requires width { width ≤ 2 * MAX_WORD_BITS }
        requires fits { value < 2 ^ width }
        requires room { length self.old.bits + width ≤ 8 * self.old.size }
        ensures bits { self.new.bits ≡ self.old.bits ++ number width value }
        ensures len { length self.new.bits ≡ length self.old.bits + width }
        ensures size { self.new.size ≡ self.old.size }
    {
        let (pending, count) = append(&mut self.whole, self.pending, self.count, value, width);
        self.pending = pending;
        self.count = count;
    }

    /// Appends bytes, each as eight bits, where they have room. Eight of them are written at once as long as there are so many.
    pub fn put_bytes(&mut self, bytes: &[u8])
        requires room { length self.old.bits + 8 * length bytes.now ≤ 8 * self.old.size }
        ensures bits { self.new.bits ≡ self.old.bits ++ bits_of bytes.now }
        ensures len { length self.new.bits ≡ length self.old.bits + 8 * length bytes.now }
        ensures size { self.new.size ≡ self.old.size }
    {
        let mut rest = bytes;
        'bytes: while !rest.is_empty() {
            rest = self.put_first(rest);
        }
    }

    /// Appends the first eight bytes, or the first one where there are not so many, and gives the others.
    fn put_first<'a>(&mut self, bytes: &'a [u8]) -> &'a [u8]
        requires some { 0 < length bytes.now }
        requires room { length self.old.bits + 8 * length bytes.now ≤ 8 * self.old.size }
        ensures bits { self.new.bits ++ bits_of result.now ≡ self.old.bits ++ bits_of bytes.now }
        ensures len { length self.new.bits + 8 * length result.now ≡ length self.old.bits + 8 * length bytes.now }
        ensures size { self.new.size ≡ self.old.size }
        ensures fewer { length result.now < length bytes.now }
    {
        match bytes.split_first_chunk::<LONG_BYTES>() {
            Some((word, others)) => {
                self.put_long(long_of(word), LONG_BITS);
                others
            }
            None => {
                let (first, others) = bytes.split_at(1);
                self.put(u32::from(first[0]), 8);
                others
            }
        }
    }

    /// Fills the last byte with zero bits. All bytes of the datagram stand in the buffer then, and
    /// [`bytes`](Self::bytes) lends them.
    pub fn end(&mut self)
        ensures bytes { self.new.whole ≡ datagram self.old.bits }
        ensures len { length self.new.whole ≡ bytes_for self.old.bits }
        ensures few { length self.new.whole ≤ self.new.size }
        ensures bits { self.new.bits ≡ bits_of (datagram self.old.bits) }
        ensures size { self.new.size ≡ self.old.size }
    {
        close(&mut self.whole, self.pending, self.count);
        self.pending = 0;
        self.count = 0;
    }

    /// The whole bytes that stand in the buffer, lent: after [`end`](Self::end) those of the
    /// datagram. Before that up to eight of the last bytes may be missing.
    pub fn bytes(&self) -> &[u8]
        ensures { result.now ≡ self.now.whole }
    {
        self.whole.as_slice()
    }

    /// The bytes used, the last one filled with zero bits.
    pub fn finish(self) -> ArrayVec<u8, MAX_DATAGRAM_BYTES>
        ensures bytes { result.items ≡ datagram self.bits }
        ensures len { length result.items ≡ bytes_for self.bits }
    {
        let mut whole = self.whole;
        close(&mut whole, self.pending, self.count);
        whole
    }
}
