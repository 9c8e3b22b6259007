//! A line that is written where it is to stand: at the end of a text.
ghost use Rattle.std.specs.Prelude.{◌≡◌, ◌++◌, ◌*◌, ◌+◌, ◌<◌, ◌≤◌, [], OnOk, length, slice_index, if◌then◌else◌};
ghost use Rattle.std.specs.Result.{is_ok};
ghost use Rattle.std.specs.Fmt.{decimal, signed_decimal};
ghost use Rattle.hex.specs.Hex.{encode_lower, lower_digits};
ghost use Rattle.match_report.specs.Text.{hex_text};

use itoa::Buffer;
use std::alloc::AllocError;
use std::marker::Model;

/// A text with a line at its end that is still being written.
#[derive(Drop)]
pub(crate) struct Draft {
    text: Vec<u8>,
    // Where the line begins.
    start: usize,
}

impl Model for Draft {
    ghost use Rattle.std.specs.Prelude.{◌≤◌, length, take, drop};
    ghost use Rattle.match_report.specs.Drafts.{Written};

    ghost Value = { Written };

    ghost view = { λ d. record { before = take d.start d.text.items; line = drop d.start d.text.items } };

    ghost invariant = { λ d. d.start ≤ length d.text.items };
}

// The hexadecimal digit of a number: a sum and no table, so that many are made at once.
#[inline(always)]
fn digit(n: u8) -> u8
    requires { n < 16 }
    ensures { result ≡ slice_index lower_digits n }
{
    if n < 10 { b'0' + n } else { b'a' - 10 + n }
}

// The text of a number below 10.
fn code(digit: u32) -> u8
    requires { digit < 10 }
    ensures { result ≡ 48 + digit }
{
    b'0' + digit as u8
}

// Two digits for each byte.
fn write_pairs(bytes: &[u8], pairs: &mut [u8])
    requires { length pairs.old ≡ 2 * length bytes.now }
    ensures { pairs.new ≡ encode_lower bytes.now }
{
    'each: for i in 0..bytes.len() {
        let byte = bytes[i];
        pairs[2 * i] = digit(byte >> 4);
        pairs[2 * i + 1] = digit(byte & 0x0f);
    }
}

// Appends two digits for each byte.
fn append_pairs(text: &mut Vec<u8>, bytes: &[u8]) -> Result<(), AllocError>
    ensures { text.new.items ≡ (if is_ok result then text.old.items ++ encode_lower bytes.now else text.old.items) }
{
    let from = text.len();
    let Some(twice) = bytes.len().checked_mul(2) else {
        return Err(AllocError);
    };
    let Some(to) = from.checked_add(twice) else {
        return Err(AllocError);
    };
    text.resize(to, 0)?;
    let (_, pairs) = text.as_mut_slice().split_at_mut(from);
    write_pairs(bytes, pairs);
    Ok(())
}

impl Draft {
    /// A line that begins after this text.
    pub(crate) fn behind(text: Vec<u8>) -> Draft
        ensures before { result.before ≡ text.items }
        ensures line { result.line ≡ [] }
    {
        let start = text.len();
        Draft { text, start }
    }

    /// Appends these bytes to the line.
    #[inline(always)]
    pub(crate) fn push(&mut self, bytes: &[u8]) -> Result<(), AllocError>
        ensures line { OnOk result (self.new.line ≡ self.old.line ++ bytes.now) }
        ensures before { self.new.before ≡ self.old.before }
    {
        self.text.extend_from_slice(bytes)
    }

    /// Appends a word.
    #[inline(always)]
    pub(crate) fn push_str(&mut self, word: &str) -> Result<(), AllocError>
        ensures line { OnOk result (self.new.line ≡ self.old.line ++ word.now) }
        ensures before { self.new.before ≡ self.old.before }
    {
        self.push(word.as_bytes())
    }

    // Appends the digit of a number below 10.
    #[tactic(auto, using(crate::proofs::Digits::one_digit))]
    fn push_digit(&mut self, number: u8) -> Result<(), AllocError>
        requires { number < 10 }
        ensures line { OnOk result (self.new.line ≡ self.old.line ++ decimal number) }
        ensures before { self.new.before ≡ self.old.before }
    {
        self.push(&[b'0' + number])
    }

    // Appends the two digits of a number.
    #[tactic(auto, using(crate::proofs::Digits::two_digits))]
    fn push_two(&mut self, number: u32) -> Result<(), AllocError>
        requires least { 10 ≤ number }
        requires most { number < 100 }
        ensures line { OnOk result (self.new.line ≡ self.old.line ++ decimal number) }
        ensures before { self.new.before ≡ self.old.before }
    {
        self.push(&[code(number / 10), code(number % 10)])
    }

    // Appends the three digits of a number.
    #[tactic(auto, using(crate::proofs::Digits::three_digits))]
    fn push_three(&mut self, number: u32) -> Result<(), AllocError>
        requires least { 100 ≤ number }
        requires most { number < 1000 }
        ensures line { OnOk result (self.new.line ≡ self.old.line ++ decimal number) }
        ensures before { self.new.before ≡ self.old.before }
    {
        let front = number / 10;
        self.push(&[code(front / 10), code(front % 10), code(number % 10)])
    }

    // Appends the four digits of a number.
    #[tactic(auto, using(crate::proofs::Digits::four_digits))]
    fn push_four(&mut self, number: u32) -> Result<(), AllocError>
        requires least { 1000 ≤ number }
        requires most { number < 10000 }
        ensures line { OnOk result (self.new.line ≡ self.old.line ++ decimal number) }
        ensures before { self.new.before ≡ self.old.before }
    {
        let front = number / 10;
        let first = front / 10;
        self.push(&[
            code(first / 10),
            code(first % 10),
            code(front % 10),
            code(number % 10),
        ])
    }

    // Appends a number by its text in a buffer.
    // Not inlined: its buffer would be set to zero once more for each call that its caller has.
    #[inline(never)]
    fn push_long(&mut self, number: u64) -> Result<(), AllocError>
        ensures line { OnOk result (self.new.line ≡ self.old.line ++ decimal number) }
        ensures before { self.new.before ≡ self.old.before }
    {
        self.push(Buffer::new().format(number).as_bytes())
    }

    // Appends a number of two to four digits by its digits, and a longer one by its text.
    #[inline(never)]
    fn push_more(&mut self, number: u64) -> Result<(), AllocError>
        requires { 10 ≤ number }
        ensures line { OnOk result (self.new.line ≡ self.old.line ++ decimal number) }
        ensures before { self.new.before ≡ self.old.before }
    {
        match number {
            0..=99 => self.push_two(number as u32),
            100..=999 => self.push_three(number as u32),
            1000..=9999 => self.push_four(number as u32),
            _ => self.push_long(number),
        }
    }

    /// Appends a number. Nearly all numbers of a report have at most four digits, and most have one.
    #[inline(always)]
    pub(crate) fn push_number(&mut self, number: u64) -> Result<(), AllocError>
        ensures line { OnOk result (self.new.line ≡ self.old.line ++ decimal number) }
        ensures before { self.new.before ≡ self.old.before }
    {
        if number < 10 {
            self.push_digit(number as u8)
        } else {
            self.push_more(number)
        }
    }

    /// Appends a number with its sign, if it is below 0.
    #[inline(never)]
    pub(crate) fn push_signed(&mut self, number: i64) -> Result<(), AllocError>
        ensures line { OnOk result (self.new.line ≡ self.old.line ++ signed_decimal number) }
        ensures before { self.new.before ≡ self.old.before }
    {
        self.push(Buffer::new().format(number).as_bytes())
    }

    /// Appends bytes as pairs of digits, or `-` where there is none.
    pub(crate) fn push_hex(&mut self, bytes: &[u8]) -> Result<(), AllocError>
        ensures line { OnOk result (self.new.line ≡ self.old.line ++ hex_text bytes.now) }
        ensures before { self.new.before ≡ self.old.before }
    {
        if bytes.len() == 0 {
            return self.push(b"-");
        }
        append_pairs(&mut self.text, bytes)
    }

    /// The text with its line.
    pub(crate) fn whole(self) -> Vec<u8>
        ensures { result.items ≡ self.before ++ self.line }
    {
        self.text
    }

    /// The text as it was before the line.
    pub(crate) fn taken_back(self) -> Vec<u8>
        ensures { result.items ≡ self.before }
    {
        let Draft { mut text, start } = self;
        text.truncate(start);
        text
    }
}
