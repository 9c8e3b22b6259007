//! What a word says: a number in a range, a step, a flag, a class, or bytes.
ghost use Rattle.std.specs.Prelude.{◌≡◌, ◌^◌, ◌-◌, ◌<◌, ◌≤◌, true, false, min, IfOk, MatchOption, pos, negsuc};
ghost use Rattle.std.specs.List.{list_all};
ghost use Rattle.hex.specs.Hex.{is_hex_digit};
ghost use Rattle.std.specs.Str.{bytes_eq};
ghost use Rattle.std.specs.Str.Parse.{digits_value};
ghost use Rattle.match_script.specs.Words.{is_digit, is_number, is_hex, number, number_from, flag, class_named, hex};
ghost use Rattle.match_script.specs.Steps.{GivesStride, ahead, back, as_stride, step};
ghost use Rattle.match_script.specs.Ranges.{BytesFit};

use crate::types::ScriptFault;
use tn_types::{Bytes, Class, MAX_STEP, MIN_STEP, are_bytes};

// The greatest step ahead, and the greatest back.
const MAX_AHEAD: u64 = MAX_STEP as u64;

const MAX_BACK: u64 = -(MIN_STEP as i64) as u64;

/// Whether a word is this name: a few comparisons, where the name is known.
#[inline(always)]
pub fn is_name(word: &[u8], name: &[u8]) -> bool
    ensures { result ≡ bytes_eq word.now name.now }
{
    if word.len() != name.len() {
        return false;
    }
    'bytes: for i in 0..name.len() {
        if word[i] != name[i] {
            return false;
        }
    }
    true
}

fn is_digit(b: u8) -> bool
    ensures { result ≡ is_digit b }
{
    48 <= b && b <= 57
}

// The number that digits say, or the greatest; None where a byte is no digit.
#[tactic(auto, using(crate::proofs::Numbers::value_step, crate::proofs::Numbers::digit_more))]
fn value(word: &[u8]) -> Option<u64>
    ensures { MatchOption result (list_all is_digit word.now ≡ false) (λ n. (list_all is_digit word.now ≡ true)
        × (n ≡ min (digits_value 10 word.now) (2 ^ 64 - 1))) }
{
    let mut value = 0u64;
    for b in word {
        if !is_digit(*b) {
            return None;
        }
        value = value.saturating_mul(10).saturating_add(digit(*b));
    }
    Some(value)
}

// The same of decimal digits with no leading zero.
fn numeral(word: &[u8]) -> Option<u64>
    ensures { MatchOption result (is_number word.now ≡ false) (λ n. (is_number word.now ≡ true)
        × (n ≡ min (digits_value 10 word.now) (2 ^ 64 - 1))) }
{
    if word.len() == 0 || (word.len() > 1 && word[0] == b'0') {
        return None;
    }
    value(word)
}

// The value of a digit.
fn digit(b: u8) -> u64
    ensures { result ≡ b - 48 }
{
    u64::from(b.saturating_sub(48))
}

/// The number that a word says, below the limit.
#[tactic(auto, unfolding(crate::specs::Words::number))]
pub fn number(limit: u64, word: &[u8]) -> Result<u64, ScriptFault>
    requires { limit < 2 ^ 64 }
    ensures { result ≡ number limit word.now }
{
    let Some(n) = numeral(word) else {
        return Err(ScriptFault::BadNumber);
    };
    if n < limit {
        Ok(n)
    } else {
        Err(ScriptFault::OutOfRange)
    }
}

/// The number below a small limit that a word says.
#[tactic(auto, using(crate::proofs::Numbers::number_below))]
pub fn below(limit: u8, word: &[u8]) -> Result<u8, ScriptFault>
    ensures value { result ≡ number limit word.now }
    ensures fits { IfOk result (λ n. n < limit) }
{
    match number(u64::from(limit), word) {
        Ok(n) => Ok(n as u8),
        Err(fault) => Err(fault),
    }
}

/// The client that a word names.
pub fn client(clients: u8, word: &[u8]) -> Result<u8, ScriptFault>
    ensures value { result ≡ number clients word.now }
    ensures fits { IfOk result (λ c. c < clients) }
{
    below(clients, word)
}

/// The number below 2^32 that a word says.
#[tactic(auto, using(crate::proofs::Numbers::number_below))]
pub fn number_32(word: &[u8]) -> Result<u32, ScriptFault>
    ensures { result ≡ number (2 ^ 32) word.now }
{
    match number(1 << 32, word) {
        Ok(n) => Ok(n as u32),
        Err(fault) => Err(fault),
    }
}

/// The number from `least` to `most` that a word says.
#[tactic(auto, using(crate::proofs::Numbers::number_below), unfolding(crate::specs::Words::number_from))]
pub fn number_from(least: u32, most: u32, word: &[u8]) -> Result<u32, ScriptFault>
    ensures value { result ≡ number_from least most word.now }
{
    match number(u64::from(most) + 1, word) {
        Ok(n) => {
            if n < u64::from(least) {
                Err(ScriptFault::OutOfRange)
            } else {
                Ok(n as u32)
            }
        }
        Err(fault) => Err(fault),
    }
}

// This many ahead.
fn ahead_by(n: u64) -> i8
    requires { n ≤ MAX_AHEAD }
    ensures { result ≡ pos n }
{
    n as i8
}

// This many back, and one more.
fn back_by(n: u64) -> i8
    requires { n < MAX_BACK }
    ensures { result ≡ negsuc n }
{
    -1 - n as i8
}

// The step that a word says without a sign.
#[tactic(auto, using(crate::proofs::Steps::is_not_ahead, crate::proofs::Numbers::number_below))]
fn step_ahead(word: &[u8]) -> Result<i8, ScriptFault>
    ensures { GivesStride result (as_stride (ahead word.now)) }
{
    match number(MAX_AHEAD + 1, word) {
        Ok(n) => Ok(ahead_by(n)),
        Err(fault) => Err(fault),
    }
}

// The step that a word says after a minus sign.
#[tactic(auto, using(crate::proofs::Steps::is_not_back, crate::proofs::Steps::is_not_back_by_zero, crate::proofs::Numbers::number_below))]
fn step_back(word: &[u8]) -> Result<i8, ScriptFault>
    ensures { GivesStride result (as_stride (back word.now)) }
{
    match number(MAX_BACK + 1, word) {
        Ok(0) => Err(ScriptFault::BadNumber),
        Ok(n) => Ok(back_by(n - 1)),
        Err(fault) => Err(fault),
    }
}

/// The step that a word says, from -8 to 7.
#[tactic(auto, unfolding(crate::specs::Steps::step, crate::specs::Steps::signed))]
pub fn step(word: &[u8]) -> Result<i8, ScriptFault>
    ensures { GivesStride result (step word.now) }
{
    match word.split_first() {
        None => Err(ScriptFault::BadNumber),
        Some((first, rest)) => {
            if *first == b'-' {
                step_back(rest)
            } else {
                step_ahead(word)
            }
        }
    }
}

/// Whether a word says 1, or else 0.
#[tactic(auto, unfolding(crate::specs::Words::flag))]
pub fn flag(word: &[u8]) -> Result<bool, ScriptFault>
    ensures { result ≡ flag word.now }
{
    match number(2, word) {
        Ok(n) => Ok(n == 1),
        Err(fault) => Err(fault),
    }
}

/// The class that a word names.
#[tactic(auto, unfolding(crate::specs::Words::class_named))]
pub fn class(word: &[u8]) -> Result<Class, ScriptFault>
    ensures { result ≡ class_named word.now }
{
    if is_name(word, b"g") {
        Ok(Class::Guaranteed)
    } else if is_name(word, b"u") {
        Ok(Class::Loose)
    } else {
        Err(ScriptFault::UnknownWord)
    }
}

/// The bytes that a word says, at most `N`.
#[tactic(auto, unfolding(crate::specs::Words::hex))]
pub fn bytes<const N: usize>(word: &[u8]) -> Result<Bytes<N>, ScriptFault>
    ensures value { result ≡ hex N word.now }
    ensures fits { IfOk result (BytesFit N) }
{
    if is_name(word, b"-") {
        return Ok(Bytes::new());
    }
    if word.len() == 0 || !is_hex(word) {
        return Err(ScriptFault::BadHex);
    }
    let half = word.len() / 2;
    if half > N {
        return Err(ScriptFault::OutOfRange);
    }
    let mut buf = [0u8; N];
    let (out, _) = buf.split_at_mut(half);
    match hex::decode_to_slice(word, out) {
        Ok(()) => {
            are_bytes(out);
            match Bytes::from_slice(out) {
                Some(bytes) => Ok(bytes),
                None => Err(ScriptFault::OutOfRange),
            }
        }
        Err(_) => Err(ScriptFault::BadHex),
    }
}

// An even number of hexadecimal digits.
fn is_hex(word: &[u8]) -> bool
    ensures { result ≡ is_hex word.now }
{
    word.len() % 2 == 0 && are_hex_digits(word)
}

fn are_hex_digits(word: &[u8]) -> bool
    ensures { result ≡ list_all is_hex_digit word.now }
{
    word.iter().all(|b| b.is_ascii_hexdigit())
}
