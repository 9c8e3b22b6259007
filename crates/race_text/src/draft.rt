//! A text that is written part by part.
ghost use Rattle.std.specs.Prelude.{◌≡◌, ◌++◌, [], OnOk};
ghost use Rattle.std.specs.Fmt.{decimal, signed_decimal};
ghost use Rattle.match_script.specs.Print.{class_word, flag_word, hex_word};

use itoa::Buffer;
use std::alloc::Global;
use std::marker::Model;
use tn_types::{Class, NoMemory};

/// A text to which parts are added at its end, and from which all of them can be taken back.
///
/// A clause sees what stood there before, and what was added. After want of memory what was added is no longer known.
#[derive(Drop)]
pub struct Draft {
    text: Vec<u8>,
    // Where the added parts begin.
    start: usize,
}

impl Model for Draft {
    ghost use Rattle.std.specs.Prelude.{◌≤◌, length, take, drop};
    ghost use Rattle.race_text.specs.Drafts.{Written};

    ghost Value = { Written };

    ghost view = { λ d. record { before = take d.start d.text.items; added = drop d.start d.text.items } };

    ghost invariant = { λ d. d.start ≤ length d.text.items };
}

impl Draft {
    /// This text, to which nothing was added yet.
    pub fn behind(text: Vec<u8>) -> Draft
        ensures before { result.before ≡ text.items }
        ensures added { result.added ≡ [] }
    {
        let start = text.len();
        Draft { text, start }
    }

    /// Adds these bytes.
    pub fn push(&mut self, bytes: &[u8]) -> Result<(), NoMemory>
        ensures added { OnOk result (self.new.added ≡ self.old.added ++ bytes.now) }
        ensures before { self.new.before ≡ self.old.before }
    {
        if self.text.extend_from_slice(bytes).is_err() {
            return Err(NoMemory);
        }
        Ok(())
    }

    /// Adds a word.
    pub fn push_str(&mut self, word: &str) -> Result<(), NoMemory>
        ensures added { OnOk result (self.new.added ≡ self.old.added ++ word.now) }
        ensures before { self.new.before ≡ self.old.before }
    {
        self.push(word.as_bytes())
    }

    /// Adds a number in decimal digits.
    /// Not inlined: its buffer would be set to zero once more for each call that its caller has.
    #[inline(never)]
    pub fn push_number(&mut self, number: u64) -> Result<(), NoMemory>
        ensures added { OnOk result (self.new.added ≡ self.old.added ++ decimal number) }
        ensures before { self.new.before ≡ self.old.before }
    {
        self.push(Buffer::new().format(number).as_bytes())
    }

    /// Adds a number with its sign, if it is below 0.
    #[inline(never)]
    pub fn push_signed(&mut self, number: i64) -> Result<(), NoMemory>
        ensures added { OnOk result (self.new.added ≡ self.old.added ++ signed_decimal number) }
        ensures before { self.new.before ≡ self.old.before }
    {
        self.push(Buffer::new().format(number).as_bytes())
    }

    /// Adds 0 or 1.
    pub fn push_flag(&mut self, flag: bool) -> Result<(), NoMemory>
        ensures added { OnOk result (self.new.added ≡ self.old.added ++ flag_word flag) }
        ensures before { self.new.before ≡ self.old.before }
    {
        if flag {
            self.push_str("1")
        } else {
            self.push_str("0")
        }
    }

    /// Adds the letter of a class of events.
    pub fn push_class(&mut self, class: Class) -> Result<(), NoMemory>
        ensures added { OnOk result (self.new.added ≡ self.old.added ++ class_word class) }
        ensures before { self.new.before ≡ self.old.before }
    {
        match class {
            Class::Guaranteed => self.push_str("g"),
            Class::Loose => self.push_str("u"),
        }
    }

    /// Adds bytes as pairs of hexadecimal digits in lower case, or `-` where there is none.
    pub fn push_hex(&mut self, alloc: Global, bytes: &[u8]) -> Result<(), NoMemory>
        ensures added { OnOk result (self.new.added ≡ self.old.added ++ hex_word bytes.now) }
        ensures before { self.new.before ≡ self.old.before }
    {
        if bytes.len() == 0 {
            return self.push_str("-");
        }
        match hex::encode(alloc, bytes) {
            Ok(digits) => self.push_str(digits.as_str()),
            Err(_) => Err(NoMemory),
        }
    }

    /// The text with all that was added.
    pub fn whole(self) -> Vec<u8>
        ensures { result.items ≡ self.before ++ self.added }
    {
        self.text
    }

    /// The text without what was added.
    pub fn taken_back(self) -> Vec<u8>
        ensures { result.items ≡ self.before }
    {
        let Draft { mut text, start } = self;
        text.truncate(start);
        text
    }
}
