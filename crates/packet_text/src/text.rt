//! A text that is written piece by piece.
ghost use Rattle.std.specs.Prelude.{◌≡◌, ◌<◌, ◌++◌, ◌∷◌, [], OnOk};
ghost use Rattle.std.specs.Fmt.{decimal, signed_decimal};

use itoa::Buffer;
use std::alloc::Global;
use std::marker::Model;
use tn_types::NoMemory;

/// A text, which contracts see as its bytes. After want of memory it is no longer known.
#[derive(Drop)]
pub(crate) struct Text {
    bytes: Vec<u8>,
}

impl Model for Text {
    ghost use Rattle.std.specs.Prelude.{ℕ, List};

    ghost Value = { List ℕ };

    ghost view = { λ t. t.bytes.items };
}

impl Text {
    /// No byte. Takes no memory.
    pub(crate) fn new(alloc: Global) -> Text
        ensures { result ≡ [] }
    {
        Text {
            bytes: Vec::new(alloc),
        }
    }

    /// Adds these bytes.
    pub(crate) fn push(&mut self, bytes: &[u8]) -> Result<(), NoMemory>
        ensures { OnOk result (self.new ≡ self.old ++ bytes.now) }
    {
        if self.bytes.extend_from_slice(bytes).is_err() {
            return Err(NoMemory);
        }
        Ok(())
    }

    /// Adds a byte that is text.
    pub(crate) fn byte(&mut self, byte: u32) -> Result<(), NoMemory>
        requires { byte < 128 }
        ensures { OnOk result (self.new ≡ self.old ++ byte ∷ []) }
    {
        self.push(&[byte as u8])
    }

    /// Adds a word.
    pub(crate) fn word(&mut self, word: &str) -> Result<(), NoMemory>
        ensures { OnOk result (self.new ≡ self.old ++ word.now) }
    {
        self.push(word.as_bytes())
    }

    /// Adds a number in decimal digits.
    pub(crate) fn number(&mut self, number: u32) -> Result<(), NoMemory>
        ensures { OnOk result (self.new ≡ self.old ++ decimal number) }
    {
        self.push(Buffer::new().format(number).as_bytes())
    }

    /// Adds a number with its sign, if it is below 0.
    pub(crate) fn signed(&mut self, number: i64) -> Result<(), NoMemory>
        ensures { OnOk result (self.new ≡ self.old ++ signed_decimal number) }
    {
        self.push(Buffer::new().format(number).as_bytes())
    }

    /// The bytes.
    pub(crate) fn whole(self) -> Vec<u8>
        ensures { result.items ≡ self }
    {
        self.bytes
    }
}
