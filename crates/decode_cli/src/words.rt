//! The words of the program.

use crate::slots::Slots;
use hex::FromHexError;
use std::alloc::Global;
use std::error::Error;
use std::fmt;
use tn_types::{End, MAX_READ_BYTES};

/// What the words ask for.
#[derive(Drop)]
pub(crate) enum Command {
    /// One datagram, as one that this end sent.
    Datagram {
        by: End,
        bytes: Vec<u8>,
        options: Options,
    },
    /// Each datagram of a report.
    Report {
        options: Options,
    },
    /// Each datagram of a demo, which says its version.
    Demo {
        options: Options,
    },
}

/// The version of the wire, what the slots hold before the datagram, and whether a line is wanted in place of a table.
#[derive(Drop)]
pub(crate) struct Options {
    pub(crate) version: u8,
    pub(crate) slots: Slots,
    pub(crate) brief: bool,
}

/// Why the program gives no text.
#[derive(Clone, Copy, Debug, PartialEq, Eq)]
pub(crate) enum Refusal {
    NoWay,
    NoHex,
    OddHex,
    BadHex,
    LongHex,
    NoVersion,
    NoHeld,
    NoKind,
    NoOption,
    NoReport,
    NoDemo,
    Unread,
    NoMemory,
}

impl fmt::Display for Refusal {
    fn fmt<W: fmt::Write>(&self, f: &mut fmt::Formatter<W>) -> fmt::Result {
        match *self {
            Refusal::NoWay => write!(f, "wanted is down HEX, up HEX, report or demo"),
            Refusal::NoHex => write!(f, "the datagram is missing: wanted are hexadecimal digits"),
            Refusal::OddHex => write!(f, "the hexadecimal text has an odd number of digits"),
            Refusal::BadHex => write!(f, "the datagram is no hexadecimal text"),
            Refusal::LongHex => write!(f, "the datagram has more than 65536 bytes"),
            Refusal::NoVersion => write!(f, "wanted behind --version is 1 or 2"),
            Refusal::NoHeld => { write!(f, "wanted behind --held are slots and kinds, as 0:2,5:1") }
            Refusal::NoKind => write!(f, "a kind is from 0 to 5"),
            Refusal::NoOption => {
                write!(
                    f,
                    "after the datagram only --version, --held and --brief stand"
                )
            }
            Refusal::NoReport => write!(f, "the report is no text"),
            Refusal::NoDemo => write!(f, "what came begins with no demo's head"),
            Refusal::Unread => write!(f, "standard input could not be read"),
            Refusal::NoMemory => write!(f, "memory was not to be had"),
        }
    }
}

impl Error for Refusal {}

/// The bytes that a word of pairs of digits says, at most 65,536; `-` says none.
pub(crate) fn bytes_of(alloc: Global, word: &str) -> Result<Vec<u8>, Refusal> {
    if word == "-" {
        return Ok(Vec::new(alloc));
    }
    match hex::decode(alloc, word.as_bytes()) {
        Ok(bytes) => if bytes.len() > MAX_READ_BYTES {
            Err(Refusal::LongHex)
        } else {
            Ok(bytes)
        },
        Err(FromHexError::OddLength) => Err(Refusal::OddHex),
        Err(FromHexError::OutOfMemory) => Err(Refusal::NoMemory),
        Err(_) => Err(Refusal::BadHex),
    }
}

/// Reads `SLOT:KIND`.
fn read_pair(pair: &str, slots: &mut Slots) -> Result<(), Refusal> {
    let Some((slot, kind)) = pair.split_once(':') else {
        return Err(Refusal::NoHeld);
    };
    match (slot.parse::<u8>(), kind.parse::<u32>()) {
        (Ok(slot), Ok(kind)) => if slots.put(slot, kind) {
            Ok(())
        } else {
            Err(Refusal::NoKind)
        },
        _ => Err(Refusal::NoHeld),
    }
}

/// Reads such pairs with commas between them.
fn read_held(list: &str, slots: &mut Slots) -> Result<(), Refusal> {
    for pair in list.split(',') {
        read_pair(pair, slots)?;
    }
    Ok(())
}

fn read_version(word: &str) -> Result<u8, Refusal> {
    match word {
        "1" => Ok(1),
        "2" => Ok(2),
        _ => Err(Refusal::NoVersion),
    }
}

/// An option that was named: the next word says what it is to be.
#[derive(Clone, Copy, Debug, PartialEq, Eq)]
enum Named {
    Version,
    Held,
}

/// Reads the options among the words from this place on.
fn read_options(words: &[String], from: usize) -> Result<Options, Refusal> {
    let mut read = Options {
        version: 1,
        slots: Slots::new(),
        brief: false,
    };
    let mut named = None;
    for place in from..words.len() {
        let word = words[place].as_str();
        match named {
            None => {
                named = match word {
                    "--version" => Some(Named::Version),
                    "--held" => Some(Named::Held),
                    "--brief" => {
                        read.brief = true;
                        None
                    }
                    _ => return Err(Refusal::NoOption),
                };
            }
            Some(Named::Version) => {
                read.version = read_version(word)?;
                named = None;
            }
            Some(Named::Held) => {
                read_held(word, &mut read.slots)?;
                named = None;
            }
        }
    }
    match named {
        None => Ok(read),
        Some(Named::Version) => Err(Refusal::NoVersion),
        Some(Named::Held) => Err(Refusal::NoHeld),
    }
}

/// What the words after the program's name ask for.
pub(crate) fn read_command(alloc: Global, words: &[String]) -> Result<Command, Refusal> {
    let Some(first) = words.first() else {
        return Err(Refusal::NoWay);
    };
    if first.as_str() == "report" {
        return Ok(Command::Report {
            options: read_options(words, 1)?,
        });
    }
    if first.as_str() == "demo" {
        return Ok(Command::Demo {
            options: read_options(words, 1)?,
        });
    }
    let by = match first.as_str() {
        "down" => End::Server,
        "up" => End::Client,
        _ => return Err(Refusal::NoWay),
    };
    let Some(datagram) = words.get(1) else {
        return Err(Refusal::NoHex);
    };
    let bytes = bytes_of(alloc, datagram.as_str())?;
    Ok(Command::Datagram {
        by,
        bytes,
        options: read_options(words, 2)?,
    })
}
