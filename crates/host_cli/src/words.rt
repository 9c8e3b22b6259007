//! The words of the program, and how it ends.
ghost use Rattle.std.specs.Prelude.{◌≤◌, IfOk, IfSome};

use net_rules::MAX_TURNS;
use std::error::Error;
use std::fmt;
use std::net::SocketAddrV4;
use tn_types::MAX_CLIENTS;

// The greatest number of clients.
const MOST_CLIENTS: u32 = MAX_CLIENTS as u32;

/// `ADDRESS:PORT SEED CLIENTS TURNS [--key FILE]`: at this address the made match of a number is served to so many clients in so many turns.
#[derive(Clone, Copy, Debug, PartialEq, Eq)]
pub(crate) struct Hosting {
    pub(crate) address: SocketAddrV4,
    pub(crate) seed: u32,
    /// 1 to 16.
    pub(crate) clients: u8,
    /// 1 to 100,000.
    pub(crate) turns: u32,
}

/// Why the program ends before its last turn.
#[derive(Clone, Copy, Debug, PartialEq, Eq)]
pub(crate) enum Refusal {
    NoWords,
    NoSuchAddress,
    NoSeed,
    NoClients,
    NoTurns,
    NoKey,
    NoAddress,
    NoSecret,
    NoClock,
    Unwritten,
    Lost,
    NoMemory,
}

impl Refusal {
    /// The exit status: the one that the program `tribes` has for this kind of end (docs/script.md, "The command line").
    pub(crate) fn exit(self) -> u8 {
        match self {
            Refusal::NoWords => 2,
            Refusal::NoSuchAddress => 2,
            Refusal::NoSeed => 2,
            Refusal::NoClients => 2,
            Refusal::NoTurns => 2,
            Refusal::NoKey => 2,
            Refusal::Unwritten => 6,
            Refusal::NoMemory => 7,
            Refusal::NoAddress => 8,
            Refusal::NoSecret => 8,
            Refusal::Lost => 8,
            Refusal::NoClock => 9,
        }
    }
}

impl fmt::Display for Refusal {
    fn fmt<W: fmt::Write>(&self, f: &mut fmt::Formatter<W>) -> fmt::Result {
        match *self {
            Refusal::NoWords => write!(f, "wanted is ADDRESS:PORT SEED CLIENTS TURNS [--key FILE]"),
            Refusal::NoSuchAddress => write!(
                f,
                "the first word is no address of IPv4 with a port, as 0.0.0.0:28001"
            ),
            Refusal::NoSeed => write!(f, "SEED is a number from 0 to 4294967295"),
            Refusal::NoClients => write!(f, "CLIENTS is a number from 1 to 16"),
            Refusal::NoTurns => write!(f, "TURNS is a number from 1 to 100000"),
            Refusal::NoKey => write!(
                f,
                "the key's file can't be read, or is not 64 digits of base 16 in one line"
            ),
            Refusal::NoAddress => write!(
                f,
                "the address can't be had: it is taken, or not of this machine"
            ),
            Refusal::NoSecret => write!(f, "the system gave no bytes of chance for a secret"),
            Refusal::NoClock => write!(f, "the clock failed"),
            Refusal::Unwritten => write!(f, "the file of the script can't be written"),
            Refusal::Lost => write!(f, "the socket failed"),
            Refusal::NoMemory => write!(f, "memory was not to be had"),
        }
    }
}

impl Error for Refusal {}

/// The number in this range that the word at a place says, in decimal digits without a sign or a leading zero.
fn number_at(words: &[String], place: usize, least: u32, most: u32) -> Option<u32>
    ensures { IfSome result (λ n. (least ≤ n) × (n ≤ most)) }
{
    let word = words.get(place)?.as_str();
    if word.starts_with('+') || (word.len() > 1 && word.starts_with('0')) {
        return None;
    }
    match word.parse::<u32>() {
        Ok(number) if least <= number && number <= most => Some(number),
        _ => None,
    }
}

/// What the words ask for, or the first word that is wrong.
pub(crate) fn hosting_of(words: &[String]) -> Result<Hosting, Refusal>
    ensures least { IfOk result (λ h. 1 ≤ h.clients) }
    ensures clients { IfOk result (λ h. h.clients ≤ MAX_CLIENTS) }
{
    let Some(address) = words.first() else {
        return Err(Refusal::NoWords);
    };
    let Ok(address) = address.as_str().parse::<SocketAddrV4>() else {
        return Err(Refusal::NoSuchAddress);
    };
    let Some(seed) = number_at(words, 1, 0, u32::MAX) else {
        return Err(Refusal::NoSeed);
    };
    let Some(clients) = number_at(words, 2, 1, MOST_CLIENTS) else {
        return Err(Refusal::NoClients);
    };
    let Some(turns) = number_at(words, 3, 1, MAX_TURNS) else {
        return Err(Refusal::NoTurns);
    };
    Ok(Hosting {
        address,
        seed,
        clients: clients as u8,
        turns,
    })
}

/// The file in which the key stands, if one is named behind the other words.
pub(crate) fn key_file(words: &[String]) -> Result<Option<&str>, Refusal> {
    match words {
        [_, _, _, _] => Ok(None),
        [_, _, _, _, word, file] => {
            if word.as_str() == "--key" {
                Ok(Some(file.as_str()))
            } else {
                Err(Refusal::NoWords)
            }
        }
        _ => Err(Refusal::NoWords),
    }
}
