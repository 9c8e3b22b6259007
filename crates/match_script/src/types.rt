//! A script, and why a text has none.
ghost use Rattle.std.specs.Prelude.{◌≡◌, ◌++◌, ◌∷◌, [], OnOk, OnErr, IfOk, length};

use crate::held::{LineDatagram, LinePayload};
use std::alloc::{AllocError, AllocFailed, Global};
use std::marker::Model;
use tn_types::{BlockBytes, Class, Move, NoMemory};
use world_rules::Setup;

/// One line of a script's body. Each client is below the number of clients in the header.
#[derive(Drop)]
pub enum BodyLine {
    /// `tick`: the world makes one tick, and each client's oldest waiting move is taken.
    Tick,
    /// `scan C`: the scope of a client is brought up to date.
    Scan {
        client: u8,
    },
    /// `post C g HEX` or `post C u HEX`: the server posts an event to a client.
    Post {
        client: u8,
        class: Class,
        payload: LinePayload,
    },
    /// `cpost C g HEX` or `cpost C u HEX`: a client posts an event to the server.
    ClientPost {
        client: u8,
        class: Class,
        payload: LinePayload,
    },
    /// `pack C`: the server makes a datagram for a client.
    Pack {
        client: u8,
    },
    /// `cpack C`: a client makes a datagram.
    ClientPack {
        client: u8,
    },
    /// `down C K`: a client gets the K-th datagram that the server sent it, counted from 0.
    Down {
        client: u8,
        k: u32,
    },
    /// `up C K`: the server gets the K-th datagram of a client, counted from 0.
    Up {
        client: u8,
        k: u32,
    },
    /// `raw C HEX`: the server gets these bytes, which nobody need have made, on a client's connection.
    Raw {
        client: u8,
        bytes: LineDatagram,
    },
    /// `move C DX DY FIRE USE`: a client samples a move.
    Move {
        client: u8,
        m: Move,
    },
    /// `show C`: what a client has is told.
    Show {
        client: u8,
    },
    /// `world`: the world is told.
    World,
}

impl BodyLine {
    ghost use Rattle.match_script.specs.Named.{client_named};

    /// The client that the line names, if it names one.
    pub fn client(&self) -> Option<u8>
        ensures { result ≡ client_named self.now }
    {
        match self {
            BodyLine::Post { client, .. }
            | BodyLine::ClientPost { client, .. }
            | BodyLine::Pack { client }
            | BodyLine::ClientPack { client }
            | BodyLine::Scan { client }
            | BodyLine::Down { client, .. }
            | BodyLine::Up { client, .. }
            | BodyLine::Raw { client, .. }
            | BodyLine::Move { client, .. }
            | BodyLine::Show { client } => Some(*client),
            BodyLine::Tick | BodyLine::World => None,
        }
    }

    /// The same line again.
    pub fn copy(&self, alloc: Global) -> Result<BodyLine, NoMemory>
        ensures { IfOk result (λ line. line ≡ self.now) }
    {
        Ok(match self {
            BodyLine::Tick => BodyLine::Tick,
            BodyLine::Scan { client } => BodyLine::Scan { client: *client },
            BodyLine::Post {
                client,
                class,
                payload,
            } => BodyLine::Post {
                client: *client,
                class: *class,
                payload: payload.copy(alloc)?,
            },
            BodyLine::ClientPost {
                client,
                class,
                payload,
            } => BodyLine::ClientPost {
                client: *client,
                class: *class,
                payload: payload.copy(alloc)?,
            },
            BodyLine::Pack { client } => BodyLine::Pack { client: *client },
            BodyLine::ClientPack { client } => BodyLine::ClientPack { client: *client },
            BodyLine::Down { client, k } => BodyLine::Down {
                client: *client,
                k: *k,
            },
            BodyLine::Up { client, k } => BodyLine::Up {
                client: *client,
                k: *k,
            },
            BodyLine::Raw { client, bytes } => BodyLine::Raw {
                client: *client,
                bytes: bytes.copy(alloc)?,
            },
            BodyLine::Move { client, m } => BodyLine::Move {
                client: *client,
                m: *m,
            },
            BodyLine::Show { client } => BodyLine::Show { client: *client },
            BodyLine::World => BodyLine::World,
        })
    }
}

/// Why a line can't stand where it stands (docs/script.md, "Faults of a script").
#[derive(Clone, Copy, Debug, PartialEq, Eq)]
pub enum ScriptFault {
    /// A byte is none of 0x20 to 0x7E.
    NotText,
    /// The header has no such line here, or the text ends before `go`.
    BadHeader,
    /// This is the 100,001st line of the body.
    TooManyLines,
    /// No line has this first word with this number of words, or the class is neither `g` nor `u`.
    UnknownWord,
    /// A word where a number stands is none.
    BadNumber,
    /// A number or a count of bytes is outside its range.
    OutOfRange,
    /// A word where bytes stand is neither `-` nor pairs of hexadecimal digits.
    BadHex,
}

/// Why bytes were not read as a script.
#[derive(Clone, Copy, Debug, PartialEq, Eq)]
pub enum ParseFault {
    /// The least faulty line, numbered from 1 with the header's lines, and its first fault.
    Bad { line: u32, fault: ScriptFault },
    /// Memory was not to be had.
    NoMemory,
}

impl From<AllocError> for ParseFault {
    ghost use Rattle.std.specs.Prelude.{◌≡◌};
    ghost use Rattle.match_script.specs.declared.types.ParseFault.TheVariants.{NoMemory};

    ghost from_gives = { λ _ e. e ≡ NoMemory };

    fn from(_error: AllocError) -> Self {
        ParseFault::NoMemory
    }
}

impl<T: Drop> From<AllocFailed<T>> for ParseFault {
    ghost use Rattle.std.specs.Prelude.{◌≡◌};
    ghost use Rattle.match_script.specs.declared.types.ParseFault.TheVariants.{NoMemory};

    ghost from_gives = { λ _ e. e ≡ NoMemory };

    fn from(_error: AllocFailed<T>) -> Self {
        ParseFault::NoMemory
    }
}

/// The lines of a body, in order; contracts see them as a list.
#[derive(Drop)]
pub struct Body {
    lines: Vec<BodyLine>,
}

impl Model for Body {
    ghost use Rattle.std.specs.Prelude.{List};
    ghost use Rattle.match_script.specs.declared.types.BodyLine.{BodyLine};

    ghost Value = { List BodyLine };

    ghost view = { λ b. b.lines.items };
}

impl Body {
    /// A body of these lines.
    pub fn from_vec(lines: Vec<BodyLine>) -> Body
        ensures { result ≡ lines.items }
    {
        Body { lines }
    }

    /// The lines, lent.
    pub fn as_slice(&self) -> &[BodyLine]
        ensures { result.now ≡ self.now }
    {
        self.lines.as_slice()
    }

    /// How many lines these are.
    pub fn len(&self) -> usize
        ensures { result ≡ length self.now }
    {
        self.lines.len()
    }
}

/// The blocks of a script by their numbers, from 0 on; contracts see them as a list.
#[derive(Drop)]
pub struct Blocks {
    blocks: Vec<BlockBytes>,
}

impl Model for Blocks {
    ghost use Rattle.std.specs.Prelude.{ℕ, List};

    ghost Value = { List (List ℕ) };

    ghost view = { λ b. b.blocks.items };
}

impl Blocks {
    /// The blocks of these bytes.
    pub fn from_vec(blocks: Vec<BlockBytes>) -> Blocks
        ensures { result ≡ blocks.items }
    {
        Blocks { blocks }
    }

    /// The blocks, lent.
    pub fn as_slice(&self) -> &[BlockBytes]
        ensures { result.now ≡ self.now }
    {
        self.blocks.as_slice()
    }

    /// How many blocks these are.
    pub fn len(&self) -> usize
        ensures { result ≡ length self.now }
    {
        self.blocks.len()
    }

    /// The same blocks again.
    pub fn copy(&self, alloc: Global) -> Result<Blocks, NoMemory>
        ensures { IfOk result (λ b. b ≡ self.now) }
    {
        match copies(alloc, self.as_slice()) {
            Ok(blocks) => Ok(Blocks { blocks }),
            Err(_) => Err(NoMemory),
        }
    }
}

// The same blocks again.
fn copies(alloc: Global, blocks: &[BlockBytes]) -> Result<Vec<BlockBytes>, AllocError>
    ensures { IfOk result (λ all. all.items ≡ blocks.now) }
{
    let mut all = Vec::with_capacity(alloc, blocks.len())?;
    for block in blocks {
        all.push(block.copy())?;
    }
    Ok(all)
}

/// What the header says.
#[derive(Drop)]
pub struct Head {
    /// The version of the format and of the datagrams: 1 or 2.
    pub version: u8,
    /// Where the world's chances start: below 2^32.
    pub seed: u32,
    /// How many clients there are: 1 to 16.
    pub clients: u8,
    /// What ends each counter of a connection: 1 to 16,777,215.
    pub life: u32,
    /// Bytes of a datagram at the most: 128 to 1,200.
    pub size: u32,
    /// How far a player sees, in centimetres: 0 to 65,535.
    pub radius: u32,
    /// What each client is to hold: at most 64 blocks of at most 40 bytes each.
    pub blocks: Blocks,
    /// The players, of clients that rise, and then what else is in the world at the start, with the header's clients and
    /// radius: at most 1,024 objects, each with a block of the header.
    pub setup: Setup,
}

impl Head {
    /// The same header again.
    pub fn copy(&self, alloc: Global) -> Result<Head, NoMemory>
        ensures { IfOk result (λ h. h ≡ self.now) }
    {
        let blocks = self.blocks.copy(alloc)?;
        let setup = self.setup.copy(alloc)?;
        Ok(Head {
            version: self.version,
            seed: self.seed,
            clients: self.clients,
            life: self.life,
            size: self.size,
            radius: self.radius,
            blocks,
            setup,
        })
    }
}

/// A script: the header and the body's lines.
#[derive(Drop)]
pub struct Script {
    pub head: Head,
    pub body: Body,
}
