//! What a client of a match has to know, and what both ends have to agree on.
ghost use Rattle.std.specs.Prelude.{◌≤◌};
ghost use Rattle.tn_types.specs.declared.limits.TheConstants.{MAX_CLIENTS};

use host_link::{PROTOCOL_BYTES, TERMS_BYTES};
use protocol_number::{Protocol, protocol_number};
use quantised_fields::KindTable;
use script_maker::make;
use std::alloc::Global;
use tn_types::{MAX_KINDS, NoMemory, WORLD_MOVE_BITS};
use world_rules::match_kinds;

/// The game's own word in its protocol number.
const WORD: &str = "tribes match";

/// Of a match: the version of its datagrams, the bytes of one at the most, and what ends each counter of a connection.
#[derive(Clone, Copy, Debug, PartialEq, Eq)]
pub(crate) struct Terms {
    version: u8,
    size: u32,
    life: u32,
}

/// The kinds as a client has them: which of them each client always sees is for the server alone.
fn told_kinds(alloc: Global) -> Result<KindTable, NoMemory> {
    let kinds = match_kinds();
    let mut told = Vec::new(alloc);
    'kinds: for k in 0..MAX_KINDS as u8 {
        if let Some(kind) = kinds.kind(k) {
            let mut kind = kind.copy();
            kind.always = false;
            if told.push(kind).is_err() {
                return Err(NoMemory);
            }
        }
    }
    match KindTable::new(told.as_slice()) {
        Ok(table) => Ok(table),
        // No limit of a table asks for it.
        Err(_) => Ok(kinds),
    }
}

impl Terms {
    /// Those of the made match of a number.
    pub(crate) fn of(alloc: Global, seed: u32, clients: u8) -> Result<Terms, NoMemory>
        requires clients_least { 1 ≤ clients }
        requires clients { clients ≤ MAX_CLIENTS }
    {
        let script = make(alloc, seed, clients, 0)?;
        Ok(Terms {
            version: script.head.version,
            size: script.head.size,
            life: script.head.life,
        })
    }

    /// As they go with a welcome: LIFE and SIZE in four bytes each, the version in one, and zeros.
    pub(crate) fn bytes(self) -> [u8; TERMS_BYTES] {
        let mut bytes = [0; TERMS_BYTES];
        bytes[..4].copy_from_slice(&self.life.to_le_bytes());
        bytes[4..8].copy_from_slice(&self.size.to_le_bytes());
        bytes[8] = self.version;
        bytes
    }

    /// The protocol number of the match.
    pub(crate) fn protocol(self, alloc: Global) -> Result<[u8; PROTOCOL_BYTES], NoMemory> {
        let kinds = told_kinds(alloc)?;
        let protocol = Protocol {
            version: u32::from(self.version),
            size: self.size,
            life: self.life,
            move_bits: WORLD_MOVE_BITS,
        };
        Ok(protocol_number(protocol, &kinds, WORD.as_bytes()))
    }
}
