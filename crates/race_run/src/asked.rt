//! What a line of a script asks of the activities of a client.
ghost use Rattle.std.specs.Prelude.{◌≡◌, IfOk, is_some};
ghost use Rattle.race_run.specs.Asking.{is_pack_of, net_line};

use bit_stream::bits_of_move;
use connection_lock::NetLine;
use match_script::BodyLine;
use std::alloc::Global;
use tn_types::NoMemory;

/// Whether the line is a pack for the client.
pub fn is_pack_of(client: u8, line: &BodyLine) -> bool
    ensures { result ≡ is_pack_of client line.now }
{
    match line {
        BodyLine::Pack { client: named } => *named == client,
        _ => false,
    }
}

/// Whether the line asks something of the client's net.
pub fn is_net_of(client: u8, line: &BodyLine) -> bool
    ensures { result ≡ is_some (net_line client line.now) }
{
    match line {
        BodyLine::ClientPost { client: named, .. }
        | BodyLine::ClientPack { client: named }
        | BodyLine::Down { client: named, .. }
        | BodyLine::Up { client: named, .. }
        | BodyLine::Move { client: named, .. }
        | BodyLine::Raw { client: named, .. } => *named == client,
        _ => false,
    }
}

/// What a line asks of the client's net, if it names it. The bytes of a line `raw` are copied, for which memory may be wanting.
pub fn net_line(alloc: Global, client: u8, line: &BodyLine) -> Result<Option<NetLine>, NoMemory>
    ensures { IfOk result (λ asked. asked ≡ net_line client line.now) }
{
    let asked = match line {
        BodyLine::ClientPost {
            client: named,
            class,
            payload,
        } if *named == client => Some(NetLine::ClientPost {
            class: *class,
            payload: payload.payload(),
        }),
        BodyLine::ClientPack { client: named } if *named == client => Some(NetLine::ClientPack),
        BodyLine::Down { client: named, k } if *named == client => Some(NetLine::Down { k: *k }),
        BodyLine::Up { client: named, k } if *named == client => Some(NetLine::Up { k: *k }),
        BodyLine::Move { client: named, m } if *named == client => Some(NetLine::Move {
            m: bits_of_move(m),
        }),
        BodyLine::Raw {
            client: named,
            bytes,
        } if *named == client => Some(NetLine::Raw {
            bytes: bytes.raw_bytes(alloc)?,
        }),
        _ => None,
    };
    Ok(asked)
}
