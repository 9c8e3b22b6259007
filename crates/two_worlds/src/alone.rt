//! The server of one client that is fed the client's own list, and writes what the report has of its packs.
ghost use Rattle.std.specs.Prelude.{◌≡◌, [], IfOk, OnOk, OnErr};
ghost use Rattle.tn_outside.specs.Causes.{HandsOn};
ghost use Rattle.tn_outside.specs.Totals.{Adds, AddsFront};
ghost use Rattle.alone_server.specs.own_items.Items.{item_of};
ghost use Rattle.alone_server.specs.own_items.match_laws.Laws.{is_own_pack};
ghost use Rattle.alone_server.specs.Stands.{terms_of, HeaderFits};

use alone_server::own_items::OwnItem;
use alone_server::own_items::match_engine::tell;
use alone_server::{AloneHeader, AloneServer};
use match_script::BodyLine;
use std::alloc::Global;
use tn_outside::{RunFault, Sink};
use tn_types::NoMemory;

/// A server that serves one client alone. It knows nothing of the match but what it is fed: the items of the client's own list
/// (docs/proofs/match.md, "Own lists").
#[derive(Drop)]
pub struct Alone {
    pub(crate) server: AloneServer,
}

// Whether it is a pack of the client's server.
fn is_pack(item: &OwnItem) -> bool
    ensures { result ≡ is_own_pack (item_of item.now) }
{
    match item {
        OwnItem::Line { line } => match line {
            BodyLine::Pack { client: _ } => true,
            _ => false,
        },
        _ => false,
    }
}

impl Alone {
    ghost use Rattle.two_worlds.specs.Stands.{StandsFor, MayFeed, Feeds, Tells};

    /// A server that was fed nothing.
    pub fn new(alloc: Global, header: &AloneHeader) -> Result<Alone, NoMemory>
        requires { HeaderFits header.now }
        ensures { IfOk result (λ a. StandsFor a (terms_of header.now) []) }
    {
        Ok(Alone {
            server: AloneServer::new(alloc, header)?,
        })
    }

    /// Takes the next item of the client's own list. A pack writes its line of the report, and no other item writes. After an
    /// error the server may not be fed again.
    pub fn feed<K: Sink>(
        &mut self,
        alloc: Global,
        item: &OwnItem,
        sink: &mut K,
    ) -> Result<(), RunFault>
        requires { MayFeed self.old (item_of item.now) }
        ensures stands { OnOk result (Feeds self.old (item_of item.now) self.new) }
        ensures lines { OnOk result (Tells Adds self.old (item_of item.now) (K.written sink.old) (K.written sink.new)) }
        ensures front { OnErr result (Tells AddsFront self.old (item_of item.now) (K.written sink.old) (K.written sink.new)) }
        ensures cause { HandsOn (K.faults sink.old) (K.faults sink.new) (result ≡ Err RunFault.WriteFault) }
    {
        let Ok(told) = self.server.feed(alloc, item) else {
            return Err(RunFault::NoMemory);
        };
        if !is_pack(item) {
            return Ok(());
        }
        let Some(told) = told else { unreachable!() };
        let mut text = Vec::new(alloc);
        tell(alloc, &told, &mut text, sink)
    }
}
