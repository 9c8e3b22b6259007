//! What goes out: held pieces are posted at the end.
ghost use Rattle.tribes_channel.specs.Channel.{Sends, LeavesNone};

use messages::Outbox;
use tribes_ends::{Class, Link};

/// Posts held pieces, the oldest first, until none is held or the end has no place for it.
#[tactic(auto, using(crate::proofs::Channelling::sends_none, crate::proofs::Channelling::sends_more, crate::proofs::Channelling::refused_some))]
pub(crate) fn send(outbox: &mut Outbox, link: &mut Link)
    ensures sends { Sends outbox.old link.old outbox.new link.new }
    ensures none_left { LeavesNone outbox.new link.new }
{
    'pieces: while let Some(piece) = outbox.first() {
        if link.post(piece.as_slice(), Class::Guaranteed).is_err() {
            return;
        }
        let _posted = outbox.take();
    }
}
