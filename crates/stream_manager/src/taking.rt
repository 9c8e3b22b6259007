//! A data packet that a client takes, which it keeps until the next one.
ghost use Rattle.std.specs.Prelude.{◌≡◌, []};
ghost use Rattle.wire_format.specs.Server.{IsServerBody};
ghost use Rattle.stream_manager.specs.ClientCalls.{AdmitsDown, TakesDown, client_of, made_whole};

use crate::client::take_body;
use crate::end::End;
use datablocks::BlockReceiver;
use ghost_client::Copies;
use move_manager::MoveSender;
use std::mem;
use wire_format::ServerBody;

/// Takes a data packet that nothing refuses into these parts of a client's end. It becomes the one that was taken last, and
/// the one before gives its place for the next to be read.
pub(crate) fn take_down(
    common: &mut End,
    moves: &mut MoveSender,
    blocks: &mut BlockReceiver,
    copies: &mut Copies,
    control: &mut Option<u8>,
    body: &mut Box<ServerBody>,
    took: &mut Box<ServerBody>,
)
    requires fits { IsServerBody common.old.config.version copies.old.kinds body.old.value }
    requires admits { let old = client_of common.old moves.old blocks.old copies.old control.old [] in
        AdmitsDown old (made_whole old body.old.value) }
    requires none_waits { common.old.receiver.ready ≡ [] }
    ensures took { let old = client_of common.old moves.old blocks.old copies.old control.old took.old.value.ghosts in
        TakesDown old (made_whole old body.old.value)
        (client_of common.new moves.new blocks.new copies.new control.new took.new.value.ghosts) }
    ensures life { moves.new.life ≡ moves.old.life }
    ensures wire { moves.new.wire ≡ moves.old.wire }
{
    take_body(common, moves, blocks, copies, control, &**body);
    mem::swap(body, took);
}
