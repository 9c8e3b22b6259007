//! The text of one datagram.
ghost use Rattle.std.specs.Prelude.{◌≡◌, ◌≤◌, length, IfOk};
ghost use Rattle.world_rules.specs.Kinds.{match_kinds as the_kinds};
ghost use Rattle.wire_format.specs.Ghosts.{held_in};
ghost use Rattle.wire_format.specs.Moves.{old_wire};
ghost use Rattle.packet_text.specs.Brief.{told_text};
ghost use Rattle.packet_text.specs.packet_parts.Telling.{server_telling, client_telling};

use crate::slots::Slots;
use packet_text::packet_parts::{client_parts, server_parts};
use packet_text::told_text;
use std::alloc::Global;
use tn_types::{MAX_READ_BYTES, NoMemory};
use wire_format::Wire;
use world_rules::kinds::match_kinds;

/// The table of a server's datagram, or its line. Where it has no fault, the slots then hold what they hold after it.
pub(crate) fn down_text(
    alloc: Global,
    version: u8,
    bytes: &[u8],
    slots: &mut Slots,
    brief: bool,
) -> Result<Vec<u8>, NoMemory>
    requires { length bytes.now ≤ MAX_READ_BYTES }
    ensures { IfOk result (λ text. text.items ≡ told_text brief the_kinds (server_telling version the_kinds (held_in slots.old) bytes.now)) }
{
    let kinds = match_kinds();
    let telling = server_parts(alloc, bytes, version, &kinds, slots.held())?;
    if telling.fault.is_none() {
        slots.follow(telling.parts.as_slice());
    }
    told_text(alloc, &kinds, &telling, brief)
}

/// The table of a client's datagram, or its line.
pub(crate) fn up_text(
    alloc: Global,
    version: u8,
    bytes: &[u8],
    brief: bool,
) -> Result<Vec<u8>, NoMemory>
    requires { length bytes.now ≤ MAX_READ_BYTES }
    ensures { IfOk result (λ text. text.items ≡ told_text brief the_kinds (client_telling (old_wire version) bytes.now)) }
{
    let telling = client_parts(alloc, bytes, Wire::old(version))?;
    told_text(alloc, &match_kinds(), &telling, brief)
}
