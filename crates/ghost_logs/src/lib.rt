//! The ghosts of a connection from end to end: what the server's end knows of them, and what its client has.
//!
//! It has no code. Its laws speak of a server's end and a client's end that stand for lists of what happened at them, and of
//! a network between them that may lose, repeat and delay packets.
#![tactic(auto)]

ghost use Rattle.std.specs.Prelude.{◌≡◌, ℕ, ◌<◌, List, Some};
ghost use Rattle.ghost_client.specs.declared.copy.GhostCopy.{GhostCopy};
ghost use Rattle.ghost_client.specs.State.{copy_in};
ghost use Rattle.stream_manager.specs.Stands.{ConnState, ConnStandsFor, terms_of, ClientState, ClientStandsFor};
ghost use Rattle.stream_manager.specs.Server.{ServerEvent};
ghost use Rattle.stream_manager.specs.Client.{ClientEvent};
ghost use Rattle.ghost_logs.specs.Ends.{AreJoined};
ghost use Rattle.ghost_logs.specs.Blocks.{IsHeld, HoldsReceived, RefusesNoGhosts};
ghost use Rattle.ghost_logs.specs.Copies.{IsOfHolder, PacketsFit};
ghost use Rattle.ghost_logs.specs.Recovery.{LosesNothing};

use tn_types::MAX_SLOTS;

/// Each copy that the client's end has is of the period that holds its slot at the server's end, of that period's kind and
/// block, and each of its fields has the level of the last packet that the client processed and that carries the field. A
/// packet that is newer than all that came kills and updates copies that are there, of the kind that it says, creates them
/// in empty slots, and names no slot twice.
pub fn copies_agree_with_slots()
    ensures copies { (conn : ConnState) (s : List ServerEvent) (client : ClientState) (c : List ClientEvent) → ConnStandsFor conn s
        → ClientStandsFor client c → AreJoined (terms_of conn) s c → (slot : ℕ) (copy : GhostCopy) → slot < MAX_SLOTS
        → copy_in client.copies.slots slot ≡ Some copy → IsOfHolder (terms_of conn) s c slot copy }
    ensures packets { (conn : ConnState) (s : List ServerEvent) (client : ClientState) (c : List ClientEvent) → ConnStandsFor conn s
        → ClientStandsFor client c → AreJoined (terms_of conn) s c → PacketsFit s c }
{}

/// Where the client holds the datablocks that the server counts as received, it refuses no packet that is newer than all that
/// came for its ghosts or its control slot, and it holds the datablock of each copy.
pub fn newer_packets_fit_the_copies()
    ensures refusals { (conn : ConnState) (s : List ServerEvent) (client : ClientState) (c : List ClientEvent) → ConnStandsFor conn s
        → ClientStandsFor client c → AreJoined (terms_of conn) s c → HoldsReceived s c → RefusesNoGhosts s c }
    ensures blocks { (conn : ConnState) (s : List ServerEvent) (client : ClientState) (c : List ClientEvent) → ConnStandsFor conn s
        → ClientStandsFor client c → AreJoined (terms_of conn) s c → HoldsReceived s c → (slot : ℕ) (copy : GhostCopy)
        → slot < MAX_SLOTS → copy_in client.copies.slots slot ≡ Some copy → IsHeld c copy.block }
{}

/// No change is lost: each field of each period that is shown and not hidden is due at the server's end, or an unjudged packet
/// carries it, or the last packet that carries it was received and the client's copy has that packet's level.
pub fn no_change_is_lost()
    ensures { (conn : ConnState) (s : List ServerEvent) (client : ClientState) (c : List ClientEvent) → ConnStandsFor conn s
        → ClientStandsFor client c → AreJoined (terms_of conn) s c → LosesNothing s c }
{}
