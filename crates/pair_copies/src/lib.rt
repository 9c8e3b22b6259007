//! The ghosts of a pair from end to end, over all its steps: what the server's end knows of them, and what its client has.
//!
//! It has no code. Its laws speak of every list of steps that meets its conditions and brings no raw bytes; the network may
//! lose, repeat and delay what it likes.
#![tactic(auto)]

ghost use Rattle.std.specs.Prelude.{◌≡◌, ℕ, Some};
ghost use Rattle.ghost_client.specs.declared.copy.GhostCopy.{GhostCopy};
ghost use Rattle.ghost_client.specs.Copies.{copy_of};
ghost use Rattle.stream_manager.specs.Client.{ghosts_came};
ghost use Rattle.ghost_logs.specs.Copies.{CopiesAgree, PacketsFit};
ghost use Rattle.ghost_logs.specs.Blocks.{IsHeld, RefusesNoGhosts};
ghost use Rattle.ghost_logs.specs.Recovery.{LosesNothing};
ghost use Rattle.pair_core.specs.History.{history};
ghost use Rattle.pair_laws.specs.Laws.{Always};
ghost use Rattle.pair_copies.specs.Reads.{AllShowReads, ShowNewest};

/// Each copy that the client has is of the period that holds its slot at the server, of that period's kind and block, and
/// each of its fields has the level of the last packet that the client processed and that carries the field. A packet that is
/// newer than all that came kills and updates copies that are there, of the kind that it says, creates them in empty slots,
/// and names no slot twice. And the client holds the datablock of each copy.
pub fn copies_agree_with_slots()
    ensures copies { Always (λ t steps. CopiesAgree t (history t steps).server (history t steps).client) }
    ensures packets { Always (λ t steps. PacketsFit (history t steps).server (history t steps).client) }
    ensures blocks { Always (λ t steps. (slot : ℕ) (copy : GhostCopy)
        → copy_of (ghosts_came (history t steps).client) slot ≡ Some copy → IsHeld (history t steps).client copy.block) }
{}

/// The client refuses no packet that is newer than all that came for its ghosts or its control slot.
pub fn newer_packets_fit_the_copies()
    ensures { Always (λ t steps. RefusesNoGhosts (history t steps).server (history t steps).client) }
{}

/// No change is lost: each field of each period that is shown and not hidden is due at the server's end, or an unjudged packet
/// carries it, or the last packet that carries it was received and the client's copy has that packet's level.
pub fn no_change_is_lost()
    ensures { Always (λ t steps. LosesNothing (history t steps).server (history t steps).client) }
{}

/// What a client sees was read. Each level of each copy, of a field that is due too, is that of a value which a pack read of the
/// field, of the period that holds the copy's slot at the server. And each field of each period that is shown and not hidden is
/// due, or an unjudged packet carries it, or the client's copy has the level of the value that was read last.
pub fn copies_show_reads()
    ensures reads { Always (λ t steps. AllShowReads t steps) }
    ensures newest { Always (λ t steps. ShowNewest t steps) }
{}
