//! Laws of both ends.
ghost use Rattle.std.specs.Prelude.{◌≡◌, ◌+◌, ◌*◌, ◌≤◌, List, ℕ, ◌∷◌, ◌++◌, [], None, length, sum_by};
ghost use Rattle.tn_types.specs.Prefix.{IsPrefixOf};
ghost use Rattle.messages.specs.declared.form.ParcelKind.TheVariants.{Message};
ghost use Rattle.messages.specs.Pieces.{Parcel, pieces_by, all_pieces};
ghost use Rattle.messages.specs.OutboxStands.{OutboxState, OutboxEvent, posted_of};
ghost use Rattle.messages.specs.InboxState.{InboxState, waiting, piece_fault};
ghost use Rattle.messages.specs.InboxStands.{InboxEvent, InboxStandsFor, took_of, handed_out, whole_parcels};
ghost use Rattle.messages.specs.Laws.{AreJoined, AreAtRest, HaveRoom};

use crate::limits::MAX_SINGLE_BYTES;
use tn_types::MAX_EVENT_BYTES;

/// If what one end took is a front of what the other handed on, the parcels that it handed out are the first ones that were posted
/// there, byte for byte, and so is the one that waits. If all came and nothing is held, all that was posted was handed out or waits.
pub fn messages_in_order()
    ensures front { (o : OutboxState) (out : List OutboxEvent) (b : InboxState) (came : List InboxEvent) → AreJoined o out b came →
        IsPrefixOf (handed_out came) (posted_of out) }
    ensures whole { (o : OutboxState) (out : List OutboxEvent) (b : InboxState) (came : List InboxEvent) → AreJoined o out b came →
        IsPrefixOf (whole_parcels b came) (posted_of out) }
    ensures all { (o : OutboxState) (out : List OutboxEvent) (b : InboxState) (came : List InboxEvent) → AreJoined o out b came →
        AreAtRest o out came → whole_parcels b came ≡ posted_of out }
{}

/// What was whole follows from the pieces alone that were taken.
pub fn parcels_follow_from_pieces()
    ensures { (a b : InboxState) (s t : List InboxEvent) → InboxStandsFor a s → InboxStandsFor b t → took_of s ≡ took_of t →
        whole_parcels a s ≡ whole_parcels b t }
{}

/// What an honest end sends is no fault: a piece that comes next in the pieces of parcels, each of which has room in the inbox.
pub fn honest_pieces_are_taken()
    ensures { (b : InboxState) (came : List InboxEvent) (parcels : List Parcel) (piece : List ℕ) → InboxStandsFor b came →
        waiting b ≡ None → HaveRoom b.room parcels → IsPrefixOf (took_of came ++ piece ∷ []) (all_pieces parcels)
        → piece_fault piece b ≡ None }
{}

/// A message costs one byte for each piece, and two for its length; of each 23 bytes it has one piece, and at most two more.
pub fn messages_cost_little()
    ensures bytes { (bytes : List ℕ) → sum_by length (pieces_by Message bytes) ≤ length bytes + length (pieces_by Message bytes) + 2 }
    ensures pieces { (bytes : List ℕ) → MAX_SINGLE_BYTES * length (pieces_by Message bytes) ≤ length bytes + MAX_EVENT_BYTES }
{}
