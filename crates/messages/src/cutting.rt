//! Pieces, cut from a parcel.
ghost use Rattle.std.specs.Prelude.{◌≡◌, ℕ, List, ◌+◌, ◌≤◌, ◌<◌, ◌++◌, length};
ghost use Rattle.messages.specs.Pieces.{pieces_by};

use crate::form::ParcelKind;
use crate::limits::{FIRST_BYTES, MAX_MESSAGE_BYTES, MAX_SINGLE_BYTES};
use tn_types::{MAX_EVENT_BYTES, Payload};

/// The piece with this head and these bytes.
pub(crate) fn piece_of(head: &[u8], bytes: &[u8]) -> Payload
    requires { length head.now + length bytes.now ≤ MAX_EVENT_BYTES }
    ensures { result ≡ head.now ++ bytes.now }
{
    let mut piece = Payload::new();
    append(&mut piece, head);
    append(&mut piece, bytes);
    piece
}

/// Appends bytes to a piece.
fn append(piece: &mut Payload, bytes: &[u8])
    requires { length piece.old + length bytes.now ≤ MAX_EVENT_BYTES }
    ensures { piece.new ≡ piece.old ++ bytes.now }
{
    'all: for byte in bytes {
        piece.push(*byte);
    }
}

/// How many pieces a parcel of this kind and length has.
pub(crate) fn piece_count(kind: ParcelKind, count: usize) -> usize
    requires { count ≤ MAX_MESSAGE_BYTES }
    ensures { (bytes : List ℕ) → length bytes ≡ count → result ≡ length (pieces_by kind bytes) }
{
    match kind {
        ParcelKind::Event => 1,
        ParcelKind::Message => message_piece_count(count),
    }
}

/// How many pieces a message of this length has.
fn message_piece_count(count: usize) -> usize
    requires { count ≤ MAX_MESSAGE_BYTES }
    ensures { (bytes : List ℕ) → length bytes ≡ count → result ≡ length (pieces_by ParcelKind.Message bytes) }
{
    if count <= MAX_SINGLE_BYTES {
        1
    } else {
        2 + (count - FIRST_BYTES - 1) / MAX_SINGLE_BYTES
    }
}
