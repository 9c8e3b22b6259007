//! Parcels that are sent unguaranteed, each in one piece.
ghost use Rattle.std.specs.Prelude.{◌≡◌, ◌<◌, ◌≤◌, [], ◌∷◌, IfOk, IfErr, length};
ghost use Rattle.std.specs.Result.{result_err};
ghost use Rattle.messages.specs.Pieces.{pieces_by};
ghost use Rattle.messages.specs.InboxState.{loose_fault};
ghost use Rattle.messages.specs.declared.faults.HoldFault.TheVariants.{TooLong};

use crate::cutting::piece_of;
use crate::faults::{HoldFault, PieceFault};
use crate::form::{Form, ParcelKind};
use crate::inbox::parted;
use crate::limits::MAX_SINGLE_BYTES;
use tn_types::Payload;

/// The one piece of a parcel that is to be sent as an unguaranteed event. `TooLong` comes exactly where it has more than 23 bytes.
pub fn loose_piece(kind: ParcelKind, bytes: &[u8]) -> Result<Payload, HoldFault>
    ensures piece { IfOk result (λ piece. pieces_by kind bytes.now ≡ piece ∷ []) }
    ensures refused { IfErr result (λ fault. (fault ≡ TooLong MAX_SINGLE_BYTES) × (MAX_SINGLE_BYTES < length bytes.now)) }
    ensures fits { IfOk result (λ piece. length bytes.now ≤ MAX_SINGLE_BYTES) }
{
    if bytes.len() > MAX_SINGLE_BYTES {
        return Err(HoldFault::TooLong {
            most: MAX_SINGLE_BYTES as u32,
        });
    }
    let form = match kind {
        ParcelKind::Event => Form::Short,
        ParcelKind::Message => Form::Alone,
    };
    Ok(piece_of(&[form.byte()], bytes))
}

/// The parcel of an unguaranteed event that came: its kind, and its bytes. `Err` comes exactly where no honest end sends such a one.
pub fn loose_parcel(piece: &Payload) -> Result<(ParcelKind, &[u8]), PieceFault>
    ensures refused { result_err result ≡ loose_fault piece.now }
    ensures parcel { IfOk result (λ parcel. pieces_by parcel.0 parcel.1.now ≡ piece.now ∷ []) }
    ensures few { IfOk result (λ parcel. length parcel.1.now ≤ MAX_SINGLE_BYTES) }
{
    let Some((byte, bytes)) = parted(piece.as_slice()) else {
        return Err(PieceFault::Empty);
    };
    match Form::of(byte) {
        None => Err(PieceFault::UnknownForm { form: byte }),
        Some(Form::Short) => Ok((ParcelKind::Event, bytes)),
        Some(Form::Alone) => Ok((ParcelKind::Message, bytes)),
        Some(Form::First) => Err(PieceFault::NotEnded),
        Some(Form::Middle) => Err(PieceFault::NotBegun),
        Some(Form::Last) => Err(PieceFault::NotBegun),
    }
}
