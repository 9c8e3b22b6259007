//! The number of what both ends of a connection must have alike.
ghost use Rattle.std.specs.Prelude.{◌≡◌, pos};
ghost use Rattle.sha2.specs.Sha256.{sha256};
ghost use Rattle.protocol_number.specs.Protocol.{protocol_bytes};
ghost use Rattle.tribes_ends.specs.Codes.{code_of, why_of};
ghost use Rattle.tribes_ends.specs.Making.{config_of, kinds_of, client_refusal};
ghost use Rattle.tribes_link.specs.Protocols.{protocol_of, IsReckoned};

use protocol_number::{Protocol, protocol_number};
use stream_manager::Config;
use tribes_ends::{ConfigRow, FieldRow, KindRow, Refusal, Why, config, kind_table};

/// A protocol number.
#[repr(C)]
#[derive(Clone, Copy)]
pub struct ProtocolRow {
    pub bytes: [u8; 32],
}

/// What of a configuration both ends have.
fn protocol_of(config: Config) -> Protocol
    ensures { result ≡ protocol_of config }
{
    Protocol {
        version: u32::from(config.version),
        size: config.size,
        life: config.life,
        move_bits: u32::from(config.move_bits),
    }
}

/// Tells why there is no number, by its code.
#[tactic(auto, using(crate::proofs::Below::is_below))]
fn tell(refusal: Refusal, reason: &mut Why) -> i32
    ensures code { (result ≡ code_of refusal) × (reason.new ≡ why_of refusal) }
    ensures not_zero { result ≡ pos 0 → ⊥ }
{
    let why = refusal.why();
    *reason = why;
    why.code
}

/// Reckons the number of a configuration but for its client, of the kinds, and of a word of the game's own, as its name and version.
#[unsafe(no_mangle)]
pub extern "C" fn tribes_protocol(
    row: &ConfigRow,
    kinds: &[KindRow],
    fields: &[FieldRow],
    word: &[u8],
    number: &mut ProtocolRow,
    reason: &mut Why,
) -> i32
    ensures told { result ≡ pos 0
        → number.new.bytes ≡ sha256 (protocol_bytes (protocol_of (config_of row.now)) (kinds_of kinds.now fields.now) word.now) }
    ensures answer { IsReckoned (client_refusal row.now kinds.now fields.now) result reason.new }
    ensures unchanged { (result ≡ pos 0 → ⊥) → number.new ≡ number.old }
{
    let protocol = match config(row) {
        Ok(config) => protocol_of(config),
        Err(refusal) => return tell(refusal, reason),
    };
    match kind_table(kinds, fields) {
        Ok(table) => {
            number.bytes = protocol_number(protocol, &table, word);
            0
        }
        Err(refusal) => tell(refusal, reason),
    }
}
