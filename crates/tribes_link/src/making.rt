//! Making an end, freeing it, and asking why a call did nothing.
ghost use Rattle.std.specs.Prelude.{◌≡◌, ◌⊎◌, ◌↔◌, pos, IsOk, IsSome, IfOk, IfErr, OnOk, IfSome, Some};
ghost use Rattle.tribes_ends.specs.Codes.{code_of, why_of};
ghost use Rattle.tribes_ends.specs.Making.{config_of, kinds_of, terms_from, server_refusal, client_refusal};
ghost use Rattle.tribes_ends.specs.Sides.{BeginsAtServer, BeginsAtClient};
ghost use Rattle.tribes_link.specs.Answers.{AnswersBy, IsMade};

use crate::answering::{HAS_END, NO_END, NO_MEMORY};
use crate::end::{End, OPEN};
use std::alloc::Global;
use tribes_ends::{ConfigRow, FieldRow, KindRow, Link, Refusal, Why};

/// The version of the interface: `TRIBES_VERSION` of the header that fits.
const VERSION: u32 = 2;

/// The version of the interface that this library has.
#[unsafe(no_mangle)]
pub extern "C" fn tribes_version() -> u32
    ensures { result ≡ 2 }
{
    VERSION
}

/// Puts a new end into the handle, or tells why there is none.
#[tactic(auto, using(crate::proofs::Below::is_below))]
fn begin(alloc: Global, end: &mut End, made: Result<Link, Refusal>, reason: &mut Why) -> i32
    ensures begun { result ≡ pos 0 → IfOk made (λ link. end.new.held.value ≡ Some link) }
    ensures unchanged { (result ≡ pos 0 → ⊥) → end.new ≡ end.old }
    ensures made { result ≡ pos 0 → IsOk made }
    ensures answer { OnOk made ((result ≡ pos 0) ⊎ (result ≡ NO_MEMORY)) }
    ensures refused { IfErr made (λ r. (result ≡ code_of r) × (reason.new ≡ why_of r)) }
{
    match made {
        Ok(link) => match Box::new(alloc, link) {
            Ok(boxed) => {
                end.put(boxed);
                0
            }
            Err(_) => {
                *reason = Refusal::NoMemory.why();
                NO_MEMORY
            }
        },
        Err(refusal) => {
            let why = refusal.why();
            *reason = why;
            why.code
        }
    }
}

/// Makes the server's end of a new connection.
#[unsafe(no_mangle)]
pub extern "C" fn tribes_server(
    alloc: Global,
    end: &mut End,
    config: &ConfigRow,
    kinds: &[KindRow],
    fields: &[FieldRow],
    bytes: &[u8],
    lengths: &[u32],
    reason: &mut Why,
) -> i32
    ensures begins { result ≡ pos 0 → IfSome end.new.held.value
        (BeginsAtServer (terms_from config.now kinds.now fields.now bytes.now lengths.now)) }
    ensures some { result ≡ pos 0 → IsSome end.new.held.value }
    ensures has_end { end.old.state ≡ OPEN → result ≡ HAS_END }
    ensures answer { (end.old.state ≡ OPEN → ⊥)
        → IsMade (server_refusal config.now kinds.now fields.now bytes.now lengths.now) result reason.new }
    ensures unchanged { (result ≡ pos 0 → ⊥) → end.new ≡ end.old }
{
    if end.is_open() {
        return HAS_END;
    }
    let made = Link::server(alloc, config, kinds, fields, bytes, lengths);
    begin(alloc, end, made, reason)
}

/// Makes the client's end of a new connection.
#[unsafe(no_mangle)]
pub extern "C" fn tribes_client(
    alloc: Global,
    end: &mut End,
    config: &ConfigRow,
    kinds: &[KindRow],
    fields: &[FieldRow],
    reason: &mut Why,
) -> i32
    ensures begins { result ≡ pos 0 → IfSome end.new.held.value (BeginsAtClient (config_of config.now) (kinds_of kinds.now fields.now)) }
    ensures some { result ≡ pos 0 → IsSome end.new.held.value }
    ensures has_end { end.old.state ≡ OPEN → result ≡ HAS_END }
    ensures answer { (end.old.state ≡ OPEN → ⊥) → IsMade (client_refusal config.now kinds.now fields.now) result reason.new }
    ensures unchanged { (result ≡ pos 0 → ⊥) → end.new ≡ end.old }
{
    if end.is_open() {
        return HAS_END;
    }
    let made = Link::client(alloc, config, kinds, fields);
    begin(alloc, end, made, reason)
}

/// Frees an end.
#[unsafe(no_mangle)]
pub extern "C" fn tribes_free(alloc: Global, end: &mut End) -> i32
    ensures freed { (result ≡ pos 0) ↔ (end.old.state ≡ OPEN) }
    ensures closed { (end.old.state ≡ OPEN → ⊥) → result ≡ NO_END }
    ensures empty { end.new.state ≡ OPEN → ⊥ }
{
    match end.take(alloc) {
        Some(_) => 0,
        None => NO_END,
    }
}

/// Tells why the last call that did nothing did nothing.
#[unsafe(no_mangle)]
pub extern "C" fn tribes_why(alloc: Global, end: &mut End, reason: &mut Why) -> i32
    ensures answer { AnswersBy end.old.state end.old.held.value result (λ side. result ≡ pos 0) }
    ensures unchanged { end.new.held.value ≡ end.old.held.value }
{
    match end.take(alloc) {
        Some(link) => {
            *reason = link.why();
            end.put(link);
            0
        }
        None => NO_END,
    }
}
