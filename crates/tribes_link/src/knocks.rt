//! A client that greets, which the caller keeps.
ghost use Rattle.std.specs.Prelude.{◌≡◌, ◌≤◌, pos, length, IfSome, Some};
ghost use Rattle.greeting.specs.Knock.{said_by, heard_by};
ghost use Rattle.tribes_link.specs.Behind.{Behind, Tells};
ghost use Rattle.tribes_link.specs.Doors.{bytes_in, reached_from, knock_from, write_code, hear_code};

use crate::door_rows::{GreetingRow, put_greeting};
use crate::joining_codes::{NO_KNOCK, TOKEN_TOO_LONG};
use greeting::{
    GreetingBytes, Knock, MAX_TOKEN_BYTES, PROTOCOL_BYTES, Reached, Reason, Sixteen, TERMS_BYTES,
};

/// A client that greets: with zeros but for its nonce and protocol it has not yet.
#[repr(C)]
#[derive(Clone, Copy)]
pub struct KnockRow {
    pub nonce: Sixteen,
    pub protocol: [u8; PROTOCOL_BYTES],
    /// 0: it says hello, 1: it says its answer, 2: it was let in, 3: it was not.
    pub reached: u32,
    /// The number of the challenge.
    pub number: Sixteen,
    /// Who it is once it was let in, and what came with it.
    pub client: u32,
    pub terms: [u8; TERMS_BYTES],
    /// Why it was not: 1 version, 2 protocol, 3 full, 4 token.
    pub reason: u8,
}

fn reached_of(row: &KnockRow) -> Option<Reached>
    ensures { result ≡ reached_from row.now }
{
    match row.reached {
        0 => Some(Reached::Asking),
        1 => Some(Reached::Answering { number: row.number }),
        2 => Some(Reached::Joined {
            client: row.client,
            terms: row.terms,
        }),
        3 => match Reason::of(row.reason) {
            Some(reason) => Some(Reached::Refused { reason }),
            None => None,
        },
        _ => None,
    }
}

fn knock_of(row: &KnockRow) -> Option<Knock>
    ensures { result ≡ knock_from row.now }
{
    match reached_of(row) {
        Some(reached) => Some(Knock::at(row.nonce, row.protocol, reached)),
        None => None,
    }
}

/// Keeps how far it is.
#[tactic(auto, using(crate::proofs::Reasons::reason_again))]
fn keep(row: &mut KnockRow, reached: Reached)
    ensures reached { reached_from row.new ≡ Some reached }
    ensures nonce { row.new.nonce ≡ row.old.nonce }
    ensures protocol { row.new.protocol ≡ row.old.protocol }
{
    match reached {
        Reached::Asking => row.reached = 0,
        Reached::Answering { number } => {
            row.reached = 1;
            row.number = number;
        }
        Reached::Joined { client, terms } => {
            row.reached = 2;
            row.client = client;
            row.terms = terms;
        }
        Reached::Refused { reason } => {
            row.reached = 3;
            row.reason = reason.byte();
        }
    }
}

/// Gives what the client is to send now: the hello, its answer with the token, or nothing.
#[unsafe(no_mangle)]
pub extern "C" fn tribes_knock_write(
    knock: &KnockRow,
    token: &[u8],
    datagram: &mut GreetingRow,
) -> i32
    ensures told { result ≡ pos 0 → Tells (λ k. bytes_in datagram.new ≡ said_by k token.now) (knock_from knock.now) }
    ensures answer { result ≡ write_code (knock_from knock.now) (length token.now) }
    ensures unchanged { (result ≡ pos 0 → ⊥) → datagram.new ≡ datagram.old }
{
    let Some(client) = knock_of(knock) else {
        return NO_KNOCK;
    };
    if token.len() > MAX_TOKEN_BYTES {
        return TOKEN_TOO_LONG;
    }
    let mut place = GreetingBytes::new();
    client.write(token, &mut place);
    put_greeting(&place, datagram);
    0
}

/// A datagram came from the server. What is no greeting, or has another nonce, changes nothing.
#[unsafe(no_mangle)]
pub extern "C" fn tribes_knock_hear(knock: &mut KnockRow, bytes: &[u8]) -> i32
    ensures told { result ≡ pos 0 → Behind (λ old new. new ≡ record old { reached = heard_by old bytes.now })
        (knock_from knock.old) (knock_from knock.new) }
    ensures answer { result ≡ hear_code (knock_from knock.old) }
    ensures unchanged { (result ≡ pos 0 → ⊥) → knock.new ≡ knock.old }
{
    let Some(kept) = knock_of(knock) else {
        return NO_KNOCK;
    };
    let mut client = kept;
    client.hear(bytes);
    keep(knock, client.reached());
    0
}
