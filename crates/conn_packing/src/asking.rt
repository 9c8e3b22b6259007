//! The values of a data packet, asked for field by field.
ghost use Rattle.std.specs.Prelude.{◌≡◌, true, ℕ, ◌+◌, ◌*◌, ◌<◌, ◌≤◌, List, [], IsSome, All, length, vec_len, vec_capacity};
ghost use Rattle.notify_window.specs.State.{send_state};
ghost use Rattle.tn_types.specs.BitWords.{has_bit};
ghost use Rattle.tn_types.specs.declared.choices.Read.{Read};
ghost use Rattle.stream_manager.specs.ConnCalls.{Planning};
ghost use Rattle.stream_manager.specs.Server.{ServerEvent, ghost_log};
ghost use Rattle.stream_manager.specs.Stands.{ConnStandsFor, terms_of};
ghost use Rattle.conn_packing.specs.Packs.{values_of};
ghost use Rattle.conn_packing.specs.Reads.{asked_by, asked_by_all, HasRanges};
ghost use Rattle.conn_packing.specs.Asking.{AreAsked, AreReadForNext};

use notify_window::SendState;
use std::mem;
use std::sync::ledger::{Blank, Ledger};
use stream_manager::Conn;
use tn_types::{Choice, MAX_FIELDS, MAX_PACKET_GHOSTS, Steps, Values};

/// How many values a data packet carries at most.
pub const MAX_PACKET_VALUES: usize = MAX_PACKET_GHOSTS * MAX_FIELDS;

/// Whether the bit of this field is set.
fn has_field(mask: u32, field: u8) -> bool
    requires { field < 32 }
    ensures { result ≡ has_bit mask field }
{
    mask >> field & 1 == 1
}

/// Asks for each field that the item carries, rising, and lists its value. The list is given and taken back, so that its end stays in
/// a register.
fn ask_fields<V: Values>(choice: &Choice, values: &mut V, listed: Vec<i64>) -> Vec<i64>
    requires ranged { (f : ℕ) → f < MAX_FIELDS → has_bit choice.now.mask f ≡ true → IsSome (V.ranges values.old choice.now.n f) }
    requires room { vec_len listed + MAX_FIELDS ≤ vec_capacity listed }
    ensures told { AreAsked V.ranges V.asks values.old values.new (asked_by choice.now) listed.items result.items }
    ensures few { vec_len result ≤ vec_len listed + MAX_FIELDS }
    ensures room { vec_capacity result ≡ vec_capacity listed }
{
    // copied, so that they are not read anew after each value
    let n = choice.n;
    let mask = choice.mask;
    let mut list = listed;
    'fields: for field in 0..MAX_FIELDS as u8 {
        if mask >> field == 0 {
            // no bit is left
            return list;
        }
        if has_field(mask, field) {
            list.push_reserved(values.value(n, field).value);
        }
    }
    list
}

/// Asks for each field that these items carry, item by item.
fn ask_all<V: Values>(choices: &[Choice], values: &mut V, listed: Vec<i64>) -> Vec<i64>
    requires ranged { All (λ c. (f : ℕ) → f < MAX_FIELDS → has_bit c.mask f ≡ true
        → IsSome (V.ranges values.old c.n f)) choices.now }
    requires room { vec_len listed + MAX_FIELDS * length choices.now ≤ vec_capacity listed }
    ensures told { AreAsked V.ranges V.asks values.old values.new (asked_by_all choices.now) listed.items result.items }
    ensures few { vec_len result ≤ vec_len listed + MAX_FIELDS * length choices.now }
    ensures room { vec_capacity result ≡ vec_capacity listed }
{
    let mut list = listed;
    'items: for choice in choices {
        list = ask_fields(choice, values, list);
    }
    list
}

/// Plans the next data packet, with a counter that nobody reads, and asks for the values of its ghosts, which are listed.
pub(crate) fn plan_and_ask<L: Ledger, V: Values>(
    conn: &mut Conn,
    blank: Blank,
    values: &mut V,
    listed: &mut Vec<i64>,
)
    requires name { blank.name ≡ L.name }
    requires parts { blank.parts ≡ L.parts }
    requires some { 0 < blank.parts }
    requires state { send_state conn.old.common.window ≡ SendState.Room }
    requires ranged { (log : List ServerEvent) × ConnStandsFor conn.old log
        × HasRanges (terms_of conn.old) (ghost_log log) (V.ranges values.old) }
    requires empty { listed.old.items ≡ [] }
    requires room { MAX_PACKET_VALUES ≤ vec_capacity listed.old }
    ensures planning { Planning conn.old conn.new }
    ensures told { (reads : List Read) × AreReadForNext conn.old reads × V.asks values.old reads values.new
        × (listed.new.items ≡ values_of reads) × (length reads ≤ MAX_PACKET_VALUES) }
    ensures room { vec_capacity listed.new ≡ vec_capacity listed.old }
{
    let mut steps: Steps<L> = Steps::new(blank);
    let choices = conn.plan(&mut steps);
    let spare = Vec::new(*listed.allocator());
    let list = mem::replace(listed, spare);
    *listed = ask_all(choices, values, list);
}
