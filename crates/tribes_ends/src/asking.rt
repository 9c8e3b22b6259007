//! The values that a plan asks for.
ghost use Rattle.std.specs.Prelude.{◌≡◌, ◌<◌, ◌≤◌, ◌+◌, ◌*◌, ◌++◌, map, length, take};
ghost use Rattle.tn_types.specs.BitWords.{has_bit};
ghost use Rattle.notify_window.specs.State.{send_state};
ghost use Rattle.conn_packing.specs.Reads.{asked_by, asked_by_all};
ghost use Rattle.tribes_ends.specs.Lists.{ask_of};
ghost use Rattle.tribes_ends.specs.Sides.{PlansAtServer};

use conn_packing::MAX_PACKET_VALUES;
use notify_window::SendState;
use std::sync::ledger::{Blank, Ledger};
use stream_manager::Conn;
use tn_types::{Choice, MAX_FIELDS, MAX_PACKET_GHOSTS, Steps};

/// A value that is asked for: of a field of a period.
#[repr(C)]
#[derive(Clone, Copy, Debug, Default, PartialEq, Eq)]
pub struct Ask {
    pub n: u32,
    pub field: u32,
}

/// Whether the bit of this field is set.
pub(crate) fn has_field(mask: u32, field: u32) -> bool
    requires { field < 32 }
    ensures { result ≡ has_bit mask field }
{
    mask >> field & 1 == 1
}

/// Notes each field of the item, rising, after so many places; gives how many places the items take so far.
fn ask_fields(choice: &Choice, asks: &mut [Ask], before: usize) -> usize
    requires { before + MAX_FIELDS ≤ length asks.old }
    ensures told { take result asks.new ≡ take before asks.old ++ map ask_of (asked_by choice.now) }
    ensures few { result ≤ before + MAX_FIELDS }
    ensures places { length asks.new ≡ length asks.old }
{
    let mut count = before;
    'fields: for field in 0..MAX_FIELDS as u32 {
        if has_field(choice.mask, field) {
            asks[count] = Ask { n: choice.n, field };
            count += 1;
        }
    }
    count
}

/// Notes the fields of these items; gives how many these are.
fn ask_all(choices: &[Choice], asks: &mut [Ask]) -> usize
    requires few { length choices.now ≤ MAX_PACKET_GHOSTS }
    requires room { MAX_PACKET_VALUES ≤ length asks.old }
    ensures { take result asks.new ≡ map ask_of (asked_by_all choices.now) }
{
    let mut count = 0;
    'items: for choice in choices {
        count = ask_fields(choice, asks, count);
    }
    count
}

/// Plans the next data packet, with a counter that nobody reads, and notes what it asks for; gives how many that are.
pub(crate) fn plan<L: Ledger>(conn: &mut Conn, blank: Blank, asks: &mut [Ask]) -> usize
    requires name { blank.name ≡ L.name }
    requires parts { blank.parts ≡ L.parts }
    requires some { 0 < blank.parts }
    requires state { send_state conn.old.common.window ≡ SendState.Room }
    requires room { MAX_PACKET_VALUES ≤ length asks.old }
    ensures { PlansAtServer conn.old (take result asks.new) conn.new }
{
    let mut steps: Steps<L> = Steps::new(blank);
    let choices = conn.plan(&mut steps);
    ask_all(choices, asks)
}
