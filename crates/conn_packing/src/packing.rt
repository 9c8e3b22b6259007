//! What a pack does before its datagram is written, and with that.
ghost use Rattle.std.specs.Prelude.{◌≡◌, ◌+◌, ◌≤◌, ℕ, List, ◌++◌, length, vec_len, vec_capacity};
ghost use Rattle.std.specs.List.{AllByRecursion};
ghost use Rattle.tn_types.specs.declared.choices.Read.{Read};
ghost use Rattle.stream_manager.specs.ConnCalls.{Becomes, Keeps};
ghost use Rattle.stream_manager.specs.Server.{ServerEvent, ghost_log};
ghost use Rattle.stream_manager.specs.Stands.{ConnStandsFor, terms_of};
ghost use Rattle.conn_packing.specs.Packs.{absorbing, values_of};
ghost use Rattle.conn_packing.specs.Reads.{MayBeDrained};
ghost use Rattle.conn_packing.specs.Calls.{MayPackEnd, Begins, PacksEnd};

use crate::asking::{MAX_PACKET_VALUES, plan_and_ask};
use crate::made::Made;
use crate::writing::{ping_onto, seal_onto};
use notify_window::SendState;
use std::marker::Brand;
use std::sync::ledger::Blank;
use stream_manager::Conn;
use tn_types::{Drain, Values};

/// What was drained is due from now on.
fn absorb_all(conn: &mut Conn, drains: &[Drain])
    requires { (log : List ServerEvent) × ConnStandsFor conn.old log
        × AllByRecursion (MayBeDrained (terms_of conn.old) (ghost_log log)) drains.now }
    ensures stands { Becomes conn.old (absorbing drains.now) conn.new }
    ensures keeps { Keeps conn.old conn.new }
{
    'drains: for drain in drains {
        conn.absorb(drain.n, drain.bits);
    }
}

/// The end absorbs what was drained, and tells what it is to make now. A data packet it plans, and asks for the values that it
/// carries: they are listed.
pub(crate) fn begin<V: Values>(
    conn: &mut Conn,
    drains: &[Drain],
    values: &mut V,
    listed: &mut Vec<i64>,
) -> SendState
    requires may { MayPackEnd conn.old drains.now (V.ranges values.old) }
    requires list_room { MAX_PACKET_VALUES ≤ vec_capacity listed.old }
    ensures told { (reads : List Read) × Begins conn.old drains.now reads result conn.new
        × V.asks values.old reads values.new × (listed.new.items ≡ values_of reads) × (length reads ≤ MAX_PACKET_VALUES) }
    ensures list_room { vec_capacity listed.new ≡ vec_capacity listed.old }
{
    listed.clear();
    absorb_all(conn, drains);
    match conn.pack_state() {
        SendState::Held => SendState::Held,
        SendState::Worn => SendState::Worn,
        SendState::Room => {
            let blank = Blank::new(1);
            plan_and_ask::<Brand, V>(conn, blank, values, listed);
            SendState::Room
        }
    }
}

/// The end makes its next datagram after what `out` holds. The values that it carries are listed.
pub(crate) fn pack_onto<V: Values>(
    conn: &mut Conn,
    drains: &[Drain],
    values: &mut V,
    listed: &mut Vec<i64>,
    out: &mut Vec<u8>,
) -> Made
    requires may { MayPackEnd conn.old drains.now (V.ranges values.old) }
    requires room { vec_len out.old + conn.old.common.config.size ≤ vec_capacity out.old }
    requires list_room { MAX_PACKET_VALUES ≤ vec_capacity listed.old }
    ensures told { (reads : List Read) × (bytes : List ℕ) × PacksEnd conn.old drains.now reads result bytes conn.new
        × (out.new.items ≡ out.old.items ++ bytes)
        × V.asks values.old reads values.new × (length reads ≤ MAX_PACKET_VALUES) }
    ensures short { vec_len out.new ≤ vec_len out.old + conn.old.common.config.size }
    ensures room { vec_capacity out.old ≤ vec_capacity out.new }
    ensures list_room { vec_capacity listed.new ≡ vec_capacity listed.old }
{
    let life = conn.config().life;
    match begin(conn, drains, values, listed) {
        SendState::Held => {
            let len = ping_onto(conn, out);
            Made::Ping { len }
        }
        SendState::Worn => Made::Worn { life },
        SendState::Room => {
            let len = seal_onto(conn, listed.as_slice(), out);
            Made::Body { len }
        }
    }
}
