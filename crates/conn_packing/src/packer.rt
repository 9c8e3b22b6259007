//! A pack in one call.
ghost use Rattle.std.specs.Prelude.{◌≡◌, ◌+◌, ◌<◌, ◌≤◌, ◌++◌, ◌↔◌, ℕ, List, IsErr, IfOk, IfErr, OnErr, length, take, drop, vec_len, vec_capacity};
ghost use Rattle.tn_types.specs.declared.choices.Read.{Read};
ghost use Rattle.conn_packing.specs.Packs.{len_of};
ghost use Rattle.conn_packing.specs.Calls.{MayPackEnd, PacksEnd};

use crate::asking::MAX_PACKET_VALUES;
use crate::made::{Made, TooSmall};
use crate::packing::{begin, pack_onto};
use crate::writing::{check_room, ping_at, seal_at};
use notify_window::SendState;
use std::alloc::Global;
use std::marker::Model;
use stream_manager::Conn;
use tn_types::{Drain, NoMemory, Values};

/// Where the values of a data packet lie while it is made. It takes its memory once, and serves any connections, one after another.
///
/// A clause sees nothing of it: what a pack leaves here no later call looks at.
#[derive(Drop)]
pub struct Packer {
    listed: Vec<i64>,
}

impl Model for Packer {
    ghost use Rattle.std.specs.Prelude.{◌≤◌, vec_capacity};
    ghost use Rattle.conn_packing.specs.declared.asking.TheConstants.{MAX_PACKET_VALUES};

    ghost Value = { Unit {0} };

    ghost view = { λ p. tt };

    ghost invariant = { λ p. MAX_PACKET_VALUES ≤ vec_capacity p.listed };
}

impl Packer {
    /// Room for the values of the largest data packet.
    pub fn new(alloc: Global) -> Result<Packer, NoMemory> {
        let Ok(listed) = Vec::with_capacity(alloc, MAX_PACKET_VALUES) else {
            return Err(NoMemory);
        };
        Ok(Packer { listed })
    }

    /// Makes the end's next datagram after what `out` holds, which has room for it. Where the end's state is Room, these drains are
    /// absorbed first, and the data packet carries values that are asked for now: each field that its ghosts carry once, in their
    /// order and by rising field, and nothing else. Where it is Held or Worn, nothing is drained or asked. It takes no memory. A caller
    /// that wants to keep what was read lends a `Noting`.
    pub fn pack<V: Values>(
        &mut self,
        conn: &mut Conn,
        drains: &[Drain],
        values: &mut V,
        out: &mut Vec<u8>,
    ) -> Made
        requires may { MayPackEnd conn.old drains.now (V.ranges values.old) }
        requires room { vec_len out.old + conn.old.common.config.size ≤ vec_capacity out.old }
        ensures told { (reads : List Read) × (bytes : List ℕ) × PacksEnd conn.old drains.now reads result bytes conn.new
            × (out.new.items ≡ out.old.items ++ bytes) × V.asks values.old reads values.new × (length reads ≤ MAX_PACKET_VALUES) }
        ensures short { vec_len out.new ≤ vec_len out.old + conn.old.common.config.size }
        ensures room { vec_capacity out.old ≤ vec_capacity out.new }
    {
        pack_onto(conn, drains, values, &mut self.listed, out)
    }

    /// The same in a buffer: the datagram's bytes are its first, as many as the answer says. A buffer that is smaller than the
    /// connection's datagrams may be is refused before anything is done.
    pub fn pack_into<V: Values>(
        &mut self,
        conn: &mut Conn,
        drains: &[Drain],
        values: &mut V,
        out: &mut [u8],
    ) -> Result<Made, TooSmall>
        requires { MayPackEnd conn.old drains.now (V.ranges values.old) }
        ensures small { IsErr result ↔ (length out.old < conn.old.common.config.size) }
        ensures needed { IfErr result (λ fault. fault.needed ≡ conn.old.common.config.size) }
        ensures unchanged { OnErr result ((conn.new ≡ conn.old) × (values.new ≡ values.old) × (out.new ≡ out.old)) }
        ensures told { IfOk result (λ made. (reads : List Read)
            × PacksEnd conn.old drains.now reads made (take (len_of made) out.new) conn.new
            × V.asks values.old reads values.new × (length reads ≤ MAX_PACKET_VALUES)) }
        ensures rest { IfOk result (λ made. drop (len_of made) out.new ≡ drop (len_of made) out.old) }
        ensures few { IfOk result (λ made. (len_of made ≤ conn.old.common.config.size) × (len_of made ≤ length out.new)) }
    {
        check_room(conn, out.len())?;
        let life = conn.config().life;
        match begin(conn, drains, values, &mut self.listed) {
            SendState::Held => {
                let len = ping_at(conn, out);
                Ok(Made::Ping { len })
            }
            SendState::Worn => Ok(Made::Worn { life }),
            SendState::Room => {
                let len = seal_at(conn, self.listed.as_slice(), out);
                Ok(Made::Body { len })
            }
        }
    }
}
